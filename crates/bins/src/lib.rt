// Bins: where a container puts the items that it lets go.
#![tactic(auto)]

pub mod bin;
mod choice;
pub mod pair;
pub mod sending;
pub mod tray;

pub use bin::Bin;
pub use pair::Pair;
pub use sending::send_all;
pub use tray::Tray;
