// Whole histories of a ring: any list of calls, carried out one after another, and the law that holds at every moment.
#![tactic(auto)]

mod drains;
mod edits;
pub mod listener;
mod reads;
pub mod running;
pub mod stage;

pub use listener::Listener;
pub use running::run;
pub use stage::Stage;
