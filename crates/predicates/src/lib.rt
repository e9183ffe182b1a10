// Predicates that are shown items one by one.
#![tactic(auto)]

pub mod bytes;
mod choice;
pub mod mask;
pub mod predicate;

pub use bytes::{AddByte, AtLeast};
pub use mask::Mask;
pub use predicate::Predicate;
