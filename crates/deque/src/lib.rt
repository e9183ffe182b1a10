// A double-ended queue of fixed capacity, a ring over slots that its caller lends to each call.
#![tactic(auto)]

pub mod deque;
mod rotation;
pub mod rows;

pub use deque::draining::IntoIter;
pub use deque::ends::MAX_CAPACITY;
pub use deque::{CloseToken, Deque};
pub use rows::rows_hold;
