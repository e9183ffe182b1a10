// The calls of a ring as values, what they answer, and the law of every list of them.
#![tactic(auto)]

pub mod answer;
pub mod call;

pub use answer::{Answer, NotDone, Value};
pub use call::{Call, Edit, Read, Release, Request, Test};
pub use places::End;
