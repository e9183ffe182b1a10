// Reading a script: one call of a ring of bytes to a line.
#![tactic(auto)]

pub mod command;
pub mod error;
mod line;
mod number;
mod operands;
mod predicate;
mod words;

pub use command::{Command, Indexed, Kind, Name, Plain, Test};
pub use error::{Mistake, ParseError};
pub use line::parse;
pub use places::End;
