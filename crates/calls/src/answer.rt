// What a request came to.
ghost use Rattle.std.specs.Prelude.{◌≡◌, Some, None};
ghost use Rattle.calls.specs.Lines.{line};
ghost use Rattle.calls.specs.declared.answer.NotDone.TheVariants as not_done;

use fault::{Fault, Returned};
use std::error::Error;
use std::fmt;

pub type Answer<T> = Result<Value<T>, NotDone<T>>;

// What a call answers that was made and accepted.
#[derive(Clone, Copy, Debug, PartialEq, Eq)]
pub enum Value<T> {
    Done,
    Item(Option<T>),
    // what a predicate said of an item, if there was one
    Verdict(Option<bool>),
    Number(usize),
    Flag(bool),
    // where the list begins, and how long it is
    Contiguous(usize, usize),
}

#[derive(Clone, Copy, Debug, PartialEq, Eq)]
pub enum NotDone<T> {
    // not made, and nothing was done: the ring is closed, or a drain, or there is no such bin or predicate
    Unmade,
    // refused, with the item that the call brought
    Refused(Fault, Option<T>),
}

impl<T> From<Fault> for NotDone<T> {
    ghost from_gives = { λ fault e. e ≡ not_done.Refused fault None };

    fn from(fault: Fault) -> NotDone<T> {
        NotDone::Refused(fault, None)
    }
}

impl<T> From<Returned<T>> for NotDone<T> {
    ghost from_gives = { λ returned e. e ≡ not_done.Refused returned.fault (Some returned.given) };

    fn from(returned: Returned<T>) -> NotDone<T> {
        let Returned { fault, given } = returned;
        NotDone::Refused(fault, Some(given))
    }
}

// A refusal is shown by its fault's line.
impl<T> fmt::Display for NotDone<T> {
    ghost output = { λ e. Some (line e) };

    fn fmt<W: fmt::Write>(&self, f: &mut fmt::Formatter<W>) -> fmt::Result {
        match self {
            NotDone::Unmade => f.write_str("not made"),
            NotDone::Refused(fault, _) => write!(f, "{fault}"),
        }
    }
}

impl<T: fmt::Debug + Drop> Error for NotDone<T> {}
