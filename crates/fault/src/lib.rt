// What the product refuses, and the one line that says so.
#![tactic(auto)]

ghost use Rattle.std.specs.Prelude.{◌≡◌, Some};
ghost use Rattle.fault.specs.Faults as faults;

use std::error::Error;
use std::fmt;

// The part of the product that refuses.
#[derive(Clone, Copy, Debug, PartialEq, Eq)]
pub enum Layer {
    Letters,
    Sheet,
    Ring,
    Grades,
    Costing,
}

// A refusal. specs/Faults.antt gives each case its number, its place and its layer.
#[derive(Clone, Copy, Debug, PartialEq, Eq)]
pub enum Fault {
    // fewer slots lent than the capacity: how many were lent
    TooFewSlots(usize),
    // a push onto a full ring: its length
    Full(usize),
    // a swap's index that is not below the length: the index
    OutOfRange(usize),
    // a load into a ring that is not empty: its length
    NotEmpty(usize),
    // a load of more items than the capacity: how many were offered
    TooMany(usize),
}

// A refusal that gives back what the call was given. It has no `map`, which would ask of its caller that the function may be called.
#[derive(Clone, Copy, Debug, PartialEq, Eq)]
pub struct Returned<T> {
    pub fault: Fault,
    pub given: T,
}

impl Fault {
    pub fn number(&self) -> u8
        ensures { result ≡ faults.number self.now }
    {
        match self {
            Fault::TooFewSlots(_) => 0,
            Fault::Full(_) => 1,
            Fault::OutOfRange(_) => 2,
            Fault::NotEmpty(_) => 3,
            Fault::TooMany(_) => 4,
        }
    }

    pub fn place(&self) -> usize
        ensures { result ≡ faults.place self.now }
    {
        match *self {
            Fault::TooFewSlots(lent) => lent,
            Fault::Full(len) => len,
            Fault::OutOfRange(index) => index,
            Fault::NotEmpty(len) => len,
            Fault::TooMany(offered) => offered,
        }
    }

    pub fn layer(&self) -> Layer
        ensures { result ≡ faults.layer self.now }
    {
        match self {
            Fault::TooFewSlots(_)
            | Fault::Full(_)
            | Fault::OutOfRange(_)
            | Fault::NotEmpty(_)
            | Fault::TooMany(_) => Layer::Ring,
        }
    }
}

impl fmt::Display for Layer {
    ghost output = { λ x. Some (faults.name x) };

    fn fmt<W: fmt::Write>(&self, f: &mut fmt::Formatter<W>) -> fmt::Result {
        f.write_str(match self {
            Layer::Letters => "letters",
            Layer::Sheet => "sheet",
            Layer::Ring => "ring",
            Layer::Grades => "grades",
            Layer::Costing => "costing",
        })
    }
}

impl fmt::Display for Fault {
    ghost output = { λ x. Some (faults.line x) };

    fn fmt<W: fmt::Write>(&self, f: &mut fmt::Formatter<W>) -> fmt::Result {
        let number = self.number();
        let place = self.place();
        let layer = self.layer();
        write!(f, "refused {number} at {place} by {layer}")
    }
}

impl Error for Fault {}
