// What can be wrong with a line, and what can stop its reading.
ghost use Rattle.std.specs.Prelude.{◌≡◌, Some, alloc_error};
ghost use Rattle.script.specs.Mistakes as mistakes;
ghost use Rattle.script.specs.declared.error.ParseError.TheVariants.{Mistake, NoMemory};

use std::alloc::{AllocError, AllocFailed};
use std::error::Error;
use std::fmt;

#[derive(Clone, Copy, Debug, PartialEq, Eq)]
pub enum Mistake {
    // the first word is no call's name
    UnknownCall,
    TooFewNumbers,
    TooManyNumbers,
    // the word at this place, from 1, is no number, or too large a one
    NoNumber(usize),
    // the word at this place is not made of 0 and 1
    NoMask(usize),
    // the word at this place is no predicate's name
    UnknownPredicate(usize),
}

impl fmt::Display for Mistake {
    ghost output = { λ m. Some (mistakes.reason m) };

    fn fmt<W: fmt::Write>(&self, f: &mut fmt::Formatter<W>) -> fmt::Result {
        match self {
            Mistake::UnknownCall => f.write_str("no call has this name"),
            Mistake::TooFewNumbers => f.write_str("a number is missing"),
            Mistake::TooManyNumbers => f.write_str("there are too many words"),
            Mistake::NoNumber(place) => {
                write!(f, "word {place} after the name is no number, or too large")
            }
            Mistake::NoMask(place) => {
                write!(f, "word {place} after the name is no mask of 0 and 1")
            }
            Mistake::UnknownPredicate(place) => {
                write!(f, "word {place} after the name is no predicate")
            }
        }
    }
}

impl Error for Mistake {}

// Why a line was not read.
#[derive(Clone, Copy, Debug, PartialEq, Eq)]
pub enum ParseError {
    Mistake(Mistake),
    NoMemory(AllocError),
}

impl ParseError {
    // The mistake, or the error where there was no memory.
    pub fn mistake(self) -> Result<Mistake, AllocError>
        ensures { result ≡ mistakes.mistake self }
    {
        match self {
            ParseError::Mistake(mistake) => Ok(mistake),
            ParseError::NoMemory(error) => Err(error),
        }
    }
}

impl From<Mistake> for ParseError {
    ghost from_gives = { λ m e. e ≡ Mistake m };

    fn from(mistake: Mistake) -> ParseError {
        Self::Mistake(mistake)
    }
}

impl From<AllocError> for ParseError {
    ghost from_gives = { λ x e. e ≡ NoMemory x };

    fn from(error: AllocError) -> ParseError {
        Self::NoMemory(error)
    }
}

impl<T: Drop> From<AllocFailed<T>> for ParseError {
    ghost from_gives = { λ _ e. e ≡ NoMemory alloc_error };

    fn from(_refused: AllocFailed<T>) -> ParseError {
        Self::NoMemory(AllocError)
    }
}

impl fmt::Display for ParseError {
    ghost output = { λ e. Some (mistakes.message e) };

    fn fmt<W: fmt::Write>(&self, f: &mut fmt::Formatter<W>) -> fmt::Result {
        match self {
            ParseError::Mistake(mistake) => write!(f, "{mistake}"),
            // std's `Display` of the error prints this too, but no clause of std says so
            ParseError::NoMemory(_) => f.write_str("memory allocation failed"),
        }
    }
}

impl Error for ParseError {}
