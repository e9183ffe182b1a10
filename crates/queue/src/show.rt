// What is printed.
use calls::{Answer, Value};
use places::Places;
use std::fmt;

// What a call answered.
#[derive(Clone, Copy, Debug, PartialEq, Eq)]
pub struct Said(pub Answer<u8>);

impl fmt::Display for Said {
    fn fmt<W: fmt::Write>(&self, f: &mut fmt::Formatter<W>) -> fmt::Result {
        match &self.0 {
            Ok(Value::Done) => f.write_str("ok"),
            Ok(Value::Item(Some(item))) => write!(f, "{item}"),
            Ok(Value::Item(None)) | Ok(Value::Verdict(None)) => f.write_str("none"),
            Ok(Value::Number(number)) => write!(f, "{number}"),
            Ok(Value::Flag(flag)) => write!(f, "{flag}"),
            Ok(Value::Verdict(Some(true))) => f.write_str("yes"),
            Ok(Value::Verdict(Some(false))) => f.write_str("no"),
            Ok(Value::Contiguous(front, len)) => write!(f, "{len} items from slot {front} on"),
            Err(not_done) => write!(f, "{not_done}"),
        }
    }
}

// Items, each after a space.
#[derive(Clone, Copy, Debug, PartialEq, Eq)]
pub struct Items<'a>(pub &'a [u8]);

impl fmt::Display for Items<'_> {
    fn fmt<W: fmt::Write>(&self, f: &mut fmt::Formatter<W>) -> fmt::Result {
        for item in self.0 {
            write!(f, " {item}")?;
        }
        Ok(())
    }
}

// The list of a ring in its two parts.
#[derive(Clone, Copy, Debug, PartialEq, Eq)]
pub struct Slices<'a>(pub &'a [u8], pub &'a [u8]);

impl fmt::Display for Slices<'_> {
    fn fmt<W: fmt::Write>(&self, f: &mut fmt::Formatter<W>) -> fmt::Result {
        let first = Items(self.0);
        let second = Items(self.1);
        write!(f, "|{first} /{second}")
    }
}

// The slots in a row: vacant ones dotted, and the front marked.
#[derive(Clone, Copy, Debug, PartialEq, Eq)]
pub struct Drawing<'a> {
    pub slots: &'a [u8],
    pub places: Places,
}

impl Drawing<'_> {
    fn holds(&self, slot: usize) -> bool {
        let Places {
            capacity,
            front,
            len,
        } = self.places;
        let end = front.saturating_add(len);
        (front..end).contains(&slot) || slot.saturating_add(capacity) < end
    }
}

impl fmt::Display for Drawing<'_> {
    fn fmt<W: fmt::Write>(&self, f: &mut fmt::Formatter<W>) -> fmt::Result {
        for (slot, item) in self.slots.iter().enumerate() {
            f.write_str(" ")?;
            if slot == self.places.front {
                f.write_str(">")?;
            }
            if self.holds(slot) {
                write!(f, "{item}")?;
            } else {
                f.write_str(".")?;
            }
        }
        Ok(())
    }
}
