// The lines of a script.
ghost use Rattle.std.specs.Prelude.{◌≤◌, length};
ghost use Rattle.std.specs.Iterator.{at_most};

#[derive(Clone, Copy, Debug, PartialEq, Eq)]
pub struct Line<'a> {
    // from 1
    pub number: usize,
    pub text: &'a [u8],
}

// What is still to be read, and the number of the line that was read last.
// The library's `split` and `enumerate` would be no plainer: their type names a closure, so that each who shares the lines would
// take a type parameter in its place, and owe that the lines may be taken, and end.
#[derive(Drop)]
pub struct Lines<'a> {
    rest: &'a [u8],
    number: usize,
}

impl<'a> Lines<'a> {
    pub(crate) fn new(text: &'a [u8]) -> Lines<'a> {
        Lines {
            rest: text,
            number: 0,
        }
    }
}

impl<'a> Iterator for Lines<'a> {
    type Item = Line<'a>;

    ghost remaining = { λ w. at_most (length w.rest.now) };

    fn next(&mut self) -> Option<Line<'a>> {
        if self.rest.is_empty() {
            return None;
        }
        let end = self.rest.iter().position(|b| *b == b'\n');
        let (text, rest) = match end {
            Some(end) => (&self.rest[..end], &self.rest[end + 1..]),
            None => (self.rest, &self.rest[0..0]),
        };
        self.rest = rest;
        self.number = self.number.saturating_add(1);
        Some(Line {
            number: self.number,
            text,
        })
    }
}
