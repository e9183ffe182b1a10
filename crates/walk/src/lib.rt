// A walk over two slices, one after the other, from either end.
#![tactic(auto)]

ghost use Rattle.std.specs.Prelude.{◌≡◌, ◌++◌};
ghost use Rattle.std.specs.Iterator.{YieldsFirstRef, YieldsLastRef, item_count};
ghost use Rattle.walk.specs.Walks.{ahead};

// What is still ahead: the first slice, then the second. It copies no element.
#[derive(Drop)]
pub struct Iter<'a, T> {
    first: &'a [T],
    second: &'a [T],
}

impl<'a, T> Iter<'a, T> {
    pub fn over(first: &'a [T], second: &'a [T]) -> Iter<'a, T>
        ensures { ahead result ≡ first.now ++ second.now }
    {
        Iter { first, second }
    }
}

impl<'a, T> Iterator for Iter<'a, T> {
    type Item = &'a T;

    // the first of what is ahead, or none, and the rest
    ghost next_gives = { YieldsFirstRef ahead };

    ghost remaining = { item_count ahead };

    fn next(&mut self) -> Option<&'a T> {
        if let Some((item, rest)) = self.first.split_first() {
            self.first = rest;
            return Some(item);
        }
        let (item, rest) = self.second.split_first()?;
        self.second = rest;
        Some(item)
    }
}

impl<'a, T> DoubleEndedIterator for Iter<'a, T> {
    // the last of what is ahead, or none, and the rest
    ghost next_back_gives = { YieldsLastRef ahead };

    fn next_back(&mut self) -> Option<&'a T> {
        if let Some((last, rest)) = self.second.split_last() {
            self.second = rest;
            return Some(last);
        }
        let (last, rest) = self.first.split_last()?;
        self.first = rest;
        Some(last)
    }
}
