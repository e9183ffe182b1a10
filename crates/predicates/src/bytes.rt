// Predicates of bytes.
ghost use Rattle.std.specs.Prelude.{ℕ};
ghost use Rattle.predicates.specs.Kinds.{at_least, add_byte};

use crate::predicate::Predicate;

// Yes for a byte of at least `floor`.
#[derive(Clone, Copy, Debug, PartialEq, Eq)]
pub struct AtLeast {
    pub floor: u8,
}

impl Predicate<u8> for AtLeast {
    ghost State = { ℕ };

    ghost state = { λ p. p.floor };

    ghost rule = { at_least };

    fn show(&mut self, item: &mut u8) -> bool {
        *item >= self.floor
    }
}

// Adds `by` modulo 256, with yes where nothing carried.
#[derive(Clone, Copy, Debug, PartialEq, Eq)]
pub struct AddByte {
    pub by: u8,
}

impl Predicate<u8> for AddByte {
    ghost State = { ℕ };

    ghost state = { λ p. p.by };

    ghost rule = { add_byte };

    fn show(&mut self, item: &mut u8) -> bool {
        let (sum, carried) = item.overflowing_add(self.by);
        *item = sum;
        !carried
    }
}
