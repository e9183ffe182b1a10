// The predicates that a line names.
ghost use Rattle.std.specs.Prelude.{◌≡◌, IfOk};
ghost use Rattle.script.specs.Commands as commands;
ghost use Rattle.script.specs.Mistakes.{reading};
ghost use Rattle.script.specs.Names as table;
ghost use Rattle.script.specs.Text as text;

use crate::command::{Kind, Test};
use crate::error::{Mistake, ParseError};
use crate::operands::Operand;
use std::alloc::Global;
use std::str::from_utf8;

// The kind of predicate that a word names. An `Option` and no `TryFrom`: the mistake where there is none names the word's place.
fn named(word: &[u8]) -> Option<Kind>
    ensures { result ≡ table.lookup table.kinds word.now }
{
    match from_utf8(word).ok()? {
        "at_least" => Some(Kind::AtLeast),
        "adding" => Some(Kind::Adding),
        "mask" => Some(Kind::Mask),
        _ => None,
    }
}

impl Operand<'_> {
    // The kind of predicate that it names.
    pub(crate) fn kind(&self) -> Result<Kind, Mistake>
        ensures { result ≡ commands.kind_at self.now.place (table.lookup table.kinds self.now.word.now) }
    {
        named(self.word).ok_or(Mistake::UnknownPredicate(self.place))
    }

    // The mask that it writes in 0 and 1.
    #[tactic(auto, unfolding(crate::specs::Text::flags))]
    fn mask(&self, heap: Global) -> Result<Test<Vec<bool>>, ParseError>
        ensures { IfOk (reading result) (λ t. commands.test_meaning t ≡ commands.masked self.now.place (text.flags self.now.word.now)) }
    {
        let mut flags = Vec::new(heap);
        for c in self.word {
            if *c != b'0' && *c != b'1' {
                return Err(Mistake::NoMask(self.place).into());
            }
            flags.push(*c == b'1')?;
        }
        Ok(Test::Mask(flags))
    }

    // A predicate of a kind, with what it is given here.
    pub(crate) fn test(&self, heap: Global, kind: Kind) -> Result<Test<Vec<bool>>, ParseError>
        ensures { IfOk (reading result) (λ t. commands.test_meaning t ≡ commands.tested kind self.now.place self.now.word.now) }
    {
        match kind {
            Kind::AtLeast => Ok(Test::AtLeast(self.item()?)),
            Kind::Adding => Ok(Test::Adding(self.item()?)),
            Kind::Mask => self.mask(heap),
        }
    }
}
