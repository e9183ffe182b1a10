// What stands after the name of a call.
ghost use Rattle.std.specs.Prelude.{◌≡◌, length, IfOk, vec_items};
ghost use Rattle.std.specs.Result.{result_map_both};
ghost use Rattle.script.specs.Commands as commands;
ghost use Rattle.script.specs.Mistakes.{reading};

use crate::error::{Mistake, ParseError};
use crate::number::number;
use std::alloc::Global;

// A word, and its place after the name, from 1.
#[derive(Clone, Copy, Debug, PartialEq, Eq)]
pub(crate) struct Operand<'a> {
    pub(crate) word: &'a [u8],
    pub(crate) place: usize,
}

impl<'a> Operand<'a> {
    pub(crate) fn new(word: &'a [u8], place: usize) -> Operand<'a>
        ensures word { result.word.now ≡ word.now }
        ensures place { result.place ≡ place }
    {
        Operand { word, place }
    }

    pub(crate) fn number(&self) -> Result<usize, Mistake>
        ensures { result ≡ commands.numbered commands.max_index self.now.place self.now.word.now }
    {
        number(self.word).ok_or(Mistake::NoNumber(self.place))
    }

    pub(crate) fn item(&self) -> Result<u8, Mistake>
        ensures { result ≡ commands.numbered commands.max_item self.now.place self.now.word.now }
    {
        // by way of `ok`: with `map_err` the clause is not proved
        u8::try_from(self.number()?)
            .ok()
            .ok_or(Mistake::NoNumber(self.place))
    }
}

// What is wrong with words that are not so many as a call takes.
// No `exactly::<N>` answers them as an array: the borrow checker covers none of length `N` in a `Result`.
pub(crate) fn miscounted(words: &[&[u8]], wanted: usize) -> Mistake
    ensures { result ≡ commands.miscounted (length words.now) wanted }
{
    if words.len() < wanted {
        Mistake::TooFewNumbers
    } else {
        Mistake::TooManyNumbers
    }
}

// The one word that there is.
pub(crate) fn lone<'a>(words: &[&'a [u8]]) -> Result<Operand<'a>, Mistake>
    ensures word { result_map_both (λ x. x.word.now) (λ m. m) result ≡ commands.lone (commands.held words.now) }
    ensures place { IfOk result (λ x. x.place ≡ 1) }
{
    match words {
        [word] => Ok(Operand::new(*word, 1)),
        _ => Err(miscounted(words, 1)),
    }
}

// The items that the words write, in their order.
pub(crate) fn items(heap: Global, words: &[&[u8]]) -> Result<Vec<u8>, ParseError>
    ensures { IfOk (reading result) (λ v. result_map_both vec_items (λ m. m) v ≡ commands.items 1 (commands.held words.now)) }
{
    let mut items = Vec::new(heap);
    for (i, word) in words.iter().enumerate() {
        items.push(Operand::new(*word, i + 1).item()?)?;
    }
    Ok(items)
}
