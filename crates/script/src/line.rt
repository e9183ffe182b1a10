// A line of a script, read whole.
ghost use Rattle.std.specs.Prelude.{◌≡◌, IfOk, Some};
ghost use Rattle.script.specs.Commands as commands;
ghost use Rattle.script.specs.Mistakes.{reading};
ghost use Rattle.script.specs.Names as table;
ghost use Rattle.script.specs.Text as text;

use crate::command::{Command, Indexed, Kind, Name, Plain};
use crate::error::{Mistake, ParseError};
use crate::operands::{Operand, items, lone, miscounted};
use crate::words::split;
use places::End;
use std::alloc::Global;
use std::str::from_utf8;

// The name that a word is. An `Option` and no `TryFrom`: which mistake it is where there is none depends on where the word stands.
fn named(word: &[u8]) -> Option<Name>
    ensures { result ≡ table.lookup table.names word.now }
{
    match from_utf8(word).ok()? {
        "capacity" => Some(Name::Capacity),
        "load" => Some(Name::Load),
        "push_back" => Some(Name::Push(End::Back)),
        "push_front" => Some(Name::Push(End::Front)),
        "pop_front" => Some(Name::Plain(Plain::PopFront)),
        "pop_back" => Some(Name::Plain(Plain::PopBack)),
        "get" => Some(Name::Indexed(Indexed::Get)),
        "front" => Some(Name::Plain(Plain::Front)),
        "back" => Some(Name::Plain(Plain::Back)),
        "len" => Some(Name::Plain(Plain::Len)),
        "is_empty" => Some(Name::Plain(Plain::IsEmpty)),
        "is_full" => Some(Name::Plain(Plain::IsFull)),
        "slices" => Some(Name::Plain(Plain::Slices)),
        "iter" => Some(Name::Plain(Plain::Iter)),
        "swap" => Some(Name::Swap),
        "swap_remove_front" => Some(Name::Indexed(Indexed::SwapRemoveFront)),
        "swap_remove_back" => Some(Name::Indexed(Indexed::SwapRemoveBack)),
        "truncate" => Some(Name::Indexed(Indexed::Truncate)),
        "make_contiguous" => Some(Name::Plain(Plain::MakeContiguous)),
        "change" => Some(Name::Change),
        "pop_front_if_at_least" => Some(Name::PopIf(End::Front, Kind::AtLeast)),
        "pop_front_if_adding" => Some(Name::PopIf(End::Front, Kind::Adding)),
        "pop_front_if_mask" => Some(Name::PopIf(End::Front, Kind::Mask)),
        "pop_back_if_at_least" => Some(Name::PopIf(End::Back, Kind::AtLeast)),
        "pop_back_if_adding" => Some(Name::PopIf(End::Back, Kind::Adding)),
        "pop_back_if_mask" => Some(Name::PopIf(End::Back, Kind::Mask)),
        "retain_at_least" => Some(Name::Retain(Kind::AtLeast)),
        "retain_adding" => Some(Name::Retain(Kind::Adding)),
        "retain_mask" => Some(Name::Retain(Kind::Mask)),
        "clear" => Some(Name::Plain(Plain::Clear)),
        "close" => Some(Name::Plain(Plain::Close)),
        "draw" => Some(Name::Plain(Plain::Draw)),
        _ => None,
    }
}

// `change 2 adding 7`: the index, the kind of predicate and what it is given.
fn change(heap: Global, words: &[&[u8]]) -> Result<Command<Vec<u8>, Vec<bool>>, ParseError>
    ensures { IfOk (reading result) (λ v. commands.meaning v ≡ commands.changing (commands.held words.now)) }
{
    let [index, kind, given] = words else {
        return Err(miscounted(words, 3).into());
    };
    let index = Operand::new(*index, 1).number()?;
    let kind = Operand::new(*kind, 2).kind()?;
    let test = Operand::new(*given, 3).test(heap, kind)?;
    Ok(Command::Change(index, test))
}

fn command(
    heap: Global,
    name: Name,
    words: &[&[u8]],
) -> Result<Command<Vec<u8>, Vec<bool>>, ParseError>
    ensures { IfOk (reading result) (λ v. commands.meaning v ≡ commands.named (Some name) (commands.held words.now)) }
{
    match name {
        Name::Plain(call) => {
            let [] = words else {
                return Err(miscounted(words, 0).into());
            };
            Ok(Command::Plain(call))
        }
        Name::Indexed(call) => {
            let index = lone(words)?.number()?;
            Ok(Command::Indexed(call, index))
        }
        Name::Push(end) => {
            let item = lone(words)?.item()?;
            Ok(Command::Push(end, item))
        }
        Name::Swap => {
            let [i, j] = words else {
                return Err(miscounted(words, 2).into());
            };
            let i = Operand::new(*i, 1).number()?;
            let j = Operand::new(*j, 2).number()?;
            Ok(Command::Swap(i, j))
        }
        Name::Load => Ok(Command::Load(items(heap, words)?)),
        // without a number it asks for the capacity, and with one it makes a ring
        Name::Capacity if words.is_empty() => Ok(Command::Plain(Plain::Capacity)),
        Name::Capacity => {
            let slots = lone(words)?.number()?;
            Ok(Command::Make(slots))
        }
        Name::Retain(kind) => {
            let test = lone(words)?.test(heap, kind)?;
            Ok(Command::Retain(test))
        }
        Name::PopIf(end, kind) => {
            let test = lone(words)?.test(heap, kind)?;
            Ok(Command::PopIf(end, test))
        }
        Name::Change => change(heap, words),
    }
}

fn is_comment(word: &[u8]) -> bool
    ensures { result ≡ commands.comment word.now }
{
    word.first() == Some(&b'#')
}

// What a line with these words asks for.
fn asked(
    heap: Global,
    first: &[u8],
    others: &[&[u8]],
) -> Result<Command<Vec<u8>, Vec<bool>>, ParseError>
    ensures { IfOk (reading result) (λ v. commands.meaning v ≡ commands.asked first.now (commands.held others.now)) }
{
    if is_comment(first) {
        return Ok(Command::Nothing);
    }
    let name = named(first).ok_or(Mistake::UnknownCall)?;
    command(heap, name, others)
}

// What a line asks for, or what is wrong with it.
pub fn parse(heap: Global, line: &[u8]) -> Result<Command<Vec<u8>, Vec<bool>>, ParseError>
    ensures { IfOk (reading result) (λ v. commands.meaning v ≡ commands.command (text.words line.now)) }
{
    let words = split(heap, line)?;
    match words.split_first() {
        Some((first, others)) => asked(heap, first, others),
        None => Ok(Command::Nothing),
    }
}
