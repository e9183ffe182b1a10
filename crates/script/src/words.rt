// The words of a line.
ghost use Rattle.std.specs.Prelude.{◌≡◌, [], ◌∷◌, MatchOption, IfOk};
ghost use Rattle.script.specs.Text as text;
ghost use Rattle.script.specs.Commands.{held};

use std::alloc::{AllocError, Global};

fn is_blank(c: &u8) -> bool
    ensures { result ≡ text.blank c.now }
{
    matches!(*c, b' ' | b'\t' | b'\r')
}

// The first word and what follows it.
fn first_word(bytes: &[u8]) -> Option<(&[u8], &[u8])>
    ensures { MatchOption result (text.words bytes.now ≡ []) (λ p. text.words bytes.now ≡ p.0.now ∷ text.words p.1.now) }
{
    let start = bytes.iter().position(|c| !is_blank(c))?;
    let begun = &bytes[start..];
    let end = begun.iter().position(is_blank).unwrap_or(begun.len());
    Some(begun.split_at(end))
}

// The words of a line, in their order: its longest runs of bytes that are not blank.
pub(crate) fn split<'a>(heap: Global, line: &'a [u8]) -> Result<Vec<&'a [u8]>, AllocError>
    ensures { IfOk result (λ v. held v.items ≡ text.words line.now) }
{
    let mut words = Vec::new(heap);
    let mut rest = line;
    while let Some((word, after)) = first_word(rest) {
        words.push(word)?;
        rest = after;
    }
    Ok(words)
}
