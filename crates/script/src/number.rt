// A number in digits.
ghost use Rattle.std.specs.Prelude.{◌≡◌};
ghost use Rattle.script.specs.Commands as commands;
ghost use Rattle.script.specs.Text as text;

// The number that a word of digits writes, or none where it is no such word, or its number is too large.
#[tactic(auto, using(crate::proofs::Digits::number_over), unfolding(crate::specs::Text::number_after))]
pub(crate) fn number(word: &[u8]) -> Option<usize>
    ensures { result ≡ text.number commands.max_index word.now }
{
    if word.is_empty() {
        return None;
    }
    let mut value = 0usize;
    for c in word {
        if !c.is_ascii_digit() {
            return None;
        }
        value = value.checked_mul(10)?.checked_add(usize::from(*c - b'0'))?;
    }
    Some(value)
}
