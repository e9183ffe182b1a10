// Sending items to any bin.
ghost use Rattle.std.specs.Prelude.{◌≡◌, ℕ, ◌+◌, ◌%◌, ◌^◌, length, fold};

use crate::bin::Bin;

// Gives the bin each item, in order, and answers how many there were.
pub fn send_all<T: Copy, B: Bin<T>>(items: &[T], bin: &mut B) -> usize
    ensures result { result ≡ length items.now }
    ensures bin { B.state bin.new ≡ fold B.rule (B.state bin.old) items.now }
    ensures count { B.count (B.state bin.new) ≡ (B.count (B.state bin.old) + length items.now) % 2 ^ 64 }
    ensures from_fresh { B.fresh (B.state bin.old) → B.count (B.state bin.new) ≡ length items.now % 2 ^ 64 }
{
    for &item in items {
        bin.take(item);
    }
    items.len()
}
