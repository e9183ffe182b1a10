// Turning slots left. A rule of the product: turning is written out here, for items of every kind, and not left to the library's `rotate_left`.
ghost use Rattle.std.specs.Prelude.{◌≡◌};
ghost use Rattle.lists.specs.Rotated.{rotated};

// Leaves the items from k on, and then the first k, by three reversals. A part of no more than k items stays as it is.
pub(crate) fn rotate_left<T: Copy>(part: &mut [T], k: usize)
    ensures { part.new ≡ rotated k part.old }
{
    if k < part.len() {
        let len = part.len();
        part[0..k].reverse();
        part[k..len].reverse();
        part.reverse();
    }
}
