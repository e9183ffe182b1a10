// The ring and its token.
ghost use Rattle.deque.specs.Sound.{Sound};

use places::Places;

pub mod closing;
mod contiguous;
pub mod draining;
pub mod ends;
mod loading;
mod reads;
mod retaining;
mod swaps;
mod tested;

// A ring is its places; the items lie in slots that are lent to each call.
pub struct Deque {
    pub(crate) places: Places,
    ghost ok: { Sound places },
}

// Owed by whoever makes a ring, and spent by closing it: neither `Copy` nor `Drop`. Its private field keeps other crates from making one or taking one apart.
pub struct CloseToken {
    sealed: (),
}
