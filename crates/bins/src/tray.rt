// A tray: it keeps the first items that it takes, as many as it has slots, and counts all.
ghost use Rattle.std.specs.Prelude.{◌≤◌, vec_len, vec_capacity};

mod methods;

// The memory for all slots is reserved at the making, so that taking cannot fail.
#[derive(Drop)]
pub struct Tray<T> {
    slots: usize,
    kept: Vec<T>,
    count: u64,
    ghost within: { vec_len kept ≤ slots },
    ghost reserved: { slots ≤ vec_capacity kept },
}
