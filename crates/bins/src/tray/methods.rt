// How a tray is made, and how it takes an item.
ghost use Rattle.std.specs.Prelude.{◌≡◌, ℕ, ◌+◌, ◌%◌, ◌^◌, IfOk};
ghost use Rattle.std.specs.List.{slice_get};
ghost use Rattle.bins.specs.Trays.{TrayState, tray_state, trayed, empty_tray, tray_of};
ghost use Rattle.std.proofs.Common.{rules};

use crate::bin::Bin;
use crate::sending::send_all;
use crate::tray::Tray;
use std::alloc::{AllocError, Global};

impl<T: Copy> Tray<T> {
    // A fresh tray of so many slots, or an error where there is no memory for them.
    pub fn new(heap: Global, slots: usize) -> Result<Tray<T>, AllocError>
        ensures { IfOk result (λ t. tray_state t ≡ empty_tray slots) }
    {
        let kept = Vec::with_capacity(heap, slots)?;
        Ok(Tray {
            slots,
            kept,
            count: 0,
        })
    }

    // A tray of so many slots that has taken these items, and no other.
    pub fn holding(heap: Global, slots: usize, items: &[T]) -> Result<Tray<T>, AllocError>
        ensures { IfOk result (λ t. tray_state t ≡ tray_of slots items.now) }
    {
        let mut tray = Tray::new(heap, slots)?;
        send_all(items, &mut tray);
        Ok(tray)
    }

    // The items that it kept, in the order in which it took them.
    pub fn kept(&self) -> &[T]
        ensures { result.now ≡ (tray_state self.now).kept }
    {
        self.kept.as_slice()
    }
}

impl<T: Copy> Bin<T> for Tray<T> {
    type Reading = Option<T>;

    ghost State = { TrayState T };

    ghost state = { tray_state };

    ghost rule = { trayed };

    ghost count = { λ s. s.count % 2 ^ 64 };

    ghost fresh = { λ s. s ≡ empty_tray s.slots };

    ghost reading = { λ s i. slice_get s.kept i };

    ghost counts = { Prim.search rules };

    ghost fits = { Prim.search rules };

    ghost starts = { Prim.search rules };

    fn take(&mut self, item: T) {
        if self.kept.len() < self.slots {
            self.kept.push_reserved(item);
        }
        self.count = self.count.wrapping_add(1);
    }

    fn read(&self, at: usize) -> Option<T> {
        self.kept.get(at).copied()
    }

    fn count(&self) -> u64 {
        self.count
    }
}
