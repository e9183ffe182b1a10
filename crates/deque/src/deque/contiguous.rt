// Making a ring contiguous: its items are moved so that they lie in one part of the slots.
#![tactic(auto, using(crate::proofs::Gathered::slots_stay, crate::proofs::Gathered::contents_gathered))]

ghost use Rattle.std.specs.Prelude.{◌≡◌, ℕ, ◌+◌, ◌-◌, ◌<◌, ◌≤◌, length, drop};
ghost use Rattle.std.proofs.Math.Seq.{paste};
ghost use Rattle.fault.specs.Refusing.{unless, answer};
ghost use Rattle.deque.specs.Ring.{contents, at, new_front};
ghost use Rattle.deque.specs.Refusals as refusal;
ghost use Rattle.deque.specs.Moves as moves;
ghost use Rattle.deque.specs.Writes as writes;

use crate::deque::Deque;
use crate::rotation::rotate_left;
use fault::Fault;
use places::Places;

// Copies the slots from `from` up to `end` over those that begin at `to`. What lies there already is not written.
#[tactic(auto, using(lists::proofs::Pastes::paste_self))]
fn move_slots<T: Copy>(slots: &mut [T], from: usize, end: usize, to: usize)
    requires forward { from ≤ end }
    requires within { end ≤ length slots.old }
    requires fits { to + (end - from) ≤ length slots.old }
    ensures { slots.new ≡ paste slots.old to (drop from slots.old) (end - from) }
{
    if from != to {
        slots.copy_within(from..end, to);
    }
}

impl Deque {
    // Puts the two parts of a ring that goes round the end of its slots together, and answers where they begin.
    // That the slots suffice the ring's type does not say, since they are lent to each call, by a rule of the product.
    fn gather<T: Copy>(&self, slots: &mut [T]) -> usize
        requires wrapped { self.now.places.capacity - self.now.places.len < self.now.places.front }
        requires enough { self.now.places.capacity ≤ length slots.old }
        ensures front { result ≡ new_front self.now.places }
        ensures slots { slots.new ≡ writes.make_contiguous self.now.places slots.old }
    {
        let Places {
            capacity,
            front,
            len,
        } = self.places;
        let front_len = capacity - front;
        let back_len = len - front_len;
        let free = capacity - len;
        if front_len <= free {
            move_slots(slots, 0, back_len, front_len);
            move_slots(slots, front, capacity, 0);
            0
        } else if back_len <= free {
            move_slots(slots, front, capacity, back_len);
            move_slots(slots, 0, back_len, len);
            back_len
        } else if back_len < front_len {
            move_slots(slots, 0, back_len, free);
            rotate_left(&mut slots[free..capacity], back_len);
            free
        } else {
            move_slots(slots, front, capacity, back_len);
            rotate_left(&mut slots[0..len], back_len);
            0
        }
    }

    // Leaves the list in one part of the slots, and answers where it begins and how long it is.
    pub fn make_contiguous<T: Copy>(&mut self, slots: &mut [T]) -> Result<(usize, usize), Fault>
        ensures result { let p = self.old.places in let xs = slots.old in result ≡ answer (at p xs refusal.slots) (new_front p, p.len) }
        ensures places { let p = self.old.places in let xs = slots.old in self.new.places ≡ unless (at p xs refusal.slots) p (moves.make_contiguous p) }
        ensures slots { let p = self.old.places in let xs = slots.old in slots.new ≡ unless (at p xs refusal.slots) xs (writes.make_contiguous p xs) }
        ensures list { let p = self.old.places in let xs = slots.old in contents self.new.places slots.new ≡ contents p xs }
    {
        self.lent(slots)?;
        let free = self.places.capacity - self.places.len;
        if self.places.front <= free {
            return Ok((self.places.front, self.places.len));
        }
        self.places.front = self.gather(slots);
        Ok((self.places.front, self.places.len))
    }
}
