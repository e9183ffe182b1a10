// Exchanging items.
#![tactic(auto, using(crate::proofs::Contents::length_contents, crate::proofs::Edited::contents_exchanged))]

ghost use Rattle.std.specs.Prelude.{◌≡◌, ℕ, ◌-◌, length};
ghost use Rattle.fault.specs.Refusing.{unless, answer};
ghost use Rattle.deque.specs.Ring.{contents, at};
ghost use Rattle.deque.specs.Refusals as refusal;
ghost use Rattle.deque.specs.Plain as plain;
ghost use Rattle.deque.specs.Moves as moves;
ghost use Rattle.deque.specs.Writes as writes;

use crate::deque::Deque;
use fault::Fault;

impl Deque {
    // Exchanges items i and j. The places stay, so the ring is only read.
    pub fn swap<T: Copy>(&self, slots: &mut [T], i: usize, j: usize) -> Result<(), Fault>
        ensures result { let p = self.now.places in let xs = slots.old in result ≡ answer (at p xs (refusal.swap i j)) (plain.swap i j (contents p xs)).answer }
        ensures slots { let p = self.now.places in let xs = slots.old in slots.new ≡ unless (at p xs (refusal.swap i j)) xs (writes.swap i j p xs) }
        ensures list { let p = self.now.places in let xs = slots.old in contents p slots.new ≡ unless (at p xs (refusal.swap i j)) (contents p xs) (plain.swap i j (contents p xs)).list }
    {
        self.lent(slots)?;
        if i >= self.places.len {
            return Err(Fault::OutOfRange(i));
        }
        if j >= self.places.len {
            return Err(Fault::OutOfRange(j));
        }
        let a = self.slot(i);
        let b = self.slot(j);
        slots.swap(a, b);
        Ok(())
    }

    // Exchanges item i with the front one, and pops the front. Two functions, as the pops are: one with an `End` would choose the other item by it, and then the pop.
    pub fn swap_remove_front<T: Copy>(
        &mut self,
        slots: &mut [T],
        i: usize,
    ) -> Result<Option<T>, Fault>
        ensures result { let p = self.old.places in let xs = slots.old in result ≡ answer (at p xs refusal.slots) (plain.swap_remove_front i (contents p xs)).answer }
        ensures places { let p = self.old.places in let xs = slots.old in self.new.places ≡ unless (at p xs refusal.slots) p (moves.swap_remove_front i p) }
        ensures slots { let p = self.old.places in let xs = slots.old in slots.new ≡ unless (at p xs refusal.slots) xs (writes.swap_remove_front i p xs) }
        ensures list { let p = self.old.places in let xs = slots.old in contents self.new.places slots.new ≡ unless (at p xs refusal.slots) (contents p xs) (plain.swap_remove_front i (contents p xs)).list }
    {
        self.lent(slots)?;
        if i >= self.places.len {
            return Ok(None);
        }
        self.swap(slots, i, 0)?;
        self.pop_front(slots)
    }

    // Exchanges item i with the back one, and pops the back.
    pub fn swap_remove_back<T: Copy>(
        &mut self,
        slots: &mut [T],
        i: usize,
    ) -> Result<Option<T>, Fault>
        ensures result { let p = self.old.places in let xs = slots.old in result ≡ answer (at p xs refusal.slots) (plain.swap_remove_back i (contents p xs)).answer }
        ensures places { let p = self.old.places in let xs = slots.old in self.new.places ≡ unless (at p xs refusal.slots) p (moves.swap_remove_back i p) }
        ensures slots { let p = self.old.places in let xs = slots.old in slots.new ≡ unless (at p xs refusal.slots) xs (writes.swap_remove_back i p xs) }
        ensures list { let p = self.old.places in let xs = slots.old in contents self.new.places slots.new ≡ unless (at p xs refusal.slots) (contents p xs) (plain.swap_remove_back i (contents p xs)).list }
    {
        self.lent(slots)?;
        if i >= self.places.len {
            return Ok(None);
        }
        let last = self.places.len - 1;
        self.swap(slots, i, last)?;
        self.pop_back(slots)
    }
}
