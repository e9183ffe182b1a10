// Loading a ring.
#![tactic(auto, using(crate::proofs::Edited::contents_load))]

ghost use Rattle.std.specs.Prelude.{◌≡◌, length};
ghost use Rattle.fault.specs.Refusing.{unless, answer};
ghost use Rattle.deque.specs.Ring.{contents, at};
ghost use Rattle.deque.specs.Refusals as refusal;
ghost use Rattle.deque.specs.Plain as plain;
ghost use Rattle.deque.specs.Moves as moves;
ghost use Rattle.deque.specs.Writes as writes;

use crate::deque::Deque;
use fault::Fault;

impl Deque {
    // Fills an empty ring, from slot 0 on.
    pub fn load<T: Copy>(&mut self, slots: &mut [T], items: &[T]) -> Result<(), Fault>
        ensures result { let p = self.old.places in let xs = slots.old in let ys = items.now in result ≡ answer (at p xs (refusal.load (length ys))) (plain.load ys (contents p xs)).answer }
        ensures places { let p = self.old.places in let xs = slots.old in let ys = items.now in self.new.places ≡ unless (at p xs (refusal.load (length ys))) p (moves.load (length ys) p) }
        ensures slots { let p = self.old.places in let xs = slots.old in let ys = items.now in slots.new ≡ unless (at p xs (refusal.load (length ys))) xs (writes.load ys xs) }
        ensures list { let p = self.old.places in let xs = slots.old in let ys = items.now in contents self.new.places slots.new ≡ unless (at p xs (refusal.load (length ys))) (contents p xs) (plain.load ys (contents p xs)).list }
    {
        self.lent(slots)?;
        if self.places.len > 0 {
            return Err(Fault::NotEmpty(self.places.len));
        }
        if items.len() > self.places.capacity {
            return Err(Fault::TooMany(items.len()));
        }
        let count = items.len();
        slots[0..count].copy_from_slice(items);
        self.places.front = 0;
        self.places.len = count;
        Ok(())
    }
}
