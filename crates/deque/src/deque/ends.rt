// Making a ring, and pushing and popping at its ends.
#![tactic(auto, using(crate::proofs::Contents::contents_none, crate::proofs::Contents::nth_contents_front, crate::proofs::Contents::contents_pop_front, crate::proofs::Contents::nth_contents_back, crate::proofs::Contents::contents_pop_back, crate::proofs::Contents::contents_push_back, crate::proofs::Contents::contents_push_front))]

ghost use Rattle.std.specs.Prelude.{◌≡◌, ℕ, ◌+◌, ◌-◌, ◌<◌, ◌≤◌, [], length};
ghost use Rattle.fault.specs.Refusing.{unless, answer, answer_or_return};
ghost use Rattle.deque.specs.Ring.{contents, slot, before, at};
ghost use Rattle.deque.specs.Refusals as refusal;
ghost use Rattle.deque.specs.Plain as plain;
ghost use Rattle.deque.specs.Moves as moves;
ghost use Rattle.deque.specs.Writes as writes;

use crate::deque::{CloseToken, Deque};
use fault::{Fault, Returned};
use places::Places;

// The slots that a ring uses at most, however many it is given.
pub const MAX_CAPACITY: usize = 1_048_576;

impl Deque {
    // An empty ring over the first slots, and the token that its closing takes.
    pub fn new<T>(slots: &[T]) -> (Deque, CloseToken)
        ensures places { result.0.places ≡ moves.fresh (length slots.now) }
        ensures list { contents result.0.places slots.now ≡ [] }
    {
        let capacity = slots.len().min(MAX_CAPACITY);
        let places = Places {
            capacity,
            front: 0,
            len: 0,
        };
        (Deque { places }, CloseToken { sealed: () })
    }

    // Refuses fewer slots than the capacity.
    pub(crate) fn lent<T>(&self, slots: &[T]) -> Result<(), Fault>
        ensures { result ≡ answer (at self.now.places slots.now refusal.slots) tt }
    {
        if slots.len() < self.places.capacity {
            return Err(Fault::TooFewSlots(slots.len()));
        }
        Ok(())
    }

    // Refuses a push.
    fn room<T>(&self, slots: &[T]) -> Result<(), Fault>
        ensures { result ≡ answer (at self.now.places slots.now refusal.push) tt }
    {
        self.lent(slots)?;
        if self.places.len == self.places.capacity {
            return Err(Fault::Full(self.places.len));
        }
        Ok(())
    }

    // The slot of item i: the sum of two numbers that are at most the capacity is wrapped by one subtraction.
    pub(crate) fn slot(&self, i: usize) -> usize
        requires some { 0 < self.now.places.capacity }
        requires within { i ≤ self.now.places.capacity }
        ensures { result ≡ slot self.now.places i }
    {
        let at = self.places.front + i;
        if at < self.places.capacity {
            at
        } else {
            at - self.places.capacity
        }
    }

    // The slot before the front.
    fn slot_before(&self) -> usize
        requires { 0 < self.now.places.capacity }
        ensures { result ≡ before self.now.places }
    {
        let from = self.places.front;
        if from == 0 {
            self.places.capacity - 1
        } else {
            from - 1
        }
    }

    // The calls at the front and at the back stay two functions each, under the source's names. What they share is `room`, `slot`
    // and `change`; one function with an `End` behind each pair would choose by it whatever else there is, and be no plainer.
    pub fn push_back<T: Copy>(&mut self, slots: &mut [T], item: T) -> Result<(), Returned<T>>
        ensures result { let p = self.old.places in let xs = slots.old in result ≡ answer_or_return (at p xs refusal.push) item (plain.push_back item (contents p xs)).answer }
        ensures places { let p = self.old.places in let xs = slots.old in self.new.places ≡ unless (at p xs refusal.push) p (moves.push_back p) }
        ensures slots { let p = self.old.places in let xs = slots.old in slots.new ≡ unless (at p xs refusal.push) xs (writes.push_back item p xs) }
        ensures list { let p = self.old.places in let xs = slots.old in contents self.new.places slots.new ≡ unless (at p xs refusal.push) (contents p xs) (plain.push_back item (contents p xs)).list }
    {
        self.room(slots)
            .map_err(|fault| Returned { fault, given: item })?;
        let at = self.slot(self.places.len);
        slots[at] = item;
        self.places.len += 1;
        Ok(())
    }

    pub fn push_front<T: Copy>(&mut self, slots: &mut [T], item: T) -> Result<(), Returned<T>>
        ensures result { let p = self.old.places in let xs = slots.old in result ≡ answer_or_return (at p xs refusal.push) item (plain.push_front item (contents p xs)).answer }
        ensures places { let p = self.old.places in let xs = slots.old in self.new.places ≡ unless (at p xs refusal.push) p (moves.push_front p) }
        ensures slots { let p = self.old.places in let xs = slots.old in slots.new ≡ unless (at p xs refusal.push) xs (writes.push_front item p xs) }
        ensures list { let p = self.old.places in let xs = slots.old in contents self.new.places slots.new ≡ unless (at p xs refusal.push) (contents p xs) (plain.push_front item (contents p xs)).list }
    {
        self.room(slots)
            .map_err(|fault| Returned { fault, given: item })?;
        let at = self.slot_before();
        slots[at] = item;
        self.places.front = at;
        self.places.len += 1;
        Ok(())
    }

    pub fn pop_front<T: Copy>(&mut self, slots: &[T]) -> Result<Option<T>, Fault>
        ensures result { let p = self.old.places in let xs = slots.now in result ≡ answer (at p xs refusal.slots) (plain.pop_front (contents p xs)).answer }
        ensures places { let p = self.old.places in let xs = slots.now in self.new.places ≡ unless (at p xs refusal.slots) p (moves.pop_front p) }
        ensures list { let p = self.old.places in let xs = slots.now in contents self.new.places xs ≡ unless (at p xs refusal.slots) (contents p xs) (plain.pop_front (contents p xs)).list }
    {
        self.lent(slots)?;
        if self.places.len == 0 {
            return Ok(None);
        }
        let item = slots[self.places.front];
        self.places.front = self.slot(1);
        self.places.len -= 1;
        Ok(Some(item))
    }

    pub fn pop_back<T: Copy>(&mut self, slots: &[T]) -> Result<Option<T>, Fault>
        ensures result { let p = self.old.places in let xs = slots.now in result ≡ answer (at p xs refusal.slots) (plain.pop_back (contents p xs)).answer }
        ensures places { let p = self.old.places in let xs = slots.now in self.new.places ≡ unless (at p xs refusal.slots) p (moves.pop_back p) }
        ensures list { let p = self.old.places in let xs = slots.now in contents self.new.places xs ≡ unless (at p xs refusal.slots) (contents p xs) (plain.pop_back (contents p xs)).list }
    {
        self.lent(slots)?;
        if self.places.len == 0 {
            return Ok(None);
        }
        let last = self.places.len - 1;
        let at = self.slot(last);
        self.places.len = last;
        Ok(Some(slots[at]))
    }
}
