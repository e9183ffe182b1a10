// Reading a ring.
#![tactic(auto, using(crate::proofs::Contents::length_contents, crate::proofs::Contents::nth_contents, crate::proofs::Contents::nth_contents_past))]

ghost use Rattle.std.specs.Prelude.{◌≡◌, ◌++◌, length, ◌==◌};
ghost use Rattle.std.specs.Result.{result_map_both};
ghost use Rattle.fault.specs.Refusing.{answer};
ghost use Rattle.deque.specs.Ring.{contents, slices, at};
ghost use Rattle.deque.specs.Refusals as refusal;
ghost use Rattle.deque.specs.Plain as plain;
ghost use Rattle.walk.specs.Walks.{ahead};

use crate::deque::Deque;
use fault::Fault;
use places::Places;
use walk::Iter;

impl Deque {
    // The ring's numbers, for who holds no slots.
    pub fn places(&self) -> Places
        ensures { result ≡ self.now.places }
    {
        self.places
    }

    pub fn len<T>(&self, slots: &[T]) -> Result<usize, Fault>
        ensures { let p = self.now.places in let xs = slots.now in result ≡ answer (at p xs refusal.slots) (length (contents p xs)) }
    {
        self.lent(slots)?;
        Ok(self.places.len)
    }

    pub fn capacity<T>(&self, slots: &[T]) -> Result<usize, Fault>
        ensures { let p = self.now.places in let xs = slots.now in result ≡ answer (at p xs refusal.slots) p.capacity }
    {
        self.lent(slots)?;
        Ok(self.places.capacity)
    }

    pub fn is_empty<T>(&self, slots: &[T]) -> Result<bool, Fault>
        ensures { let p = self.now.places in let xs = slots.now in result ≡ answer (at p xs refusal.slots) (length (contents p xs) == 0) }
    {
        self.lent(slots)?;
        Ok(self.places.is_empty())
    }

    pub fn is_full<T>(&self, slots: &[T]) -> Result<bool, Fault>
        ensures { let p = self.now.places in let xs = slots.now in result ≡ answer (at p xs refusal.slots) (length (contents p xs) == p.capacity) }
    {
        self.lent(slots)?;
        Ok(self.places.is_full())
    }

    // The item at i, or none.
    pub fn get<T: Copy>(&self, slots: &[T], i: usize) -> Result<Option<T>, Fault>
        ensures { let p = self.now.places in let xs = slots.now in result ≡ answer (at p xs refusal.slots) (plain.get i (contents p xs)) }
    {
        self.lent(slots)?;
        if i >= self.places.len {
            return Ok(None);
        }
        let at = self.slot(i);
        Ok(Some(slots[at]))
    }

    pub fn front<T: Copy>(&self, slots: &[T]) -> Result<Option<T>, Fault>
        ensures { let p = self.now.places in let xs = slots.now in result ≡ answer (at p xs refusal.slots) (plain.front (contents p xs)) }
    {
        self.get(slots, 0)
    }

    pub fn back<T: Copy>(&self, slots: &[T]) -> Result<Option<T>, Fault>
        ensures { let p = self.now.places in let xs = slots.now in result ≡ answer (at p xs refusal.slots) (plain.back (contents p xs)) }
    {
        self.get(slots, self.places.len.saturating_sub(1))
    }

    // The list in two parts of the slots: the first from the front slot on, the second from slot 0 on.
    #[tactic(auto, unfolding(crate::specs::Ring::contents))]
    pub fn as_slices<'a, T>(&self, slots: &'a [T]) -> Result<(&'a [T], &'a [T]), Fault>
        ensures parts { let p = self.now.places in let xs = slots.now in result_map_both (λ s. (s.0.now, s.1.now)) (λ f. f) result ≡ answer (at p xs refusal.slots) (slices p xs) }
        ensures list { let p = self.now.places in let xs = slots.now in result_map_both (λ s. s.0.now ++ s.1.now) (λ f. f) result ≡ answer (at p xs refusal.slots) (contents p xs) }
    {
        self.lent(slots)?;
        let places = self.places;
        let front = places.front;
        let high = places.len.min(places.capacity - front);
        let end = front + high;
        let low = places.len - high;
        Ok((&slots[front..end], &slots[0..low]))
    }

    // A walk over the ring's list.
    pub fn iter<'a, T>(&self, slots: &'a [T]) -> Result<Iter<'a, T>, Fault>
        ensures { let p = self.now.places in let xs = slots.now in result_map_both ahead (λ f. f) result ≡ answer (at p xs refusal.slots) (contents p xs) }
    {
        let (first, second) = self.as_slices(slots)?;
        Ok(Iter::over(first, second))
    }
}
