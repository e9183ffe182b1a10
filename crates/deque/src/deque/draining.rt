// A ring that is only emptied.
ghost use Rattle.std.specs.Prelude.{◌≡◌, length, fold};
ghost use Rattle.fault.specs.Refusing.{unless, answer, answer_or_return};
ghost use Rattle.deque.specs.Ring.{contents, at};
ghost use Rattle.deque.specs.Refusals as refusal;
ghost use Rattle.deque.specs.Plain as plain;
ghost use Rattle.deque.specs.Moves as moves;

use crate::deque::{CloseToken, Deque};
use bins::Bin;
use fault::{Fault, Returned};
use places::Places;

// A ring moved: items leave it at either end, until `finish`.
pub struct IntoIter {
    pub(crate) ring: Deque,
}

impl Deque {
    // Moves the ring into a drain; its token stays with the caller. A refusal gives the ring back.
    pub fn into_iter<T>(self, slots: &[T]) -> Result<IntoIter, Returned<Deque>>
        ensures { result ≡ answer_or_return (at self.places slots.now refusal.slots) self (record { ring = self }) }
    {
        // no `map_err`: it would move the ring, which goes into the drain
        if let Err(fault) = self.lent(slots) {
            return Err(Returned { fault, given: self });
        }
        Ok(IntoIter { ring: self })
    }
}

impl IntoIter {
    // The numbers of the ring, for who holds no slots.
    pub fn places(&self) -> Places
        ensures { result ≡ self.now.ring.places }
    {
        self.ring.places
    }

    // How many items are left.
    pub fn len<T>(&self, slots: &[T]) -> Result<usize, Fault>
        ensures { let p = self.now.ring.places in let xs = slots.now in result ≡ answer (at p xs refusal.slots) (length (contents p xs)) }
    {
        self.ring.len(slots)
    }

    // The first item that is left, or none. At the two ends two functions, as the ring's pops are, under the source's names.
    pub fn next<T: Copy>(&mut self, slots: &[T]) -> Result<Option<T>, Fault>
        ensures result { let p = self.old.ring.places in let xs = slots.now in result ≡ answer (at p xs refusal.slots) (plain.pop_front (contents p xs)).answer }
        ensures places { let p = self.old.ring.places in let xs = slots.now in self.new.ring.places ≡ unless (at p xs refusal.slots) p (moves.pop_front p) }
        ensures list { let p = self.old.ring.places in let xs = slots.now in contents self.new.ring.places xs ≡ unless (at p xs refusal.slots) (contents p xs) (plain.pop_front (contents p xs)).list }
    {
        self.ring.pop_front(slots)
    }

    // The last item that is left, or none.
    pub fn next_back<T: Copy>(&mut self, slots: &[T]) -> Result<Option<T>, Fault>
        ensures result { let p = self.old.ring.places in let xs = slots.now in result ≡ answer (at p xs refusal.slots) (plain.pop_back (contents p xs)).answer }
        ensures places { let p = self.old.ring.places in let xs = slots.now in self.new.ring.places ≡ unless (at p xs refusal.slots) p (moves.pop_back p) }
        ensures list { let p = self.old.ring.places in let xs = slots.now in contents self.new.ring.places xs ≡ unless (at p xs refusal.slots) (contents p xs) (plain.pop_back (contents p xs)).list }
    {
        self.ring.pop_back(slots)
    }

    // Ends the drain and the token: bins what is left, in list order, and answers how many. A refusal gives both back.
    pub fn finish<T: Copy, B: Bin<T>>(
        self,
        token: CloseToken,
        slots: &[T],
        bin: &mut B,
    ) -> Result<usize, Returned<(IntoIter, CloseToken)>>
        ensures result { let p = self.ring.places in let xs = slots.now in result ≡ answer_or_return (at p xs refusal.slots) (self, token) (plain.clear (contents p xs)).answer }
        ensures bin { let p = self.ring.places in let xs = slots.now in let s = B.state bin.old in B.state bin.new ≡ unless (at p xs refusal.slots) s (fold B.rule s (plain.clear (contents p xs)).binned) }
    {
        let IntoIter { ring } = self;
        // by a closure that takes it apart, since `Returned` has no `map`
        ring.close(token, slots, bin).map_err(|Returned {
            fault,
            given: (ring, token),
        }| Returned {
            fault,
            given: (IntoIter { ring }, token),
        })
    }
}
