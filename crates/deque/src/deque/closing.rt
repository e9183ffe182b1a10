// Letting items go into a bin, and closing the ring.
#![tactic(auto, using(crate::proofs::Contents::length_contents, crate::proofs::Contents::contents_none, crate::proofs::Contents::contents_truncate, crate::proofs::Contents::drop_contents_all, crate::proofs::Contents::take_contents_all))]

ghost use Rattle.std.specs.Prelude.{◌≡◌, ◌++◌, drop, fold};
ghost use Rattle.fault.specs.Refusing.{unless, answer, answer_or_return};
ghost use Rattle.deque.specs.Ring.{contents, at};
ghost use Rattle.deque.specs.Refusals as refusal;
ghost use Rattle.deque.specs.Plain as plain;
ghost use Rattle.deque.specs.Moves as moves;

use crate::deque::{CloseToken, Deque};
use bins::{Bin, send_all};
use fault::{Fault, Returned};

// Bins the items of two slices, one after the other, but for the first `kept` of them.
#[tactic(auto, using(lists::proofs::Prefixes::fold_both))]
fn bin_from<T: Copy, B: Bin<T>>(first: &[T], second: &[T], kept: usize, bin: &mut B)
    ensures { B.state bin.new ≡ fold B.rule (B.state bin.old) (drop kept (first.now ++ second.now)) }
{
    let low = kept.min(first.len());
    let high = (kept - low).min(second.len());
    send_all(&first[low..], bin);
    send_all(&second[high..], bin);
}

impl Deque {
    // Keeps the first `len` items and bins the others, in list order; answers how many.
    pub fn truncate<T: Copy, B: Bin<T>>(
        &mut self,
        slots: &[T],
        len: usize,
        bin: &mut B,
    ) -> Result<usize, Fault>
        ensures result { let p = self.old.places in let xs = slots.now in result ≡ answer (at p xs refusal.slots) (plain.truncate len (contents p xs)).answer }
        ensures places { let p = self.old.places in let xs = slots.now in self.new.places ≡ unless (at p xs refusal.slots) p (moves.truncate len p) }
        ensures list { let p = self.old.places in let xs = slots.now in contents self.new.places xs ≡ unless (at p xs refusal.slots) (contents p xs) (plain.truncate len (contents p xs)).list }
        ensures bin { let p = self.old.places in let xs = slots.now in let s = B.state bin.old in B.state bin.new ≡ unless (at p xs refusal.slots) s (fold B.rule s (plain.truncate len (contents p xs)).binned) }
    {
        let (first, second) = self.as_slices(slots)?;
        if len >= self.places.len {
            return Ok(0);
        }
        bin_from(first, second, len, bin);
        let binned = self.places.len - len;
        self.places.len = len;
        Ok(binned)
    }

    // Bins all items, in list order, and begins again at slot 0; answers how many.
    pub fn clear<T: Copy, B: Bin<T>>(&mut self, slots: &[T], bin: &mut B) -> Result<usize, Fault>
        ensures result { let p = self.old.places in let xs = slots.now in result ≡ answer (at p xs refusal.slots) (plain.clear (contents p xs)).answer }
        ensures places { let p = self.old.places in let xs = slots.now in self.new.places ≡ unless (at p xs refusal.slots) p (moves.clear p) }
        ensures list { let p = self.old.places in let xs = slots.now in contents self.new.places xs ≡ unless (at p xs refusal.slots) (contents p xs) (plain.clear (contents p xs)).list }
        ensures bin { let p = self.old.places in let xs = slots.now in let s = B.state bin.old in B.state bin.new ≡ unless (at p xs refusal.slots) s (fold B.rule s (plain.clear (contents p xs)).binned) }
    {
        let binned = self.truncate(slots, 0, bin)?;
        self.places.front = 0;
        Ok(binned)
    }

    // Ends the ring and its token: bins all items, in list order, and answers how many. A refusal gives both back.
    pub fn close<T: Copy, B: Bin<T>>(
        self,
        token: CloseToken,
        slots: &[T],
        bin: &mut B,
    ) -> Result<usize, Returned<(Deque, CloseToken)>>
        ensures result { let p = self.places in let xs = slots.now in result ≡ answer_or_return (at p xs refusal.slots) (self, token) (plain.clear (contents p xs)).answer }
        ensures bin { let p = self.places in let xs = slots.now in let s = B.state bin.old in B.state bin.new ≡ unless (at p xs refusal.slots) s (fold B.rule s (plain.clear (contents p xs)).binned) }
    {
        match self.as_slices(slots) {
            Ok((first, second)) => {
                bin_from(first, second, 0, bin);
                let Deque { places } = self;
                let CloseToken { sealed: () } = token;
                Ok(places.len)
            }
            // no `map_err`: it would move the ring, which the other arm takes apart
            Err(fault) => Err(Returned {
                fault,
                given: (self, token),
            }),
        }
    }
}
