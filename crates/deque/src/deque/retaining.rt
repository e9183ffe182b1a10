// Keeping only the items that a predicate says yes to.
ghost use Rattle.std.specs.Prelude.{◌≡◌, ℕ, ◌≤◌, length, fold};
ghost use Rattle.fault.specs.Refusing.{unless, answer};
ghost use Rattle.predicates.specs.Showing.{showings, after};
ghost use Rattle.deque.specs.Ring.{contents, at};
ghost use Rattle.deque.specs.Sifting.{kept, rest};
ghost use Rattle.deque.specs.Refusals as refusal;
ghost use Rattle.deque.specs.Plain as plain;
ghost use Rattle.deque.specs.Moves as moves;
ghost use Rattle.deque.specs.Writes as writes;

use crate::deque::Deque;
use bins::Bin;
use fault::Fault;
use predicates::Predicate;

impl Deque {
    // Shows each item, in list order, stores it as left, brings those that got yes to the front, and answers how many they are.
    // That the slots suffice the ring's type does not say, since they are lent to each call, by a rule of the product.
    fn sift<T: Copy, P: Predicate<T>>(&self, slots: &mut [T], predicate: &mut P) -> usize
        requires { self.now.places.capacity ≤ length slots.old }
        ensures result { let ws = showings P.rule (P.state predicate.old) (contents self.now.places slots.old) in result ≡ length (kept ws) }
        ensures slots { let p = self.now.places in let xs = slots.old in let ws = showings P.rule (P.state predicate.old) (contents p xs) in slots.new ≡ writes.retain (kept ws) (rest ws) p xs }
        ensures predicate { let s = P.state predicate.old in P.state predicate.new ≡ after P.rule s (contents self.now.places slots.old) }
    {
        let len = self.places.len;
        let mut idx = 0;
        // as long as every answer is yes, the items stay where they are
        'leading: for cur in 0..len {
            let at = self.slot(cur);
            if !predicate.show(&mut slots[at]) {
                break;
            }
            idx += 1;
        }
        // on from the item after the first no, if there was one
        'others: for cur in len.min(idx + 1)..len {
            let at = self.slot(cur);
            let stays = predicate.show(&mut slots[at]);
            if stays {
                slots.swap(self.slot(idx), at);
                idx += 1;
            }
        }
        idx
    }

    // Keeps the items that the predicate says yes to, in their order, and bins the others; answers how many.
    pub fn retain_mut<T: Copy, P: Predicate<T>, B: Bin<T>>(
        &mut self,
        slots: &mut [T],
        predicate: &mut P,
        bin: &mut B,
    ) -> Result<usize, Fault>
        ensures result { let p = self.old.places in let xs = slots.old in let s = P.Predicate.state predicate.old in result ≡ answer (at p xs refusal.slots) (plain.retain P.Predicate.rule s (contents p xs)).answer }
        ensures places { let p = self.old.places in let xs = slots.old in let s = P.Predicate.state predicate.old in self.new.places ≡ unless (at p xs refusal.slots) p (moves.retain (length (plain.retain P.Predicate.rule s (contents p xs)).list) p) }
        ensures slots { let p = self.old.places in let xs = slots.old in let s = P.Predicate.state predicate.old in let e = plain.retain P.Predicate.rule s (contents p xs) in slots.new ≡ unless (at p xs refusal.slots) xs (writes.retain e.list e.binned p xs) }
        ensures list { let p = self.old.places in let xs = slots.old in let s = P.Predicate.state predicate.old in contents self.new.places slots.new ≡ unless (at p xs refusal.slots) (contents p xs) (plain.retain P.Predicate.rule s (contents p xs)).list }
        ensures predicate { let p = self.old.places in let xs = slots.old in let s = P.Predicate.state predicate.old in P.Predicate.state predicate.new ≡ unless (at p xs refusal.slots) s (after P.Predicate.rule s (contents p xs)) }
        ensures bin { let p = self.old.places in let xs = slots.old in let s = P.Predicate.state predicate.old in let b = B.Bin.state bin.old in B.Bin.state bin.new ≡ unless (at p xs refusal.slots) b (fold B.Bin.rule b (plain.retain P.Predicate.rule s (contents p xs)).binned) }
    {
        self.lent(slots)?;
        let keeps = self.sift(slots, predicate);
        self.truncate(slots, keeps, bin)
    }
}
