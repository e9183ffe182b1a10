// Showing an item to a predicate: changing it in place, and popping it if the answer is yes.
#![tactic(auto, using(crate::proofs::Contents::length_contents, predicates::proofs::Shows::length_stored, predicates::proofs::Shows::yes_answered))]

ghost use Rattle.std.specs.Prelude.{◌≡◌, ◌-◌};
ghost use Rattle.fault.specs.Refusing.{unless, answer};
ghost use Rattle.predicates.specs.Showing.{answered, yes_to, left, moved, stored};
ghost use Rattle.deque.specs.Ring.{contents, at};
ghost use Rattle.deque.specs.Refusals as refusal;
ghost use Rattle.deque.specs.Plain as plain;
ghost use Rattle.deque.specs.Moves as moves;
ghost use Rattle.deque.specs.Writes as writes;

use crate::deque::Deque;
use fault::Fault;
use predicates::Predicate;

impl Deque {
    // Shows item i, stores it as left, and answers what the predicate said; none where there is no such item.
    pub fn change<T: Copy, P: Predicate<T>>(
        &self,
        slots: &mut [T],
        i: usize,
        predicate: &mut P,
    ) -> Result<Option<bool>, Fault>
        ensures result { let p = self.now.places in let xs = slots.old in let s = P.state predicate.old in result ≡ answer (at p xs refusal.slots) (plain.change P.rule s i (contents p xs)).answer }
        ensures slots { let p = self.now.places in let xs = slots.old in let s = P.state predicate.old in slots.new ≡ unless (at p xs refusal.slots) xs (writes.store (left P.rule s (plain.get i (contents p xs))) i p xs) }
        ensures list { let p = self.now.places in let xs = slots.old in let s = P.state predicate.old in contents p slots.new ≡ unless (at p xs refusal.slots) (contents p xs) (plain.change P.rule s i (contents p xs)).list }
        ensures predicate { let p = self.now.places in let xs = slots.old in let s = P.state predicate.old in P.state predicate.new ≡ unless (at p xs refusal.slots) s (moved P.rule s (plain.get i (contents p xs))) }
    {
        self.lent(slots)?;
        if i >= self.places.len {
            return Ok(None);
        }
        let at = self.slot(i);
        Ok(Some(predicate.show(&mut slots[at])))
    }

    // Shows the front item and stores it as left; a yes pops it. Two functions, as the pops are: one with an `End` would choose the item by it, and then the pop.
    pub fn pop_front_if<T: Copy, P: Predicate<T>>(
        &mut self,
        slots: &mut [T],
        predicate: &mut P,
    ) -> Result<Option<T>, Fault>
        ensures result { let p = self.old.places in let xs = slots.old in let s = P.state predicate.old in result ≡ answer (at p xs refusal.slots) (plain.pop_front_if P.rule s (contents p xs)).answer }
        ensures places { let p = self.old.places in let xs = slots.old in let s = P.state predicate.old in self.new.places ≡ unless (at p xs refusal.slots) p (moves.pop_front_if (yes_to P.rule s (plain.front (contents p xs))) p) }
        ensures slots { let p = self.old.places in let xs = slots.old in let s = P.state predicate.old in slots.new ≡ unless (at p xs refusal.slots) xs (writes.store (left P.rule s (plain.front (contents p xs))) 0 p xs) }
        ensures list { let p = self.old.places in let xs = slots.old in let s = P.state predicate.old in contents self.new.places slots.new ≡ unless (at p xs refusal.slots) (contents p xs) (plain.pop_front_if P.rule s (contents p xs)).list }
        ensures predicate { let p = self.old.places in let xs = slots.old in let s = P.state predicate.old in P.state predicate.new ≡ unless (at p xs refusal.slots) s (moved P.rule s (plain.front (contents p xs))) }
    {
        let yes = self.change(slots, 0, predicate)?.unwrap_or(false);
        if yes { self.pop_front(slots) } else { Ok(None) }
    }

    // Shows the back item and stores it as left; a yes pops it.
    pub fn pop_back_if<T: Copy, P: Predicate<T>>(
        &mut self,
        slots: &mut [T],
        predicate: &mut P,
    ) -> Result<Option<T>, Fault>
        ensures result { let p = self.old.places in let xs = slots.old in let s = P.state predicate.old in result ≡ answer (at p xs refusal.slots) (plain.pop_back_if P.rule s (contents p xs)).answer }
        ensures places { let p = self.old.places in let xs = slots.old in let s = P.state predicate.old in self.new.places ≡ unless (at p xs refusal.slots) p (moves.pop_back_if (yes_to P.rule s (plain.back (contents p xs))) p) }
        ensures slots { let p = self.old.places in let xs = slots.old in let s = P.state predicate.old in slots.new ≡ unless (at p xs refusal.slots) xs (writes.store (left P.rule s (plain.back (contents p xs))) (p.len - 1) p xs) }
        ensures list { let p = self.old.places in let xs = slots.old in let s = P.state predicate.old in contents self.new.places slots.new ≡ unless (at p xs refusal.slots) (contents p xs) (plain.pop_back_if P.rule s (contents p xs)).list }
        ensures predicate { let p = self.old.places in let xs = slots.old in let s = P.state predicate.old in P.state predicate.new ≡ unless (at p xs refusal.slots) s (moved P.rule s (plain.back (contents p xs))) }
    {
        let last = self.places.len.saturating_sub(1);
        let yes = self.change(slots, last, predicate)?.unwrap_or(false);
        if yes { self.pop_back(slots) } else { Ok(None) }
    }
}
