// The calls that edit a ring.
ghost use Rattle.std.specs.Prelude.{◌≡◌, [], map};
ghost use Rattle.calls.specs.Calls.{ring as at_ring};
ghost use Rattle.calls.specs.declared.call.Call.TheVariants as call_is;
ghost use Rattle.history.specs.Calling.{left_with, called, no_bin, no_predicate};

use bins::Bin;
use calls::{Answer, Edit, End, NotDone, Release, Test, Value};
use deque::Deque;
use predicates::Predicate;

pub(crate) fn edit<T: Copy>(ring: &mut Deque, edit: &Edit<'_, T>, slots: &mut [T]) -> Answer<T>
    ensures { left_with at_ring ring.new.places slots.new [] [] result ≡ called no_bin no_predicate at_ring ring.old.places slots.old [] [] (call_is.Edit edit.now) }
{
    match edit {
        Edit::Load(items) => {
            ring.load(slots, items)?;
            Ok(Value::Done)
        }
        Edit::Push(End::Front, x) => {
            ring.push_front(slots, *x)?;
            Ok(Value::Done)
        }
        Edit::Push(End::Back, x) => {
            ring.push_back(slots, *x)?;
            Ok(Value::Done)
        }
        Edit::Pop(End::Front) => Ok(Value::Item(ring.pop_front(slots)?)),
        Edit::Pop(End::Back) => Ok(Value::Item(ring.pop_back(slots)?)),
        Edit::Swap(i, j) => {
            ring.swap(slots, *i, *j)?;
            Ok(Value::Done)
        }
        Edit::SwapRemove(End::Front, index) => {
            Ok(Value::Item(ring.swap_remove_front(slots, *index)?))
        }
        Edit::SwapRemove(End::Back, index) => {
            Ok(Value::Item(ring.swap_remove_back(slots, *index)?))
        }
        Edit::MakeContiguous => {
            let (front, len) = ring.make_contiguous(slots)?;
            Ok(Value::Contiguous(front, len))
        }
    }
}

#[tactic(auto, using(crate::proofs::Lookups::lookups))]
pub(crate) fn test<T: Copy, P: Predicate<T>>(
    ring: &mut Deque,
    test: Test,
    predicate: usize,
    slots: &mut [T],
    predicates: &mut [P],
) -> Answer<T>
    ensures { left_with at_ring ring.new.places slots.new [] (map P.state predicates.new) result ≡ called no_bin P.rule at_ring ring.old.places slots.old [] (map P.state predicates.old) (call_is.Test test predicate) }
{
    // by index, here and below: after `get_mut` nothing is known of a slice's elements, and the clause is not proved
    if predicate >= predicates.len() {
        return Err(NotDone::Unmade);
    }
    let predicate = &mut predicates[predicate];
    match test {
        Test::PopIf(End::Front) => Ok(Value::Item(ring.pop_front_if(slots, predicate)?)),
        Test::PopIf(End::Back) => Ok(Value::Item(ring.pop_back_if(slots, predicate)?)),
        Test::Change(index) => Ok(Value::Verdict(ring.change(slots, index, predicate)?)),
    }
}

#[tactic(auto, using(crate::proofs::Lookups::lookups))]
pub(crate) fn release<T: Copy, B: Bin<T>>(
    ring: &mut Deque,
    release: Release,
    bin: usize,
    slots: &[T],
    bins: &mut [B],
) -> Answer<T>
    ensures { left_with at_ring ring.new.places slots.now (map B.state bins.new) [] result ≡ called B.rule no_predicate at_ring ring.old.places slots.now (map B.state bins.old) [] (call_is.Release release bin) }
{
    if bin >= bins.len() {
        return Err(NotDone::Unmade);
    }
    let bin = &mut bins[bin];
    match release {
        Release::Truncate(len) => Ok(Value::Number(ring.truncate(slots, len, bin)?)),
        Release::Clear => Ok(Value::Number(ring.clear(slots, bin)?)),
    }
}

#[tactic(auto, using(crate::proofs::Lookups::lookups))]
pub(crate) fn retain<T: Copy, P: Predicate<T>, B: Bin<T>>(
    ring: &mut Deque,
    predicate: usize,
    bin: usize,
    slots: &mut [T],
    predicates: &mut [P],
    bins: &mut [B],
) -> Answer<T>
    ensures { left_with at_ring ring.new.places slots.new (map B.Bin.state bins.new) (map P.Predicate.state predicates.new) result ≡ called B.Bin.rule P.Predicate.rule at_ring ring.old.places slots.old (map B.Bin.state bins.old) (map P.Predicate.state predicates.old) (call_is.Retain predicate bin) }
{
    if bin >= bins.len() || predicate >= predicates.len() {
        return Err(NotDone::Unmade);
    }
    let kept = ring.retain_mut(slots, &mut predicates[predicate], &mut bins[bin])?;
    Ok(Value::Number(kept))
}
