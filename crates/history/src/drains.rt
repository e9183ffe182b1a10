// The call that moves a ring into a drain, and the calls of a drain.
ghost use Rattle.std.specs.Prelude.{◌≡◌, []};
ghost use Rattle.calls.specs.Calls.{ring as at_ring, drain as at_drain};
ghost use Rattle.calls.specs.declared.call.Call.TheVariants as call_is;
ghost use Rattle.calls.specs.declared.call.Edit.TheVariants as edit_is;
ghost use Rattle.calls.specs.declared.call.Read.TheVariants as read_is;
ghost use Rattle.history.specs.Calling.{left_with, called, no_bin, no_predicate};
ghost use Rattle.history.specs.Standing.{phase_of, places_of};

use crate::stage::Stage;
use calls::{Answer, End, NotDone, Value};
use deque::{CloseToken, Deque, IntoIter};

pub(crate) fn into_iter<T: Copy>(ring: Deque, token: CloseToken, slots: &[T]) -> (Stage, Answer<T>)
    ensures { left_with (phase_of result.0) (places_of result.0) slots.now [] [] result.1 ≡ called no_bin no_predicate at_ring ring.places slots.now [] [] call_is.IntoIter }
{
    match ring.into_iter(slots) {
        Ok(drain) => (Stage::Drain(drain, token), Ok(Value::Done)),
        // `?` would lose the stage, which goes back beside the error
        Err(returned) => (
            Stage::Ring(returned.given, token),
            Err(NotDone::from(returned.fault)),
        ),
    }
}

// The next item from an end.
pub(crate) fn next<T: Copy>(drain: &mut IntoIter, slots: &[T], end: End) -> Answer<T>
    ensures { left_with at_drain drain.new.ring.places slots.now [] [] result ≡ called no_bin no_predicate at_drain drain.old.ring.places slots.now [] [] (call_is.Edit (edit_is.Pop end)) }
{
    match end {
        End::Front => Ok(Value::Item(drain.next(slots)?)),
        End::Back => Ok(Value::Item(drain.next_back(slots)?)),
    }
}

pub(crate) fn len<T: Copy>(drain: &IntoIter, slots: &[T]) -> Answer<T>
    ensures { left_with at_drain drain.now.ring.places slots.now [] [] result ≡ called no_bin no_predicate at_drain drain.now.ring.places slots.now [] [] (call_is.Read read_is.Len) }
{
    Ok(Value::Number(drain.len(slots)?))
}
