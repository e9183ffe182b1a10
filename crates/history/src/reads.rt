// The calls that read a ring.
ghost use Rattle.std.specs.Prelude.{◌≡◌, [], fold};
ghost use Rattle.calls.specs.Answers.{walked};
ghost use Rattle.calls.specs.Calls.{ring as at_ring};
ghost use Rattle.calls.specs.PlainList.{popped};
ghost use Rattle.calls.specs.PlainList as plain_list;
ghost use Rattle.calls.specs.declared.call.Call.TheVariants as call_is;
ghost use Rattle.walk.specs.Walks.{ahead};
ghost use Rattle.history.specs.Answering.{heard, told_of};
ghost use Rattle.history.specs.Calling.{called, no_bin, no_predicate};

use crate::listener::Listener;
use calls::{End, NotDone, Read, Value};
use deque::Deque;
use walk::Iter;

// What a read came to, before it is told. No derive: nothing compares it, and a walk moves on as it is taken from.
enum Reading<'a, T> {
    Value(Value<T>),
    // where the first slice begins, and both
    Slices(usize, &'a [T], &'a [T]),
    // the walk, and the ends from which it takes its items
    Walk(Iter<'a, T>, &'a [End]),
}

// The next item from an end.
fn take<T: Copy>(iter: &mut Iter<'_, T>, end: End) -> Option<T>
    ensures item { result ≡ (popped end (ahead iter.old)).answer }
    ensures rest { ahead iter.new ≡ (popped end (ahead iter.old)).list }
{
    match end {
        End::Front => iter.next().copied(),
        End::Back => iter.next_back().copied(),
    }
}

// Takes an item from each of these ends in turn.
fn hear_walk<T: Copy, L: Listener<T>>(mut iter: Iter<'_, T>, ends: &[End], listener: &mut L)
    ensures { L.state listener.new ≡ fold L.rule (L.state listener.old) (heard (walked (plain_list.walk ends.now (ahead iter.entry)))) }
{
    for end in ends {
        listener.hear(Ok(Value::Item(take(&mut iter, *end))));
    }
}

// What the ring shows to a read.
fn look<'a, T: Copy>(
    ring: &Deque,
    read: &Read<'a>,
    slots: &'a [T],
) -> Result<Reading<'a, T>, NotDone<T>>
    ensures { told_of result ≡ (called no_bin no_predicate at_ring ring.now.places slots.now [] [] (call_is.Read read.now)).answer }
{
    Ok(match read {
        Read::Get(index) => Reading::Value(Value::Item(ring.get(slots, *index)?)),
        Read::AtEnd(End::Front) => Reading::Value(Value::Item(ring.front(slots)?)),
        Read::AtEnd(End::Back) => Reading::Value(Value::Item(ring.back(slots)?)),
        Read::Len => Reading::Value(Value::Number(ring.len(slots)?)),
        Read::Capacity => Reading::Value(Value::Number(ring.capacity(slots)?)),
        Read::IsEmpty => Reading::Value(Value::Flag(ring.is_empty(slots)?)),
        Read::IsFull => Reading::Value(Value::Flag(ring.is_full(slots)?)),
        Read::Slices => {
            let (first, second) = ring.as_slices(slots)?;
            Reading::Slices(ring.places().front(), first, second)
        }
        Read::Walk(ends) => Reading::Walk(ring.iter(slots)?, ends),
    })
}

pub(crate) fn read<T: Copy, L: Listener<T>>(
    ring: &Deque,
    read: &Read<'_>,
    slots: &[T],
    listener: &mut L,
)
    ensures { let h = called no_bin no_predicate at_ring ring.now.places slots.now [] [] (call_is.Read read.now) in L.state listener.new ≡ fold L.rule (L.state listener.old) (heard h.answer) }
{
    match look(ring, read, slots) {
        Ok(Reading::Value(value)) => listener.hear(Ok(value)),
        Ok(Reading::Slices(front, first, second)) => listener.hear_slices(front, first, second),
        Ok(Reading::Walk(iter, ends)) => hear_walk(iter, ends, listener),
        Err(not_done) => listener.hear(Err(not_done)),
    }
}
