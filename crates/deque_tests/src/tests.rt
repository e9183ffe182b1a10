ghost use Rattle.std.specs.Prelude.{◌≤◌, length};

use bins::{Bin, Pair, Tray};
use deque::{CloseToken, Deque};
use fault::{Fault, Returned};
use std::test::Fail;

// Ends a ring that has all its slots. An `unwrap` in its place is not proved where there are 1,048,576 of them: the check runs out of stack.
pub(crate) fn close(ring: Deque, token: CloseToken, slots: &[u8], bin: &mut Tray<u8>) -> usize
    requires { ring.places.capacity ≤ length slots.now }
{
    match ring.close(token, slots, bin) {
        Ok(binned) => binned,
        Err(_) => unreachable(),
    }
}

#[test]
fn no_slots(rt: HostRuntime) -> Result<(), Fail> {
    let mut bin = Tray::new(rt.alloc(), 4)?;
    let mut slots = [0u8; 0];
    let (mut ring, token) = Deque::new(&slots);
    let places = ring.places();
    let pushed_back = ring.push_back(&mut slots, 5);
    let pushed_front = ring.push_front(&mut slots, 6);
    let popped_front = ring.pop_front(&slots);
    let popped_back = ring.pop_back(&slots);
    let closed = close(ring, token, &slots, &mut bin);
    assert_eq!(rt; places.capacity(), 0);
    assert!(rt; places.is_empty() && places.is_full());
    assert_eq!(rt;
        pushed_back,
        Err(Returned {
            fault: Fault::Full(0),
            given: 5,
        })
    );
    assert_eq!(rt;
        pushed_front,
        Err(Returned {
            fault: Fault::Full(0),
            given: 6,
        })
    );
    assert_eq!(rt; popped_front, Ok(None));
    assert_eq!(rt; popped_back, Ok(None));
    assert_eq!(rt; closed, 0);
    assert_eq!(rt; bin.count(), 0);
    Ok(())
}

#[test]
fn one_slot(rt: HostRuntime) -> Result<(), Fail> {
    let mut bin = Tray::new(rt.alloc(), 4)?;
    let mut slots = [0u8; 1];
    let (mut ring, token) = Deque::new(&slots);
    let pushed = ring.push_front(&mut slots, 7);
    let again = ring.push_back(&mut slots, 8);
    let popped = ring.pop_front(&slots);
    let front = ring.places().front();
    let last = ring.push_back(&mut slots, 9);
    let closed = close(ring, token, &slots, &mut bin);
    assert_eq!(rt; pushed, Ok(()));
    assert_eq!(rt;
        again,
        Err(Returned {
            fault: Fault::Full(1),
            given: 8,
        })
    );
    assert_eq!(rt; popped, Ok(Some(7)));
    assert_eq!(rt; front, 0);
    assert_eq!(rt; last, Ok(()));
    assert_eq!(rt; closed, 1);
    assert_eq!(rt; bin.read(0), Some(9));
    Ok(())
}

#[test]
fn most_slots_and_one_more(rt: HostRuntime) -> Result<(), Fail> {
    let mut bin = Tray::new(rt.alloc(), 4)?;
    let mut slots = vec![in rt.alloc(); 0u8; 1_048_577]?;
    let (mut ring, token) = Deque::new(&slots);
    let made = ring.places();
    let pushed = ring.push_front(&mut slots, 3);
    let front = ring.places().front();
    let added = ring.push_back(&mut slots, 4);
    let closed = close(ring, token, &slots, &mut bin);
    assert_eq!(rt; made.capacity(), 1_048_576);
    assert_eq!(rt; pushed, Ok(()));
    assert_eq!(rt; front, 1_048_575);
    assert_eq!(rt; added, Ok(()));
    assert_eq!(rt; slots.get(1_048_575).copied(), Some(3));
    assert_eq!(rt; slots.get(1_048_576).copied(), Some(0));
    assert_eq!(rt; slots.get(0).copied(), Some(4));
    assert_eq!(rt; closed, 2);
    Ok(())
}

#[test]
fn as_many_slots_as_there_may_be(rt: HostRuntime) -> Result<(), Fail> {
    let mut bin = Tray::new(rt.alloc(), 1)?;
    let mut slots = vec![in rt.alloc(); 0u8; 1_048_576]?;
    let items = vec![in rt.alloc(); 5u8; 1_048_576]?;
    let (mut ring, token) = Deque::new(&slots);
    let loaded = ring.load(&mut slots, &items);
    let full = ring.is_full(&slots);
    let more = ring.push_back(&mut slots, 6);
    let closed = close(ring, token, &slots, &mut bin);
    assert_eq!(rt; loaded, Ok(()));
    assert_eq!(rt; full, Ok(true));
    assert_eq!(rt;
        more,
        Err(Returned {
            fault: Fault::Full(1_048_576),
            given: 6,
        })
    );
    assert_eq!(rt; closed, 1_048_576);
    assert_eq!(rt; bin.count(), 1_048_576);
    Ok(())
}

// Calls of each kind, of a ring of four slots that is lent three of them.
#[test]
fn too_few_slots(rt: HostRuntime) -> Result<(), Fail> {
    let mut bin = Tray::new(rt.alloc(), 4)?;
    let slots = [1u8, 2, 3, 4];
    let (mut ring, token) = Deque::new(&slots);
    let mut few = [9u8; 3];
    let short = Fault::TooFewSlots(3);
    let pushed = ring.push_back(&mut few, 5);
    let popped = ring.pop_front(&few);
    let loaded = ring.load(&mut few, &[1, 2]);
    let swapped = ring.swap(&mut few, 0, 0);
    let removed = ring.swap_remove_front(&mut few, 0);
    let truncated = ring.truncate(&few, 0, &mut bin);
    let cleared = ring.clear(&few, &mut bin);
    let len = ring.len(&few);
    let capacity = ring.capacity(&few);
    let item = ring.get(&few, 0);
    let sliced = ring.as_slices(&few).is_ok();
    let walked = ring.iter(&few).is_ok();
    let places = ring.places();
    let closed = close(ring, token, &slots, &mut bin);
    assert_eq!(rt;
        pushed,
        Err(Returned {
            fault: short,
            given: 5,
        })
    );
    assert_eq!(rt; popped, Err(short));
    assert_eq!(rt; loaded, Err(short));
    assert_eq!(rt; swapped, Err(short));
    assert_eq!(rt; removed, Err(short));
    assert_eq!(rt; truncated, Err(short));
    assert_eq!(rt; cleared, Err(short));
    assert_eq!(rt; len, Err(short));
    assert_eq!(rt; capacity, Err(short));
    assert_eq!(rt; item, Err(short));
    assert!(rt; !sliced && !walked);
    assert!(rt; places.is_empty() && places.front() == 0);
    assert_eq!(rt; few, [9u8; 3]);
    assert_eq!(rt; closed, 0);
    assert_eq!(rt; bin.count(), 0);
    Ok(())
}

// A closing that is lent too few slots gives the ring and the token back, and they can still be used.
#[test]
fn closing_again(rt: HostRuntime) -> Result<(), Fail> {
    let mut bin = Tray::new(rt.alloc(), 4)?;
    let mut slots = [0u8; 2];
    let (mut ring, token) = Deque::new(&slots);
    let pushed = ring.push_back(&mut slots, 5);
    let few = [0u8; 1];
    let (fault, closed) = match ring.close(token, &few, &mut bin) {
        Ok(_) => (None, 0),
        Err(
            Returned {
                fault,
                given: (ring, token),
            },
        ) => (Some(fault), close(ring, token, &slots, &mut bin)),
    };
    assert_eq!(rt; pushed, Ok(()));
    assert_eq!(rt; fault, Some(Fault::TooFewSlots(1)));
    assert_eq!(rt; closed, 1);
    assert_eq!(rt; bin.count(), 1);
    Ok(())
}

// A pair sends each item to both of its bins, and the first says how many.
#[test]
fn a_pair_of_trays(rt: HostRuntime) -> Result<(), Fail> {
    let first = Tray::new(rt.alloc(), 1)?;
    let second = Tray::new(rt.alloc(), 8)?;
    let mut rest = Tray::new(rt.alloc(), 8)?;
    let mut pair = Pair { first, second };
    let mut slots = [0u8; 3];
    let (mut ring, token) = Deque::new(&slots);
    let loaded = ring.load(&mut slots, &[5, 6, 7]);
    let truncated = ring.truncate(&slots, 1, &mut pair);
    let closed = close(ring, token, &slots, &mut rest);
    assert_eq!(rt; loaded, Ok(()));
    assert_eq!(rt; truncated, Ok(2));
    assert_eq!(rt; closed, 1);
    assert_eq!(rt; pair.count(), 2);
    assert_eq!(rt; pair.first.kept(), [6u8].as_slice());
    assert_eq!(rt; pair.second.kept(), [6u8, 7].as_slice());
    assert_eq!(rt; pair.read(1), (None, Some(7)));
    Ok(())
}
