// A ring that was moved into a drain.
use bins::Tray;
use deque::Deque;
use fault::{Fault, Returned};
use std::test::Fail;

// Six slots, front 4, with the list 1 2 3 4: 1 and 4 leave at the ends, and the end bins 2 and 3.
#[test]
fn from_both_ends(rt: HostRuntime) -> Result<(), Fail> {
    let mut bin = Tray::new(rt.alloc(), 4)?;
    let mut slots = [0u8; 6];
    let (mut ring, token) = Deque::new(&slots);
    let second = ring.push_front(&mut slots, 2);
    let first = ring.push_front(&mut slots, 1);
    let third = ring.push_back(&mut slots, 3);
    let fourth = ring.push_back(&mut slots, 4);
    let mut drain = ring.into_iter(&slots).unwrap();
    let front = drain.places().front();
    let next = drain.next(&slots);
    let back = drain.next_back(&slots);
    let left = drain.len(&slots);
    let binned = drain.finish(token, &slots, &mut bin).unwrap();
    assert!(rt; first.is_ok() && second.is_ok() && third.is_ok() && fourth.is_ok());
    assert_eq!(rt; front, 4);
    assert_eq!(rt; next, Ok(Some(1)));
    assert_eq!(rt; back, Ok(Some(4)));
    assert_eq!(rt; left, Ok(2));
    assert_eq!(rt; binned, 2);
    assert_eq!(rt; bin.kept(), [2u8, 3].as_slice());
    Ok(())
}

// A move and an end that are lent too few slots give all back, and it can still be used.
#[test]
fn refused_and_used_again(rt: HostRuntime) -> Result<(), Fail> {
    let mut bin = Tray::new(rt.alloc(), 4)?;
    let mut slots = [0u8; 2];
    let few = [0u8; 1];
    let (mut ring, token) = Deque::new(&slots);
    let pushed = ring.push_back(&mut slots, 5);
    let (fault, drain) = match ring.into_iter(&few) {
        Ok(drain) => (None, drain),
        Err(Returned { fault, given }) => (Some(fault), given.into_iter(&slots).unwrap()),
    };
    let (again, binned) = match drain.finish(token, &few, &mut bin) {
        Ok(binned) => (None, binned),
        Err(
            Returned {
                fault,
                given: (drain, token),
            },
        ) => (Some(fault), drain.finish(token, &slots, &mut bin).unwrap()),
    };
    assert!(rt; pushed.is_ok());
    assert_eq!(rt; fault, Some(Fault::TooFewSlots(1)));
    assert_eq!(rt; again, Some(Fault::TooFewSlots(1)));
    assert_eq!(rt; binned, 1);
    assert_eq!(rt; bin.kept(), [5u8].as_slice());
    Ok(())
}
