// Histories of a ring, and what a listener hears of them.
ghost use Rattle.std.specs.Prelude.{◌≡◌};

use bins::{Bin, Pair, Tray};
use calls::{Answer, Call, Edit, NotDone, Read, Release, Request, Test, Value};
use either::Either;
use fault::Fault;
use history::{Listener, run};
use places::End;
use predicates::{AddByte, AtLeast};
use std::test::Fail;

// Keeps the answers, and of slices the items.
#[derive(Drop)]
struct Heard {
    answers: Vec<Answer<u8>>,
    items: Vec<u8>,
}

impl Listener<u8> for Heard {
    ghost State = { Unit {0} };

    ghost state = { λ _. tt };

    ghost rule = { λ s _. s };

    fn hear(&mut self, answer: Answer<u8>)
        ensures { self.new.items.items ≡ self.old.items.items }
    {
        let _ = self.answers.push(answer);
    }

    fn hear_slices(&mut self, _front: usize, first: &[u8], second: &[u8]) {
        let _ = self.items.extend_from_slice(first);
        let _ = self.items.extend_from_slice(second);
    }
}

fn lent<'a>(slots: usize, call: Call<'a, u8>) -> Request<'a, u8> {
    Request { lent: slots, call }
}

// Three slots, one tray, and adding 10: pushes, a change, a making contiguous, a truncation, and a closing that is refused once.
#[test]
fn a_small_history(rt: HostRuntime) -> Result<(), Fail> {
    let mut slots = [0u8; 3];
    let mut bins = [Tray::new(rt.alloc(), 8)?];
    let mut rest = Tray::new(rt.alloc(), 1)?;
    let mut predicates = [AddByte { by: 10 }];
    let mut heard = Heard {
        answers: Vec::new(rt.alloc()),
        items: Vec::new(rt.alloc()),
    };
    let requests = [
        lent(3, Call::Edit(Edit::Push(End::Back, 5))),
        lent(3, Call::Edit(Edit::Push(End::Back, 250))),
        lent(3, Call::Edit(Edit::Push(End::Front, 9))),
        lent(3, Call::Edit(Edit::Push(End::Back, 7))),
        lent(
            3,
            Call::Test {
                test: Test::Change(2),
                predicate: 0,
            },
        ),
        lent(3, Call::Edit(Edit::MakeContiguous)),
        lent(3, Call::Edit(Edit::Pop(End::Front))),
        lent(
            3,
            Call::Release {
                release: Release::Truncate(1),
                bin: 0,
            },
        ),
        lent(2, Call::Close { bin: 0 }),
        lent(3, Call::Close { bin: 0 }),
    ];
    let stage = run(
        &requests,
        &mut slots,
        &mut bins,
        &mut predicates,
        &mut heard,
    );
    let left = stage.end(&slots, &mut rest).unwrap();
    let wanted: [Answer<u8>; 10] = [
        Ok(Value::Done),
        Ok(Value::Done),
        Ok(Value::Done),
        Err(NotDone::Refused(Fault::Full(3), Some(7))),
        Ok(Value::Verdict(Some(false))),
        Ok(Value::Contiguous(0, 3)),
        Ok(Value::Item(Some(9))),
        Ok(Value::Number(1)),
        Err(NotDone::Refused(Fault::TooFewSlots(2), None)),
        Ok(Value::Number(1)),
    ];
    assert_eq!(rt; heard.answers.as_slice(), wanted.as_slice());
    assert_eq!(rt; left, 0);
    assert_eq!(rt; bins[0].kept(), [4u8, 5].as_slice());
    assert_eq!(rt; bins[0].count(), 2);
    Ok(())
}

// A drain in a history: it offers its own calls and no others, and nothing can be asked once it is finished.
#[test]
fn a_drained_history(rt: HostRuntime) -> Result<(), Fail> {
    let mut slots = [0u8; 4];
    let mut bins = [Tray::new(rt.alloc(), 8)?];
    let mut rest = Tray::new(rt.alloc(), 1)?;
    let mut predicates = [AtLeast { floor: 0 }];
    let mut heard = Heard {
        answers: Vec::new(rt.alloc()),
        items: Vec::new(rt.alloc()),
    };
    let requests = [
        lent(4, Call::Edit(Edit::Load(&[1, 2, 3, 4]))),
        lent(3, Call::IntoIter),
        lent(4, Call::IntoIter),
        lent(4, Call::Edit(Edit::Push(End::Back, 5))),
        lent(4, Call::Edit(Edit::Pop(End::Back))),
        lent(4, Call::Edit(Edit::Pop(End::Front))),
        lent(4, Call::Read(Read::Len)),
        lent(4, Call::Close { bin: 1 }),
        lent(4, Call::Close { bin: 0 }),
        lent(4, Call::Read(Read::Len)),
    ];
    let stage = run(
        &requests,
        &mut slots,
        &mut bins,
        &mut predicates,
        &mut heard,
    );
    let left = stage.end(&slots, &mut rest).unwrap();
    let wanted: [Answer<u8>; 10] = [
        Ok(Value::Done),
        Err(NotDone::Refused(Fault::TooFewSlots(3), None)),
        Ok(Value::Done),
        Err(NotDone::Unmade),
        Ok(Value::Item(Some(4))),
        Ok(Value::Item(Some(1))),
        Ok(Value::Number(2)),
        Err(NotDone::Unmade),
        Ok(Value::Number(2)),
        Err(NotDone::Unmade),
    ];
    assert_eq!(rt; heard.answers.as_slice(), wanted.as_slice());
    assert_eq!(rt; left, 0);
    assert_eq!(rt; bins[0].kept(), [2u8, 3].as_slice());
    Ok(())
}

// A tray and a pair in one history, and two kinds of predicates.
#[test]
fn several_kinds(rt: HostRuntime) -> Result<(), Fail> {
    let mut slots = [0u8; 5];
    let first = Tray::new(rt.alloc(), 1)?;
    let second = Tray::new(rt.alloc(), 8)?;
    let tray = Tray::new(rt.alloc(), 8)?;
    let mut bins = [Either::Left(tray), Either::Right(Pair { first, second })];
    let mut rest = Tray::new(rt.alloc(), 8)?;
    let mut predicates = [
        Either::Left(AtLeast { floor: 5 }),
        Either::Right(AddByte { by: 250 }),
    ];
    let mut heard = Heard {
        answers: Vec::new(rt.alloc()),
        items: Vec::new(rt.alloc()),
    };
    let requests = [
        lent(5, Call::Edit(Edit::Load(&[9, 1, 7, 2, 8]))),
        lent(
            5,
            Call::Retain {
                predicate: 0,
                bin: 1,
            },
        ),
        lent(
            5,
            Call::Test {
                test: Test::PopIf(End::Front),
                predicate: 1,
            },
        ),
        lent(5, Call::Read(Read::Slices)),
        lent(
            5,
            Call::Release {
                release: Release::Clear,
                bin: 0,
            },
        ),
    ];
    let stage = run(
        &requests,
        &mut slots,
        &mut bins,
        &mut predicates,
        &mut heard,
    );
    let left = stage.end(&slots, &mut rest).unwrap();
    let counts = (bins[0].count(), bins[1].count());
    let read = (bins[0].read(0), bins[1].read(1));
    let wanted: [Answer<u8>; 4] = [
        Ok(Value::Done),
        Ok(Value::Number(2)),
        Ok(Value::Item(None)),
        Ok(Value::Number(3)),
    ];
    assert_eq!(rt; heard.answers.as_slice(), wanted.as_slice());
    assert_eq!(rt; heard.items.as_slice(), [3u8, 7, 8].as_slice());
    assert_eq!(rt; left, 0);
    assert_eq!(rt; counts, (3, 2));
    assert_eq!(rt;
        read,
        (Either::Left(Some(3)), Either::Right((None, Some(1))))
    );
    Ok(())
}
