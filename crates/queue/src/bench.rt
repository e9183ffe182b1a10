// The ring of a script, and its calls.
ghost use Rattle.std.specs.Prelude.{◌≡◌, ◌≤◌, length, vec_len, vec_items};
ghost use Rattle.deque.specs.Ring.{contents};
ghost use Rattle.walk.specs.Walks.{ahead};

use bins::Tray;
use calls::{Answer, Value};
use deque::{CloseToken, Deque, MAX_CAPACITY};
use either::Either;
use places::{End, Places};
use predicates::{AddByte, AtLeast, Mask};
use script::{Command, Indexed, Plain, Test};
use std::alloc::{AllocError, Global};
use walk::Iter;

// How many items the bin lists; it counts all.
const TRAY: usize = 64;

// A ring over slots of its own, and the bin that it lets items go into.
pub(crate) struct Bench {
    ring: Deque,
    token: CloseToken,
    slots: Vec<u8>,
    bin: Tray<u8>,
    ghost enough: { ring.places.capacity ≤ vec_len slots },
}

fn predicate(test: &Test<Vec<bool>>) -> Either<AtLeast, Either<AddByte, Mask<'_>>> {
    match test {
        Test::AtLeast(floor) => Either::Left(AtLeast { floor: *floor }),
        Test::Adding(by) => Either::Right(Either::Left(AddByte { by: *by })),
        Test::Mask(flags) => Either::Right(Either::Right(Mask::new(flags.as_slice()))),
    }
}

impl Bench {
    pub(crate) fn new(heap: Global, capacity: usize) -> Result<Bench, AllocError> {
        let bin = Tray::new(heap, TRAY)?;
        let slots = vec![in heap; 0u8; capacity.min(MAX_CAPACITY)]?;
        let (ring, token) = Deque::new(slots.as_slice());
        Ok(Bench {
            ring,
            token,
            slots,
            bin,
        })
    }

    pub(crate) fn slots(&self) -> &[u8] {
        self.slots.as_slice()
    }

    pub(crate) fn places(&self) -> Places {
        self.ring.places()
    }

    // The list in its two parts. They cannot be refused: the slots are enough.
    pub(crate) fn slices(&self) -> (&[u8], &[u8]) {
        self.ring.as_slices(self.slots.as_slice()).unwrap()
    }

    // A walk over the list, which cannot be refused either.
    pub(crate) fn iter(&self) -> Iter<'_, u8>
        ensures { ahead result ≡ contents self.now.ring.places (vec_items self.now.slots) }
    {
        self.ring.iter(self.slots.as_slice()).unwrap()
    }

    fn plain(&mut self, call: Plain) -> Answer<u8>
        ensures { self.new.ring.places.capacity ≡ self.old.ring.places.capacity }
    {
        let slots = self.slots.as_mut_slice();
        match call {
            Plain::PopFront => Ok(Value::Item(self.ring.pop_front(slots)?)),
            Plain::PopBack => Ok(Value::Item(self.ring.pop_back(slots)?)),
            Plain::Front => Ok(Value::Item(self.ring.front(slots)?)),
            Plain::Back => Ok(Value::Item(self.ring.back(slots)?)),
            Plain::Len => Ok(Value::Number(self.ring.len(slots)?)),
            Plain::Capacity => Ok(Value::Number(self.ring.capacity(slots)?)),
            Plain::IsEmpty => Ok(Value::Flag(self.ring.is_empty(slots)?)),
            Plain::IsFull => Ok(Value::Flag(self.ring.is_full(slots)?)),
            Plain::MakeContiguous => {
                let (front, len) = self.ring.make_contiguous(slots)?;
                Ok(Value::Contiguous(front, len))
            }
            Plain::Clear => Ok(Value::Number(self.ring.clear(slots, &mut self.bin)?)),
            Plain::Slices | Plain::Iter | Plain::Close | Plain::Draw => Ok(Value::Done),
        }
    }

    fn indexed(&mut self, call: Indexed, i: usize) -> Answer<u8>
        ensures { self.new.ring.places.capacity ≡ self.old.ring.places.capacity }
    {
        let slots = self.slots.as_mut_slice();
        match call {
            Indexed::Get => Ok(Value::Item(self.ring.get(slots, i)?)),
            Indexed::Truncate => Ok(Value::Number(self.ring.truncate(slots, i, &mut self.bin)?)),
            Indexed::SwapRemoveFront => Ok(Value::Item(self.ring.swap_remove_front(slots, i)?)),
            Indexed::SwapRemoveBack => Ok(Value::Item(self.ring.swap_remove_back(slots, i)?)),
        }
    }

    // Carries out a call; those that only show something answer `ok`. The calls of a history are carried out elsewhere: their
    // predicates are named among those that are lent, and one dispatch for both would make each line a request first.
    pub(crate) fn perform(&mut self, command: &Command<Vec<u8>, Vec<bool>>) -> Answer<u8>
        ensures { self.new.ring.places.capacity ≡ self.old.ring.places.capacity }
    {
        let slots = self.slots.as_mut_slice();
        match command {
            Command::Nothing | Command::Make(_) => Ok(Value::Done),
            Command::Plain(call) => self.plain(*call),
            Command::Indexed(call, i) => self.indexed(*call, *i),
            Command::Push(End::Front, item) => {
                self.ring.push_front(slots, *item)?;
                Ok(Value::Done)
            }
            Command::Push(End::Back, item) => {
                self.ring.push_back(slots, *item)?;
                Ok(Value::Done)
            }
            Command::Swap(i, j) => {
                self.ring.swap(slots, *i, *j)?;
                Ok(Value::Done)
            }
            Command::Load(items) => {
                self.ring.load(slots, items.as_slice())?;
                Ok(Value::Done)
            }
            Command::Retain(test) => {
                let binned = self
                    .ring
                    .retain_mut(slots, &mut predicate(test), &mut self.bin)?;
                Ok(Value::Number(binned))
            }
            Command::PopIf(End::Front, test) => Ok(Value::Item(
                self.ring.pop_front_if(slots, &mut predicate(test))?,
            )),
            Command::PopIf(End::Back, test) => Ok(Value::Item(
                self.ring.pop_back_if(slots, &mut predicate(test))?,
            )),
            Command::Change(i, test) => Ok(Value::Verdict(
                self.ring.change(slots, *i, &mut predicate(test))?,
            )),
        }
    }

    // Ends the ring, which cannot be refused: its items go into the bin; answers how many there were, and the bin.
    pub(crate) fn close(self) -> (usize, Tray<u8>)
        ensures { result.0 ≡ length (contents self.ring.places (vec_items self.slots)) }
    {
        let Bench {
            ring,
            token,
            slots,
            bin,
        } = self;
        let mut bin = bin;
        let binned = ring.close(token, slots.as_slice(), &mut bin).unwrap();
        (binned, bin)
    }
}
