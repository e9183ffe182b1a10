// Any list of requests, put to a ring one after another.
ghost use Rattle.std.specs.Prelude.{◌≡◌, ◌≤◌, map, length, fold};
ghost use Rattle.calls.specs.Law as law;
ghost use Rattle.calls.specs.RingAt.{step};
ghost use Rattle.history.specs.Answering.{heard, all_heard};
ghost use Rattle.history.specs.Calling.{called_at};
ghost use Rattle.history.specs.Standing.{places_of, moment_of, lent_end};

use crate::drains::{into_iter, len, next};
use crate::edits::{edit, release, retain, test};
use crate::listener::Listener;
use crate::reads::read;
use crate::stage::Stage;
use bins::Bin;
use calls::{Call, Edit, NotDone, Read, Request};
use deque::Deque;
use predicates::Predicate;

// How many of the slots a call is lent: as many as it asks for where those are fewer than the capacity, else all.
fn lent_part(lent: usize, capacity: usize, all: usize) -> usize
    ensures value { result ≡ lent_end lent capacity all }
    ensures within { result ≤ all }
{
    if lent < capacity { lent.min(all) } else { all }
}

// Makes a call of what the history is at, on the slots that it is lent.
fn call<T: Copy, B: Bin<T>, P: Predicate<T>, L: Listener<T>>(
    stage: Stage,
    call: &Call<'_, T>,
    slots: &mut [T],
    bins: &mut [B],
    predicates: &mut [P],
    listener: &mut L,
) -> Stage
    ensures moment { let h = called_at B.Bin P.Predicate stage slots.old bins.old predicates.old call.now in moment_of B.Bin P.Predicate result slots.new bins.new predicates.new ≡ h.after }
    ensures told { let h = called_at B.Bin P.Predicate stage slots.old bins.old predicates.old call.now in L.Listener.state listener.new ≡ fold L.Listener.rule (L.Listener.state listener.old) (heard h.answer) }
{
    match (stage, call) {
        (stage, Call::Close { bin }) => {
            let (stage, answer) = stage.close(*bin, slots, bins);
            listener.hear(answer);
            stage
        }
        (Stage::Ring(ring, token), Call::IntoIter) => {
            let (stage, answer) = into_iter(ring, token, slots);
            listener.hear(answer);
            stage
        }
        (Stage::Ring(ring, token), Call::Read(what)) => {
            read(&ring, what, slots, listener);
            Stage::Ring(ring, token)
        }
        (Stage::Ring(mut ring, token), Call::Edit(what)) => {
            listener.hear(edit(&mut ring, what, slots));
            Stage::Ring(ring, token)
        }
        (
            Stage::Ring(mut ring, token),
            Call::Test {
                test: what,
                predicate,
            },
        ) => {
            listener.hear(test(&mut ring, *what, *predicate, slots, predicates));
            Stage::Ring(ring, token)
        }
        (Stage::Ring(mut ring, token), Call::Release { release: what, bin }) => {
            listener.hear(release(&mut ring, *what, *bin, slots, bins));
            Stage::Ring(ring, token)
        }
        (Stage::Ring(mut ring, token), Call::Retain { predicate, bin }) => {
            listener.hear(retain(&mut ring, *predicate, *bin, slots, predicates, bins));
            Stage::Ring(ring, token)
        }
        (Stage::Drain(mut drain, token), Call::Edit(Edit::Pop(end))) => {
            listener.hear(next(&mut drain, slots, *end));
            Stage::Drain(drain, token)
        }
        (Stage::Drain(drain, token), Call::Read(Read::Len)) => {
            listener.hear(len(&drain, slots));
            Stage::Drain(drain, token)
        }
        (stage, _) => {
            listener.hear(Err(NotDone::Unmade));
            stage
        }
    }
}

// Puts one request. That the slots suffice no stage says, since they are lent. A struct of the four borrows would be made anew here, for a part of the slots, and need a clause for each that it is the same borrow.
fn put<T: Copy, B: Bin<T>, P: Predicate<T>, L: Listener<T>>(
    stage: Stage,
    request: &Request<'_, T>,
    slots: &mut [T],
    bins: &mut [B],
    predicates: &mut [P],
    listener: &mut L,
) -> Stage
    requires { (places_of stage).capacity ≤ length slots.old }
    ensures moment { let m = moment_of B.Bin P.Predicate stage slots.old bins.old predicates.old in moment_of B.Bin P.Predicate result slots.new bins.new predicates.new ≡ (step B.Bin.rule P.Predicate.rule m request.now).after }
    ensures told { let m = moment_of B.Bin P.Predicate stage slots.old bins.old predicates.old in L.Listener.state listener.new ≡ fold L.Listener.rule (L.Listener.state listener.old) (heard (step B.Bin.rule P.Predicate.rule m request.now).answer) }
{
    let end = lent_part(request.lent, stage.capacity(), slots.len());
    call(
        stage,
        &request.call,
        &mut slots[..end],
        bins,
        predicates,
        listener,
    )
}

// Makes a ring over the slots, puts the requests to it one after another, and answers what is left of it.
pub fn run<T: Copy, B: Bin<T>, P: Predicate<T>, L: Listener<T>>(
    requests: &[Request<'_, T>],
    slots: &mut [T],
    bins: &mut [B],
    predicates: &mut [P],
    listener: &mut L,
) -> Stage
    ensures moment { let m = law.making B.Bin.rule B.Bin.count P.Predicate.rule slots.old (map B.Bin.state bins.old) (map P.Predicate.state predicates.old) in moment_of B.Bin P.Predicate result slots.new bins.new predicates.new ≡ law.after B.Bin.rule B.Bin.count P.Predicate.rule m requests.now }
    ensures told { let m = law.making B.Bin.rule B.Bin.count P.Predicate.rule slots.old (map B.Bin.state bins.old) (map P.Predicate.state predicates.old) in L.Listener.state listener.new ≡ fold L.Listener.rule (L.Listener.state listener.old) (all_heard (law.answers B.Bin.rule B.Bin.count P.Predicate.rule m requests.now)) }
    ensures law { law.AtEveryMoment B.Bin.rule B.Bin.count P.Predicate.rule slots.old (map B.Bin.state bins.old) (map P.Predicate.state predicates.old) requests.now }
    ensures room { (places_of result).capacity ≤ length slots.new }
{
    let (ring, token) = Deque::new(slots);
    let mut stage = Stage::Ring(ring, token);
    for request in requests {
        stage = put(stage, request, slots, bins, predicates, listener);
    }
    stage
}
