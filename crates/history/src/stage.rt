// What a history is at, and how that ends.
ghost use Rattle.std.specs.Prelude.{◌≡◌, [], length, map, fold};
ghost use Rattle.fault.specs.Refusing.{unless, answer_or_return};
ghost use Rattle.calls.specs.declared.call.Call.TheVariants as call_is;
ghost use Rattle.history.specs.Standing.{phase_of, places_of, left_in, end_refusal, ended_or_kept};
ghost use Rattle.history.specs.Calling.{left_with, called, no_predicate};

use bins::Bin;
use calls::{Answer, NotDone, Value};
use deque::{CloseToken, Deque, IntoIter};
use fault::Returned;

// A ring is neither copied nor compared, nor shown without its slots, and so neither is a stage.
pub enum Stage {
    Ring(Deque, CloseToken),
    Drain(IntoIter, CloseToken),
    Closed { capacity: usize },
}

impl Stage {
    pub(crate) fn capacity(&self) -> usize
        ensures { result ≡ (places_of self.now).capacity }
    {
        match self {
            Stage::Ring(ring, _) => ring.places().capacity(),
            Stage::Drain(drain, _) => drain.places().capacity(),
            Stage::Closed { capacity } => *capacity,
        }
    }

    fn end_or_return<T: Copy, B: Bin<T>>(
        self,
        slots: &[T],
        bin: &mut B,
    ) -> Result<usize, Returned<Stage>>
        ensures result { result ≡ answer_or_return (end_refusal self (length slots.now)) self (length (left_in self slots.now)) }
        ensures bin { let s = B.state bin.old in B.state bin.new ≡ unless (end_refusal self (length slots.now)) s (fold B.rule s (left_in self slots.now)) }
    {
        // by closures that take it apart, since `Returned` has no `map`; one function for both would be as long as they are
        match self {
            Stage::Ring(ring, token) => ring.close(token, slots, bin).map_err(|Returned {
                fault,
                given: (ring, token),
            }| Returned {
                fault,
                given: Stage::Ring(ring, token),
            }),
            Stage::Drain(drain, token) => drain.finish(token, slots, bin).map_err(|Returned {
                fault,
                given: (drain, token),
            }| Returned {
                fault,
                given: Stage::Drain(drain, token),
            }),
            Stage::Closed { capacity: _ } => Ok(0),
        }
    }

    // Closes the ring or finishes the drain, if it is open: bins what is left, in list order, and answers how many. A refusal gives all back.
    pub fn end<T: Copy, B: Bin<T>>(self, slots: &[T], bin: &mut B) -> Result<usize, Stage>
        ensures result { result ≡ ended_or_kept (end_refusal self (length slots.now)) self (length (left_in self slots.now)) }
        ensures bin { let s = B.state bin.old in B.state bin.new ≡ unless (end_refusal self (length slots.now)) s (fold B.rule s (left_in self slots.now)) }
    {
        self.end_or_return(slots, bin)
            .map_err(|returned| returned.given)
    }

    // The call that ends it, with the bin of this number.
    #[tactic(auto, using(crate::proofs::Lookups::lookups))]
    pub(crate) fn close<T: Copy, B: Bin<T>>(
        self,
        bin: usize,
        slots: &[T],
        bins: &mut [B],
    ) -> (Stage, Answer<T>)
        ensures { left_with (phase_of result.0) (places_of result.0) slots.now (map B.state bins.new) [] result.1 ≡ called B.rule no_predicate (phase_of self) (places_of self) slots.now (map B.state bins.old) [] (call_is.Close bin) }
    {
        // by index: after `get_mut` nothing is known of a slice's elements, and the clause is not proved
        if matches!(self, Stage::Closed { .. }) || bin >= bins.len() {
            return (self, Err(NotDone::Unmade));
        }
        let capacity = self.capacity();
        match self.end_or_return(slots, &mut bins[bin]) {
            Ok(binned) => (Stage::Closed { capacity }, Ok(Value::Number(binned))),
            // `?` would lose the stage, which goes back beside the error
            Err(returned) => (returned.given, Err(NotDone::from(returned.fault))),
        }
    }
}
