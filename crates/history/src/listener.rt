// Who hears what a history answers.
ghost use Rattle.std.specs.Prelude.{◌≡◌, ℕ};
ghost use Rattle.calls.specs.Answers.{Heard, said, slices};

use calls::Answer;

// What it is told moves its state by its rule.
pub trait Listener<T> {
    ghost State: { Type 0 };

    ghost state: { Self → State };

    ghost rule: { State → Heard T → State };

    fn hear(&mut self, answer: Answer<T>)
        ensures { state self.new ≡ rule (state self.old) (said answer) };

    // Two slices, and the slot where the first begins.
    fn hear_slices(&mut self, front: usize, first: &[T], second: &[T])
        ensures { state self.new ≡ rule (state self.old) (slices front first.now second.now) };
}
