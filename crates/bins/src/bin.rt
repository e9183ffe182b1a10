// What every bin is: a state, and a rule that says what taking an item makes of it.
ghost use Rattle.std.specs.Prelude.{◌≡◌, ℕ, ◌+◌, ◌%◌, ◌^◌, ◌<◌};

pub trait Bin<T> {
    // what a reading at a number answers
    type Reading;

    ghost State: { Type 0 };

    ghost state: { Self → State };

    ghost rule: { State → T → State };

    // how many items were taken, modulo 2^64
    ghost count: { State → ℕ };

    // the states of a bin that has taken nothing
    ghost fresh: { State → Type 0 };

    ghost reading: { State → ℕ → Self.Reading };

    fn take(&mut self, item: T)
        ensures { state self.new ≡ rule (state self.old) item };

    fn read(&self, at: usize) -> Self::Reading
        ensures { result ≡ reading (state self.now) at };

    fn count(&self) -> u64
        ensures { result ≡ count (state self.now) };

    // every take raises the count by exactly 1
    ghost counts: { (s : State) (x : T) → count (rule s x) ≡ (count s + 1) % (2 ^ 64) };

    ghost fits: { (s : State) → count s < 2 ^ 64 };

    ghost starts: { (s : State) → fresh s → count s ≡ 0 };
}
