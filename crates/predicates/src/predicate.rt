// What every predicate is: a state, and a rule that says what a showing gives.
ghost use Rattle.std.specs.Prelude.{◌≡◌};
ghost use Rattle.predicates.specs.Showing.{Shown};

pub trait Predicate<T> {
    ghost State: { Type 0 };

    ghost state: { Self → State };

    // yes or no, the item after, and the state after
    ghost rule: { State → T → Shown State T };

    // Answers yes or no, and may change the item and itself. It refuses nothing.
    fn show(&mut self, item: &mut T) -> bool
        ensures answer { result ≡ (rule (state self.old) item.old).answer }
        ensures item { item.new ≡ (rule (state self.old) item.old).item }
        ensures state { state self.new ≡ (rule (state self.old) item.old).state };
}
