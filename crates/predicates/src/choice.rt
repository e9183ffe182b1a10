// One of two predicates, as a predicate.
ghost use Rattle.either.specs.Either.{map_either};
ghost use Rattle.either.specs.declared.Either.{Either};
ghost use Rattle.predicates.specs.Choice.{shown_by};

use crate::predicate::Predicate;
use either::Either;

impl<T, A: Predicate<T>, B: Predicate<T>> Predicate<T> for Either<A, B> {
    ghost State = { Either A.Predicate.State B.Predicate.State };

    ghost state = { map_either A.Predicate.state B.Predicate.state };

    ghost rule = { shown_by A.Predicate.rule B.Predicate.rule };

    fn show(&mut self, item: &mut T) -> bool {
        match self {
            Either::Left(first) => first.show(item),
            Either::Right(second) => second.show(item),
        }
    }
}
