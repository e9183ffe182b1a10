// One of two bins, as a bin.
ghost use Rattle.std.specs.Prelude.{ℕ};
ghost use Rattle.either.specs.Either.{either as of_either, map_either};
ghost use Rattle.either.specs.declared.Either.{Either};
ghost use Rattle.either.specs.declared.Either.TheVariants.{Left, Right};
ghost use Rattle.bins.specs.Choices.{taken_by, IsFresh};
ghost use Rattle.std.proofs.Common.{rules};

use crate::bin::Bin;
use either::Either;

impl<T: Copy, A: Bin<T>, B: Bin<T>> Bin<T> for Either<A, B> {
    type Reading = Either<A::Reading, B::Reading>;

    ghost State = { Either A.Bin.State B.Bin.State };

    ghost state = { map_either A.Bin.state B.Bin.state };

    ghost rule = { taken_by A.Bin.rule B.Bin.rule };

    ghost count = { of_either A.Bin.count B.Bin.count };

    ghost fresh = { IsFresh A.Bin.fresh B.Bin.fresh };

    ghost reading = { λ s i. map_either (λ a. A.Bin.reading a i) (λ b. B.Bin.reading b i) s };

    ghost counts = { elim [ Left a ↦ A.Bin.counts a | Right b ↦ B.Bin.counts b ] };

    ghost fits = { elim [ Left a ↦ A.Bin.fits a | Right b ↦ B.Bin.fits b ] };

    ghost starts = { elim [ Left a ↦ A.Bin.starts a | Right b ↦ B.Bin.starts b ] };

    fn take(&mut self, item: T) {
        match self {
            Either::Left(first) => first.take(item),
            Either::Right(second) => second.take(item),
        }
    }

    fn read(&self, at: usize) -> Either<A::Reading, B::Reading> {
        match self {
            Either::Left(first) => Either::Left(first.read(at)),
            Either::Right(second) => Either::Right(second.read(at)),
        }
    }

    fn count(&self) -> u64 {
        match self {
            Either::Left(first) => first.count(),
            Either::Right(second) => second.count(),
        }
    }
}
