// Two bins as one: each item goes to the first, and then to the second. Bins are taken to and read, and never compared.
ghost use Rattle.std.specs.Prelude.{ℕ};
ghost use Rattle.bins.specs.Pairs.{paired};
ghost use Rattle.std.proofs.Common.{rules};

use crate::bin::Bin;

#[derive(Drop)]
pub struct Pair<A, B> {
    pub first: A,
    pub second: B,
}

impl<T: Copy, A: Bin<T>, B: Bin<T>> Bin<T> for Pair<A, B> {
    type Reading = (A::Reading, B::Reading);

    ghost State = { A.Bin.State × B.Bin.State };

    ghost state = { λ p. (A.Bin.state p.first, B.Bin.state p.second) };

    ghost rule = { paired A.Bin.rule B.Bin.rule };

    ghost count = { λ s. A.Bin.count s.0 };

    ghost fresh = { λ s. A.Bin.fresh s.0 × B.Bin.fresh s.1 };

    ghost reading = { λ s i. (A.Bin.reading s.0 i, B.Bin.reading s.1 i) };

    ghost counts = { Prim.search rules };

    ghost fits = { Prim.search rules };

    ghost starts = { Prim.search rules };

    fn take(&mut self, item: T) {
        self.first.take(item);
        self.second.take(item);
    }

    fn read(&self, at: usize) -> (A::Reading, B::Reading) {
        (self.first.read(at), self.second.read(at))
    }

    fn count(&self) -> u64 {
        self.first.count()
    }
}
