// Pair: two meters as one, which read side by side.
ghost use Rattle.std.specs.Prelude.{◌≡◌};
ghost use Rattle.measure.specs.Pair.{pair_measure};
ghost use Rattle.measure.proofs.Pair.{pair_lawful};

use crate::interface::Meter;
use measure::pair_reading::PairReading;

#[derive(Clone, Copy)]
pub struct Pair<A, B> {
    pub first: A,
    pub second: B,
}

impl<A: Meter, B: Meter> Meter for Pair<A, B> {
    type Reading = PairReading<A::Reading, B::Reading>;

    ghost scale = { λ m. pair_measure (A.Meter.scale m.first) (B.Meter.scale m.second) };

    ghost lawful = { λ m. pair_lawful (A.Meter.scale m.first) (B.Meter.scale m.second) (A.Meter.lawful m.first) (B.Meter.lawful m.second) };

    fn empty(&self) -> PairReading<A::Reading, B::Reading> {
        PairReading {
            first: self.first.empty(),
            second: self.second.empty(),
        }
    }

    fn single(&self, byte: u8) -> PairReading<A::Reading, B::Reading> {
        PairReading {
            first: self.first.single(byte),
            second: self.second.single(byte),
        }
    }

    fn join(
        &self,
        left: &PairReading<A::Reading, B::Reading>,
        right: &PairReading<A::Reading, B::Reading>,
    ) -> PairReading<A::Reading, B::Reading> {
        PairReading {
            first: self.first.join(&left.first, &right.first),
            second: self.second.join(&left.second, &right.second),
        }
    }

    #[tactic(auto, using(measure::proofs::Pair::pair_reading))]
    fn measure(&self, bytes: &[u8]) -> PairReading<A::Reading, B::Reading> {
        PairReading {
            first: self.first.measure(bytes),
            second: self.second.measure(bytes),
        }
    }
}
