// A search by the readings of one of two meters, in the readings of their pair.
ghost use Rattle.std.specs.Prelude.{◌≡◌, ℕ, List};
ghost use Rattle.measure.specs.Measure.{Measure, reading as reading_of};
ghost use Rattle.measure.specs.Pair.{pair_measure};

use measure::pair_reading::PairReading;
use meter::Meter;
use seek::backward::Backward;
use seek::forward::Forward;

// Which part of a whole reading is one of a search's own.
pub trait Side<R> {
    type Whole: Copy;

    // What reads the whole, where the part is read by a meter of this meaning.
    ghost whole: { Self → Measure R → Measure Self.Whole };

    fn part<'r>(&self, reading: &'r Self::Whole) -> &'r R
        ensures { (μ : Measure R) (text : List ℕ) → reading.now ≡ reading_of (whole self.now μ) text → result.now ≡ reading_of μ text };
}

// The first of two readings, beside those of another meter.
#[derive(Clone, Copy)]
pub struct First<'m, M>(pub &'m M);

impl<'m, R: Copy, M: Meter> Side<R> for First<'m, M> {
    type Whole = PairReading<R, M::Reading>;

    ghost whole = { λ s μ. pair_measure μ (M.scale s.0.now) };

    #[tactic(auto, using(measure::proofs::Pair::pair_reading))]
    fn part<'r>(&self, reading: &'r PairReading<R, M::Reading>) -> &'r R {
        &reading.first
    }
}

// The second of two readings, beside those of another meter.
#[derive(Clone, Copy)]
pub struct Second<'m, M>(pub &'m M);

impl<'m, R: Copy, M: Meter> Side<R> for Second<'m, M> {
    type Whole = PairReading<M::Reading, R>;

    ghost whole = { λ s μ. pair_measure (M.scale s.0.now) μ };

    #[tactic(auto, using(measure::proofs::Pair::pair_reading))]
    fn part<'r>(&self, reading: &'r PairReading<M::Reading, R>) -> &'r R {
        &reading.second
    }
}

// A search on one side: it looks into its own part of each reading.
#[derive(Clone, Copy)]
pub struct On<P, S> {
    pub side: P,
    pub search: S,
}

impl<S: Forward, P: Side<S::Reading>> Forward for On<P, S> {
    type Reading = P::Whole;

    type At = S::At;

    ghost scale = { λ s. P.whole s.side (S.scale s.search) };

    ghost goes = { λ s. S.goes s.search };

    fn next(&self, at: S::At, byte: u8) -> Option<S::At> {
        self.search.next(at, byte)
    }

    fn pass(&self, at: S::At, reading: &P::Whole) -> Option<S::At> {
        self.search.pass(at, self.side.part(reading))
    }
}

impl<S: Backward, P: Side<S::Reading>> Backward for On<P, S> {
    type Reading = P::Whole;

    type Fore = S::Fore;

    type At = S::At;

    ghost scale = { λ s. P.whole s.side (S.scale s.search) };

    ghost fore = { λ s. S.fore s.search };

    ghost back = { λ s. S.back s.search };

    fn ahead(&self, state: S::Fore, byte: u8) -> S::Fore {
        self.search.ahead(state, byte)
    }

    fn ahead_over(&self, state: S::Fore, reading: &P::Whole) -> S::Fore {
        self.search.ahead_over(state, self.side.part(reading))
    }

    fn prev(&self, state: S::Fore, byte: u8, at: S::At) -> Option<S::At> {
        self.search.prev(state, byte, at)
    }

    fn pass_back(&self, state: S::Fore, reading: &P::Whole, at: S::At) -> Option<S::At> {
        self.search.pass_back(state, self.side.part(reading), at)
    }
}
