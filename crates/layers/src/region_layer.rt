// Region: a layer in which what stands between two border bytes is read by a second grammar.
ghost use Rattle.std.specs.Prelude.{◌≡◌, ◌<◌};
ghost use Rattle.automaton.specs.Layer.{state_among};
ghost use Rattle.automaton.specs.Region.{region, region_count, region_state, region_number, region_class, region_behind};
ghost use Rattle.automaton.proofs.Region.{region_lawful};

use crate::layer::{begins, fitted};
use automaton::layer_state::RegionState;
use grammar::{Grammar, Step, class};

const BORDER: u8 = b'`';

#[derive(Clone, Copy)]
pub struct Region<G, H> {
    pub below: G,
    pub inner: H,
}

impl<G: Grammar, H: Grammar> Region<G, H> {
    // What a number stands for, if it is a state of the layer: there is none where the inner grammar cannot be used.
    fn state_of(&self, state: u8) -> Option<RegionState>
        ensures { let below = G.Grammar.meaning self.now.below in let inner = H.Grammar.meaning self.now.inner in result ≡ state_among (region_count below inner) (region_state below inner) state }
    {
        let n = self.below.count();
        let m = self.inner.count();
        if state >= self.count() {
            None
        } else if state < n {
            Some(RegionState::Below(state))
        } else {
            Some(RegionState::Inside((state - n) / m, (state - n) % m))
        }
    }

    // The number of a state.
    fn number_of(&self, state: RegionState) -> u8
        requires { region_number (G.Grammar.meaning self.now.below) (H.Grammar.meaning self.now.inner) state < 64 }
        ensures { result ≡ region_number (G.Grammar.meaning self.now.below) (H.Grammar.meaning self.now.inner) state }
    {
        match state {
            RegionState::Below(s) => s,
            RegionState::Inside(t, u) => self.below.count() + self.inner.count() * t + u,
        }
    }

    // The class of a byte read from a state, and where the layer is behind it.
    #[inline(always)]
    fn read_at(&self, state: RegionState, byte: u8) -> (u8, RegionState)
        ensures class { result.0 ≡ region_class (G.Grammar.meaning self.now.below) (H.Grammar.meaning self.now.inner) state byte }
        ensures behind { result.1 ≡ region_behind (G.Grammar.meaning self.now.below) (H.Grammar.meaning self.now.inner) state byte }
    {
        match state {
            RegionState::Below(s) if begins(BORDER, &self.below, s, byte) => (
                class::BORDER,
                RegionState::Inside(self.below.step(s, byte), 0),
            ),
            RegionState::Below(s) => {
                let read = self.below.read(s, byte);
                (read.class, RegionState::Below(read.behind))
            }
            RegionState::Inside(t, u) if begins(BORDER, &self.inner, u, byte) => {
                (class::BORDER, RegionState::Below(t))
            }
            RegionState::Inside(t, u) => {
                let read = self.inner.read(u, byte);
                (read.class, RegionState::Inside(t, read.behind))
            }
        }
    }
}

impl<G: Grammar, H: Grammar> Grammar for Region<G, H> {
    ghost meaning = { λ g. region (G.Grammar.meaning g.below) (H.Grammar.meaning g.inner) };

    ghost lawful = { λ g. region_lawful (G.Grammar.meaning g.below) (H.Grammar.meaning g.inner) (G.Grammar.lawful g.below) (H.Grammar.lawful g.inner) };

    fn count(&self) -> u8 {
        let n = self.below.count() as u16;
        let m = self.inner.count() as u16;
        if m == 0 { 0 } else { fitted(n + n * m) }
    }

    fn step(&self, state: u8, byte: u8) -> u8 {
        self.read(state, byte).behind
    }

    fn class(&self, state: u8, byte: u8) -> u8 {
        self.read(state, byte).class
    }

    fn is_open(&self, state: u8) -> bool {
        match self.state_of(state) {
            Some(RegionState::Below(s)) => self.below.is_open(s),
            Some(RegionState::Inside(_, u)) => self.inner.is_open(u),
            None => false,
        }
    }

    #[inline(always)]
    fn read(&self, state: u8, byte: u8) -> Step {
        let Some(at) = self.state_of(state) else {
            return Step::outside(state);
        };
        let (class, behind) = self.read_at(at, byte);
        Step {
            class,
            behind: self.number_of(behind),
        }
    }

    // The state's number is taken apart once, and not for each byte.
    fn colour_cells(&self, state: u8, cells: &mut [u8]) -> u8 {
        let Some(mut at) = self.state_of(state) else {
            cells.fill(class::BLANK);
            return state;
        };
        for cell in cells.iter_mut() {
            let (class, behind) = self.read_at(at, *cell);
            *cell = class;
            at = behind;
        }
        self.number_of(at)
    }
}
