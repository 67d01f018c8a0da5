// Quoted: the string layer, in which a string runs from quote to quote or to the end of the line.
// It is not called String, the prelude's own type, and is no twin of Comment, which knows neither an end byte nor an escape.
ghost use Rattle.std.specs.Prelude.{◌≡◌};
ghost use Rattle.automaton.specs.Quoted.{quoted, quoted_state};
ghost use Rattle.automaton.specs.Layer.{state_among};
ghost use Rattle.automaton.proofs.Quoted.{quoted_lawful};

use crate::layer::{LINE_FEED, begins, fitted};
use automaton::layer_state::QuotedState;
use grammar::{Grammar, Step, class};

const QUOTE: u8 = b'"';

const BACKSLASH: u8 = b'\\';

#[derive(Clone, Copy)]
pub struct Quoted<G> {
    pub below: G,
}

impl<G: Grammar> Quoted<G> {
    // What a number stands for, if it is a state of the layer.
    fn state_of(&self, state: u8) -> Option<QuotedState>
        ensures { let below = G.Grammar.meaning self.now.below in result ≡ state_among (quoted below).count (quoted_state below) state }
    {
        let n = self.below.count();
        if state >= self.count() {
            None
        } else if state < n {
            Some(QuotedState::Below(state))
        } else if state - n < n {
            Some(QuotedState::Inside(state - n))
        } else {
            Some(QuotedState::Escaped(state - n - n))
        }
    }
}

impl<G: Grammar> Grammar for Quoted<G> {
    ghost meaning = { λ g. quoted (G.Grammar.meaning g.below) };

    ghost lawful = { λ g. quoted_lawful (G.Grammar.meaning g.below) (G.Grammar.lawful g.below) };

    fn count(&self) -> u8 {
        fitted(3 * self.below.count() as u16)
    }

    fn step(&self, state: u8, byte: u8) -> u8 {
        self.read(state, byte).behind
    }

    fn class(&self, state: u8, byte: u8) -> u8 {
        self.read(state, byte).class
    }

    fn is_open(&self, state: u8) -> bool {
        match self.state_of(state) {
            Some(QuotedState::Below(s)) => self.below.is_open(s),
            Some(QuotedState::Inside(_) | QuotedState::Escaped(_)) | None => false,
        }
    }

    #[inline(always)]
    fn read(&self, state: u8, byte: u8) -> Step {
        let Some(at) = self.state_of(state) else {
            return Step::outside(state);
        };
        let n = self.below.count();
        let (class, behind) = match at {
            QuotedState::Below(s) if begins(QUOTE, &self.below, s, byte) => {
                (class::STRING, n + self.below.step(s, byte))
            }
            QuotedState::Below(s) => return self.below.read(s, byte),
            QuotedState::Inside(t) | QuotedState::Escaped(t) if byte == LINE_FEED => {
                return self.below.read(t, byte);
            }
            QuotedState::Inside(t) => match byte {
                QUOTE => (class::STRING, t),
                BACKSLASH => (class::ESCAPE, n + state),
                _ => (class::STRING, state),
            },
            QuotedState::Escaped(t) => (class::ESCAPE, n + t),
        };
        Step { class, behind }
    }
}
