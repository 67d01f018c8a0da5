// Comment: a layer in which a comment runs from its begin byte to the end of the line.
ghost use Rattle.std.specs.Prelude.{◌≡◌};
ghost use Rattle.automaton.specs.Comment.{comment, comment_state};
ghost use Rattle.automaton.specs.Layer.{state_among};
ghost use Rattle.automaton.proofs.Comment.{comment_lawful};

use crate::layer::{LINE_FEED, begins, fitted};
use automaton::layer_state::CommentState;
use grammar::{Grammar, Step, class};

const BEGIN: u8 = b'#';

#[derive(Clone, Copy)]
pub struct Comment<G> {
    pub below: G,
}

impl<G: Grammar> Comment<G> {
    // What a number stands for, if it is a state of the layer.
    fn state_of(&self, state: u8) -> Option<CommentState>
        ensures { let below = G.Grammar.meaning self.now.below in result ≡ state_among (comment below).count (comment_state below) state }
    {
        let n = self.below.count();
        if state >= self.count() {
            None
        } else if state < n {
            Some(CommentState::Below(state))
        } else {
            Some(CommentState::Inside(state - n))
        }
    }
}

impl<G: Grammar> Grammar for Comment<G> {
    ghost meaning = { λ g. comment (G.Grammar.meaning g.below) };

    ghost lawful = { λ g. comment_lawful (G.Grammar.meaning g.below) (G.Grammar.lawful g.below) };

    fn count(&self) -> u8 {
        fitted(2 * self.below.count() as u16)
    }

    fn step(&self, state: u8, byte: u8) -> u8 {
        self.read(state, byte).behind
    }

    fn class(&self, state: u8, byte: u8) -> u8 {
        self.read(state, byte).class
    }

    fn is_open(&self, state: u8) -> bool {
        match self.state_of(state) {
            Some(CommentState::Below(s)) => self.below.is_open(s),
            Some(CommentState::Inside(_)) | None => false,
        }
    }

    #[inline(always)]
    fn read(&self, state: u8, byte: u8) -> Step {
        let Some(at) = self.state_of(state) else {
            return Step::outside(state);
        };
        let n = self.below.count();
        let (class, behind) = match at {
            CommentState::Below(s) if begins(BEGIN, &self.below, s, byte) => {
                (class::COMMENT, n + self.below.step(s, byte))
            }
            CommentState::Below(s) => return self.below.read(s, byte),
            CommentState::Inside(t) if byte == LINE_FEED => return self.below.read(t, byte),
            CommentState::Inside(_) => (class::COMMENT, state),
        };
        Step { class, behind }
    }
}
