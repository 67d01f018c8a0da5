// The search for the state before a place, by the readings of Walk.
ghost use Rattle.std.specs.Prelude.{◌≡◌};
ghost use Rattle.measure.specs.Walk.{walk_measure};
ghost use Rattle.locate.specs.StateBefore.{walk_on};

use crate::walked::Walked;
use grammar::Grammar;
use measure::walk_reading::Passage;
use seek::forward::Forward;

#[derive(Clone, Copy)]
pub struct StateBefore<G> {
    pub grammar: G,
}

impl<G: Grammar> Forward for StateBefore<G> {
    type Reading = Option<Passage>;

    type At = Walked;

    ghost scale = { λ s. walk_measure (G.Grammar.meaning s.grammar) };

    ghost goes = { λ s. walk_on (G.Grammar.meaning s.grammar) };

    fn next(&self, at: Walked, byte: u8) -> Option<Walked> {
        Some(Walked {
            left: at.left.checked_sub(1)?,
            state: self.grammar.step(at.state, byte),
        })
    }

    // A text that ends before the place is walked through by one look at its entry.
    #[tactic(auto, using(crate::proofs::Walking::walked_over))]
    fn pass(&self, at: Walked, reading: &Option<Passage>) -> Option<Walked> {
        let passage = reading.as_ref()?;
        Some(Walked {
            left: at.left.checked_sub(passage.length as usize)?,
            state: passage.entry(at.state).end,
        })
    }
}
