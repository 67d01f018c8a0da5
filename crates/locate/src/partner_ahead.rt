// The search for an opening's partner, by the readings of Walk.
ghost use Rattle.std.specs.Prelude.{◌≡◌};
ghost use Rattle.measure.specs.Walk.{walk_measure};
ghost use Rattle.locate.specs.PartnerAhead.{ahead_on};

use crate::depth::{depth_ahead, depth_over};
use crate::nested::Nested;
use grammar::Grammar;
use measure::walk_reading::Passage;
use seek::forward::Forward;

#[derive(Clone, Copy)]
pub struct PartnerAhead<'g, G> {
    pub grammar: &'g G,
}

impl<'g, G: Grammar> Forward for PartnerAhead<'g, G> {
    type Reading = Option<Passage>;

    type At = Nested;

    ghost scale = { λ s. walk_measure (G.Grammar.meaning s.grammar.now) };

    ghost goes = { λ s. ahead_on (G.Grammar.meaning s.grammar.now) };

    fn next(&self, at: Nested, byte: u8) -> Option<Nested> {
        let depth = depth_ahead(self.grammar.role(at.state, byte), at.depth)?;
        Some(Nested {
            state: self.grammar.step(at.state, byte),
            depth,
        })
    }

    // A text whose unmatched closings are fewer than the openings so far is run through.
    #[tactic(auto, using(crate::proofs::Nesting::ahead_over_text))]
    fn pass(&self, at: Nested, reading: &Option<Passage>) -> Option<Nested> {
        let passage = reading.as_ref()?;
        let entry = passage.entry(at.state);
        let depth = depth_over(at.depth, passage.length, entry.closings, entry.openings)?;
        Some(Nested {
            state: entry.end,
            depth,
        })
    }
}
