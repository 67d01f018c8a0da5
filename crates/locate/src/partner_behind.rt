// The search back for a closing's partner, by the readings of Walk.
ghost use Rattle.std.specs.Prelude.{◌≡◌, ◌-◌, ◌<◌, ◌≤◌, Some, IfSome, IfNone};
ghost use Rattle.measure.specs.Bounded.{longest};
ghost use Rattle.measure.specs.Walk.{walk_measure};
ghost use Rattle.measure.specs.declared.walk_reading.Passage.{Passage};
ghost use Rattle.locate.specs.PartnerBehind.{trace_on, behind_on};

use crate::depth::{depth_behind, depth_over};
use crate::traced::Traced;
use grammar::Grammar;
use measure::walk_reading::Passage;
use meter::limit::{LONGEST, length_within};
use seek::backward::Backward;

// What is read of a text behind a walk, where the walk can be traced through it.
// `length_within` of both would refuse an empty text behind a walk that has read more than is traced.
fn within<'p>(from: Traced, reading: &'p Option<Passage>) -> Option<&'p Passage>
    ensures told { IfSome result (λ p. (reading.now ≡ Some p.now) × (p.now.length ≤ longest - from.read)) }
    ensures lost { IfNone result ((p : Passage) → reading.now ≡ Some p → longest - from.read < p.length) }
{
    reading.as_ref().filter(|passage| passage.length <= LONGEST.saturating_sub(from.read))
}

#[derive(Clone, Copy)]
pub struct PartnerBehind<'g, G> {
    pub grammar: &'g G,
}

impl<'g, G: Grammar> Backward for PartnerBehind<'g, G> {
    type Reading = Option<Passage>;

    type Fore = Option<Traced>;

    type At = u32;

    ghost scale = { λ s. walk_measure (G.Grammar.meaning s.grammar.now) };

    ghost fore = { λ s. trace_on (G.Grammar.meaning s.grammar.now) };

    ghost back = { λ s. behind_on (G.Grammar.meaning s.grammar.now) };

    fn ahead(&self, state: Option<Traced>, byte: u8) -> Option<Traced> {
        let from = state?;
        Some(Traced {
            read: length_within(from.read, 1)?,
            state: self.grammar.step(from.state, byte),
        })
    }

    fn ahead_over(&self, state: Option<Traced>, reading: &Option<Passage>) -> Option<Traced> {
        let from = state?;
        let passage = within(from, reading)?;
        Some(Traced {
            read: from.read + passage.length,
            state: passage.entry(from.state).end,
        })
    }

    fn prev(&self, state: Option<Traced>, byte: u8, at: u32) -> Option<u32> {
        let from = state?;
        depth_behind(self.grammar.role(from.state, byte), at)
    }

    // A text whose unmatched openings are fewer than the closings so far is run through.
    fn pass_back(&self, state: Option<Traced>, reading: &Option<Passage>, at: u32) -> Option<u32> {
        let from = state?;
        let passage = within(from, reading)?;
        let entry = passage.entry(from.state);
        depth_over(at, passage.length, entry.openings, entry.closings)
    }
}
