// The questions that need no pass: they change nothing but what they are lent to write to.
ghost use Rattle.std.specs.Prelude.{◌≡◌, ◌≤◌, length, IfOk, OnErr, OnOk};
ghost use Rattle.std.specs.List.{between};
ghost use Rattle.measure.specs.Measure.{reading as reading_of};
ghost use Rattle.model.specs.Calls.{answered, refusal_in, extent_refusal, place_refusal, spot_refusal, partner_refusal, begins as begins_at};
ghost use Rattle.brackets.specs.Partner.{partner as partner_in};
ghost use Rattle.positions.specs.Position.{position, spot as spot_in};
ghost use Rattle.editing.specs.Content.{scale_of};
ghost use Rattle.lookup.specs.Partner.{RefusedAnyway};
ghost use Rattle.document.specs.Content.{model_of, text as text_of, Keeps};

use crate::document::Document;
use brackets::Partner;
use editing::{Readings, in_text};
use grammar::Grammar;
use lookup::{partner_of, place_of, spot_at};
use meter::Meter;
use model::Refusal;
use walks::DocumentMeter;

impl<R: Copy> Document<'_, R> {
    // SAME: whether the text from a place on begins with the given bytes.
    pub fn same(&self, place: u32, bytes: &[u8]) -> Result<bool, Refusal>
        ensures { result ≡ answered (place_refusal (model_of self.now) place) (begins_at (text_of self.now) place bytes.now) }
    {
        if place > self.tree.bytes() {
            return Err(Refusal::OutsidePlace(place as u64));
        }
        Ok(self.tree.same(place, bytes))
    }
}

impl<X: Copy> Document<'_, Readings<X>> {
    // PLACE: the line ends before a place, and the units since the last of them.
    pub fn place<G: Grammar, H: Meter<Reading = X>>(
        &self,
        meter: &DocumentMeter<G, H>,
        place: u32,
    ) -> Result<(u32, u32), Refusal>
        ensures decides { refusal_in result ≡ place_refusal (model_of self.now) place }
        ensures finds { IfOk result (λ p. Keeps self.now (scale_of G.meaning H.scale meter.now) → p ≡ position (text_of self.now) place) }
    {
        place_of(&self.tree, meter, place)
    }

    // SPOT: the largest place in a line whose column is at most the given one.
    pub fn spot<G: Grammar, H: Meter<Reading = X>>(
        &self,
        meter: &DocumentMeter<G, H>,
        line: u32,
        column: u32,
    ) -> Result<u32, Refusal>
        ensures decides { refusal_in result ≡ spot_refusal (model_of self.now) line }
        ensures within { IfOk result (λ p. p ≤ length (text_of self.now)) }
        ensures finds { IfOk result (λ p. Keeps self.now (scale_of G.meaning H.scale meter.now) → p ≡ spot_in (text_of self.now) line column) }
    {
        if line > self.lines {
            return Err(Refusal::NoLine(line as u64));
        }
        Ok(spot_at(&self.tree, meter, line, column))
    }

    // PARTNER: the bracket that belongs to the one at a place, if there is one.
    pub fn partner<G: Grammar, H: Meter<Reading = X>>(
        &self,
        meter: &DocumentMeter<G, H>,
        place: u32,
    ) -> Result<Option<Partner>, Refusal>
        ensures decides { Keeps self.now (scale_of G.meaning H.scale meter.now) → refusal_in result ≡ partner_refusal (G.meaning meter.now.first.grammar) (model_of self.now) place }
        ensures anyway { RefusedAnyway (text_of self.now) place result }
        ensures finds { IfOk result (λ p. Keeps self.now (scale_of G.meaning H.scale meter.now) → p ≡ partner_in (G.meaning meter.now.first.grammar) (text_of self.now) place) }
    {
        partner_of(&self.tree, meter, place)
    }

    // RANGE: what the document's meter reads of a range, written to a lent reading.
    pub fn range<G: Grammar, H: Meter<Reading = X>>(
        &self,
        meter: &DocumentMeter<G, H>,
        from: u32,
        to: u32,
        out: &mut Readings<X>,
    ) -> Result<(), Refusal>
        ensures answer { result ≡ answered (extent_refusal (model_of self.now) from to) tt }
        ensures written { let μ = scale_of G.meaning H.scale meter.now in OnOk result (Keeps self.now μ → out.new ≡ reading_of μ (between from to (text_of self.now))) }
        ensures same { OnErr result (out.new ≡ out.old) }
    {
        in_text(&self.tree, from, to)?;
        *out = self.tree.reading(meter, from, to);
        Ok(())
    }
}
