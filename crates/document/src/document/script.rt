// SCRIPT: records carried out one after another, each an edit whose due is painted at once.
ghost use Rattle.std.specs.Prelude.{◌≡◌, ℕ, List, length, IfOk, OnErr};
ghost use Rattle.model.specs.Calls.{refusal_in};
ghost use Rattle.model.specs.Script.{record_refusal, recorded, record_painted, RecordColoured, scripted, script_screen};
ghost use Rattle.editing.specs.Content.{scale_of};
ghost use Rattle.document.specs.Content.{model_of, Keeps, Unchanged};
ghost use Rattle.document.specs.Records.{script_result, CarriedInText, CarriedTo, RecordByRecord};

use crate::document::Document;
use editing::Readings;
use editing::plan::plan;
use grammar::Grammar;
use meter::Meter;
use model::{Refusal, Replacement};
use walks::DocumentMeter;

// The record that was refused, and why.
#[derive(Clone, Copy, PartialEq, Eq, Debug)]
pub struct RecordRefusal {
    pub index: usize,
    pub refusal: Refusal,
}

impl<R: Copy> Document<'_, R> {
    // Whether a record can be carried out on a screen of so many cells, and why not.
    fn may_take(&self, cells: usize, text: &[u8], replacement: Replacement) -> Result<(), Refusal>
        ensures { refusal_in result ≡ record_refusal cells text.now (model_of self.now) replacement }
    {
        self.no_due()?;
        if replacement.start > replacement.end || replacement.end as usize > text.len() {
            return Err(Refusal::OutsidePart(replacement.end as u64));
        }
        let part = &text[replacement.start as usize..replacement.end as usize];
        plan(&self.tree, replacement.from, replacement.to, part)?;
        let old = self.tree.bytes() as usize;
        let new = old - (replacement.to - replacement.from) as usize + part.len();
        if old > cells || new > cells {
            return Err(Refusal::ShortScreen(cells as u64));
        }
        Ok(())
    }
}

impl<X: Copy> Document<'_, Readings<X>> {
    // Carries one record out: everything is looked at before anything is changed.
    fn take_record<G: Grammar, H: Meter<Reading = X>>(
        &mut self,
        meter: &DocumentMeter<G, H>,
        screen: &mut [u8],
        text: &[u8],
        replacement: Replacement,
    ) -> Result<(), Refusal>
        ensures decides { refusal_in result ≡ record_refusal (length screen.old) text.now (model_of self.old) replacement }
        ensures after { IfOk result (λ _. model_of self.new ≡ recorded text.now (model_of self.old) replacement) }
        ensures anyway { IfOk result (λ _. RecordColoured (G.meaning meter.now.first.grammar) text.now (model_of self.old) replacement screen.old screen.new) }
        ensures painted { IfOk result (λ _. Keeps self.old (scale_of G.meaning H.scale meter.now) → screen.new ≡ record_painted (G.meaning meter.now.first.grammar) text.now (model_of self.old) screen.old replacement) }
        ensures keeps { let μ = scale_of G.meaning H.scale meter.now in Keeps self.old μ → Keeps self.new μ }
        ensures same { OnErr result (Unchanged self.old self.new × (screen.new ≡ screen.old)) }
    {
        self.may_take(screen.len(), text, replacement)?;
        let part = &text[replacement.start as usize..replacement.end as usize];
        let change = self.try_edit(meter, replacement.from, replacement.to, part)?;
        self.try_paint(meter, change, screen)
    }

    // Carries the records out, up to the first that is refused.
    pub(crate) fn try_script<G: Grammar, H: Meter<Reading = X>>(
        &mut self,
        meter: &DocumentMeter<G, H>,
        screen: &mut [u8],
        records: &[Replacement],
        text: &[u8],
    ) -> Result<usize, RecordRefusal>
        ensures answer { result ≡ script_result (scripted (length screen.old) text.now (model_of self.old) records.now) }
        ensures after { model_of self.new ≡ (scripted (length screen.old) text.now (model_of self.old) records.now).after }
        ensures painted { Keeps self.old (scale_of G.meaning H.scale meter.now) → screen.new ≡ script_screen (G.meaning meter.now.first.grammar) (length screen.old) text.now (model_of self.old) screen.old records.now }
        ensures keeps { let μ = scale_of G.meaning H.scale meter.now in Keeps self.old μ → Keeps self.new μ }
        ensures anyway { (buffer : List ℕ) (reading : _) → RecordByRecord (CarriedInText (G.meaning meter.now.first.grammar) text.now) text.now records.now (record { document = self.old; screen = screen.old; buffer = buffer; reading = reading }) (record { document = self.new; screen = screen.new; buffer = buffer; reading = reading }) }
        ensures records { let μ = scale_of G.meaning H.scale meter.now in (buffer : List ℕ) (reading : _) → Keeps self.old μ → RecordByRecord (CarriedTo (G.meaning meter.now.first.grammar) text.now (λ s. Keeps s.document μ)) text.now records.now (record { document = self.old; screen = screen.old; buffer = buffer; reading = reading }) (record { document = self.new; screen = screen.new; buffer = buffer; reading = reading }) }
    {
        for (index, record) in records.iter().enumerate() {
            self.take_record(meter, screen, text, *record)
                .map_err(|refusal| RecordRefusal { index, refusal })?;
        }
        Ok(records.len())
    }
}
