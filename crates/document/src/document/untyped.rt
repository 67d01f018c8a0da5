// The calls without their tokens: what a host's calls do, and what a log of calls replays.
ghost use Rattle.std.specs.Prelude.{◌≡◌, ℕ, ◌-◌, Bool, List, length, is_ok, IfOk, if◌then◌else◌, OnErr, OnOk};
ghost use Rattle.measure.specs.Measure.{Measure};
ghost use Rattle.model.specs.Calls.{answered, refusal_in, open_refusal, opened, edit_refusal, edited, paint_refusal, settled, close_refusal};
ghost use Rattle.model.specs.End.{edit_change};
ghost use Rattle.model.specs.Paint.{painted};
ghost use Rattle.model.specs.SomeWalk.{ChangeColoured};
ghost use Rattle.editing.specs.Content.{scale_of};
ghost use Rattle.document.specs.Content.{model_of, text as text_of, Keeps, Unchanged};

use crate::document::Document;
use editing::{Edited, Readings, apply_edit, line_ends_of, paint_change};
use grammar::Grammar;
use meter::Meter;
use model::{Change, Refusal};
use walks::DocumentMeter;

impl<R: Copy> Document<'_, R> {
    // Whether a grammar of so many states can be opened with, and why not.
    fn may_open(&self, states: u8) -> Result<(), Refusal>
        ensures { refusal_in result ≡ open_refusal (model_of self.now) states }
    {
        let lent = self.tree.lent();
        if self.tree.usable() != 0 {
            return Err(Refusal::OpenedBefore);
        }
        if lent.slots < 1 || lent.slots > 4096 {
            return Err(Refusal::SlotCount(lent.slots as u64));
        }
        if lent.store != 64 * lent.slots {
            return Err(Refusal::LentLength(lent.store as u64));
        }
        if lent.readings != lent.slots {
            return Err(Refusal::LentLength(lent.readings as u64));
        }
        if states == 0 {
            return Err(Refusal::UnusableGrammar);
        }
        Ok(())
    }

    pub(crate) fn try_open(&mut self, states: u8) -> Result<(), Refusal>
        ensures answer { result ≡ answered (open_refusal (model_of self.old) states) tt }
        ensures after { model_of self.new ≡ (if is_ok result then opened (model_of self.old) else model_of self.old) }
        ensures keeps { (μ : Measure R) → Keeps self.old μ → Keeps self.new μ }
        ensures same { OnErr result (Unchanged self.old self.new) }
    {
        self.may_open(states)?;
        let slots = self.tree.lent().slots as u16;
        let _ = self.tree.prepare(slots);
        Ok(())
    }

    // Whether no due stands: all that CLOSE asks, and what EDIT and SCRIPT ask first.
    pub(crate) fn no_due(&self) -> Result<(), Refusal>
        ensures { result ≡ answered (close_refusal (model_of self.now)) tt }
    {
        match self.due {
            Some(due) => Err(Refusal::DueStands(due.place as u64)),
            None => Ok(()),
        }
    }
}

impl<X: Copy> Document<'_, Readings<X>> {
    pub(crate) fn try_edit<G: Grammar, H: Meter<Reading = X>>(
        &mut self,
        meter: &DocumentMeter<G, H>,
        from: u32,
        to: u32,
        bytes: &[u8],
    ) -> Result<Change, Refusal>
        ensures decides { refusal_in result ≡ edit_refusal (model_of self.old) from to bytes.now }
        ensures after { IfOk result (λ c. model_of self.new ≡ edited (model_of self.old) from to bytes.now c) }
        ensures numbers { IfOk result (λ c. (c.place ≡ from) × ((c.removed ≡ to - from) × (c.inserted ≡ length bytes.now))) }
        ensures ends { IfOk result (λ c. Keeps self.old (scale_of G.meaning H.scale meter.now) → c ≡ edit_change (G.meaning meter.now.first.grammar) (text_of self.old) from to bytes.now) }
        ensures keeps { let μ = scale_of G.meaning H.scale meter.now in Keeps self.old μ → Keeps self.new μ }
        ensures same { OnErr result (Unchanged self.old self.new) }
    {
        self.no_due()?;
        let Edited { change, lost } = apply_edit(&mut self.tree, meter, from, to, bytes)?;
        self.lines = self.lines - lost + line_ends_of(bytes) as u32;
        self.due = Some(change);
        Ok(change)
    }

    pub(crate) fn try_paint<G: Grammar, H: Meter<Reading = X>>(
        &mut self,
        meter: &DocumentMeter<G, H>,
        change: Change,
        screen: &mut [u8],
    ) -> Result<(), Refusal>
        ensures answer { result ≡ answered (paint_refusal (model_of self.old) change (length screen.old)) tt }
        ensures after { model_of self.new ≡ (if is_ok result then settled (model_of self.old) else model_of self.old) }
        ensures tree { self.new.tree ≡ self.old.tree }
        ensures anyway { OnOk result (ChangeColoured (G.meaning meter.now.first.grammar) (text_of self.old) change screen.old screen.new) }
        ensures painted { OnOk result (Keeps self.old (scale_of G.meaning H.scale meter.now) → screen.new ≡ painted (G.meaning meter.now.first.grammar) (text_of self.old) change screen.old) }
        ensures same { OnErr result (Unchanged self.old self.new × (screen.new ≡ screen.old)) }
    {
        if self.due != Some(change) {
            return Err(Refusal::UnknownDue(change.place as u64));
        }
        paint_change(&self.tree, meter, change, screen)?;
        self.due = None;
        Ok(())
    }
}
