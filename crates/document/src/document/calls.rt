// The calls of a document. A refused one changes nothing and gives back what it was given.
ghost use Rattle.std.specs.Prelude.{◌≡◌, ℕ, ◌-◌, ◌≤◌, List, length, is_ok, IfOk, IfErr, IsOkAnd, MatchResult, if◌then◌else◌, Err, OnErr, OnOk};
ghost use Rattle.std.specs.List.{between};
ghost use Rattle.automaton.specs.Walk.{colours as colours_of};
ghost use Rattle.chunks.specs.Tree.{Balanced};
ghost use Rattle.measure.specs.Measure.{Measure};
ghost use Rattle.model.specs.Calls.{answered, refusal_in, open_refusal, opened, edit_refusal, edited, paint_refusal, settled, close_refusal, range_refusal, with_front};
ghost use Rattle.model.specs.End.{edit_change};
ghost use Rattle.model.specs.Paint.{painted};
ghost use Rattle.model.specs.SomeWalk.{FrontColoured, ChangeColoured};
ghost use Rattle.tree.specs.Public.{tree_in};
ghost use Rattle.editing.specs.Content.{scale_of};
ghost use Rattle.document.specs.Content.{model_of, new_model, text as text_of, Keeps, size_of, Unchanged};
ghost use Rattle.document.specs.Records.{script_result, CarriedInText, CarriedTo, RecordByRecord};
ghost use Rattle.document.specs.Tokens.{given_back, script_told};
ghost use Rattle.model.specs.Script.{scripted, script_screen};

use crate::document::Document;
use crate::tokens::{Due, Pass, Refused, ScriptRefused};
use editing::{Readings, copy_colours, copy_text};
use grammar::Grammar;
use meter::Meter;
use model::{Change, Refusal, Replacement};
use slots::slot::Slot;
use tree::ChunkTree;
use walks::DocumentMeter;

// What becomes of a token by how a call came out: one that was done takes it, a refused one gives it back.
fn settle<T, U, B, E, F: FnOnce(T, B) -> U>(
    outcome: Result<T, E>,
    token: B,
    done: F,
) -> Result<U, Refused<B, E>>
    requires { F.IsAlwaysCallable done }
    ensures { MatchResult outcome (λ value. IsOkAnd result (F.post done value token)) (λ refusal. result ≡ Err (record { back = token; refusal = refusal })) }
{
    match outcome {
        Ok(value) => Ok(done(value, token)),
        Err(refusal) => Err(Refused {
            back: token,
            refusal,
        }),
    }
}

impl<'a, R: Copy> Document<'a, R> {
    // A document put together from lent memory: there is no text, and no slot is usable before OPEN.
    // The three are apart, as a host lends them: each has a length of its own, which OPEN looks at.
    pub fn new(
        slots: &'a mut [Slot<R>],
        store: &'a mut [u8],
        readings: &'a mut [R],
    ) -> Document<'a, R>
        ensures is { model_of result ≡ new_model (length slots.old) (length store.old) (length readings.old) }
        ensures slots { result.tree.memory.slots.now ≡ slots.old }
        ensures store { result.tree.memory.store.now ≡ store.old }
        ensures readings { result.tree.memory.readings.now ≡ readings.old }
    {
        Document {
            tree: ChunkTree::new(slots, store, readings),
            lines: 0,
            due: None,
        }
    }
}

impl<R: Copy> Document<'_, R> {
    // CLOSE takes a pass, and nothing else.
    pub fn close(&self, pass: Pass) -> Result<(), Refused<Pass>>
        ensures { given_back result ≡ close_refusal (model_of self.now) }
    {
        settle(self.no_due(), pass, |(), Pass { granted: () }| ())
    }

    // TEXT: the bytes of a range, at the front of a buffer.
    pub fn text(&self, from: u32, to: u32, out: &mut [u8]) -> Result<(), Refusal>
        ensures answer { result ≡ answered (range_refusal (model_of self.now) from to (length out.old)) tt }
        ensures written { out.new ≡ (if is_ok result then with_front (between from to (text_of self.now)) out.old else out.old) }
    {
        copy_text(&self.tree, from, to, out)
    }

    // The change that waits to be painted, if one does.
    pub fn standing(&self) -> Option<Change>
        ensures { result ≡ (model_of self.now).due }
    {
        self.due
    }

    // SIZE: bytes, chunks and height, together.
    pub fn size(&self) -> (u32, u16, u8)
        ensures is { result ≡ size_of self.now }
        ensures balanced { Balanced (tree_in self.now.tree) }
        ensures low { result.2 ≤ 16 }
        ensures few { result.0 ≤ 262144 }
    {
        (self.tree.bytes(), self.tree.chunks(), self.tree.height())
    }
}

impl<X: Copy> Document<'_, Readings<X>> {
    // OPEN makes all lent slots usable and gives the first pass.
    pub fn open<G: Grammar, H: Meter<Reading = X>>(
        &mut self,
        meter: &DocumentMeter<G, H>,
    ) -> Result<Pass, Refusal>
        ensures decides { refusal_in result ≡ open_refusal (model_of self.old) (G.meaning meter.now.first.grammar).count }
        ensures after { model_of self.new ≡ (if is_ok result then opened (model_of self.old) else model_of self.old) }
        ensures keeps { (μ : Measure _) → Keeps self.old μ → Keeps self.new μ }
        ensures same { OnErr result (Unchanged self.old self.new) }
    {
        self.try_open(meter.first.grammar.count())?;
        Ok(Pass { granted: () })
    }

    // EDIT puts new bytes in the place of a range and gives the due of the change.
    pub fn edit<G: Grammar, H: Meter<Reading = X>>(
        &mut self,
        meter: &DocumentMeter<G, H>,
        pass: Pass,
        from: u32,
        to: u32,
        bytes: &[u8],
    ) -> Result<Due, Refused<Pass>>
        ensures decides { given_back result ≡ edit_refusal (model_of self.old) from to bytes.now }
        ensures after { IfOk result (λ d. model_of self.new ≡ edited (model_of self.old) from to bytes.now d.change) }
        ensures numbers { IfOk result (λ d. (d.change.place ≡ from) × ((d.change.removed ≡ to - from) × (d.change.inserted ≡ length bytes.now))) }
        ensures ends { IfOk result (λ d. Keeps self.old (scale_of G.meaning H.scale meter.now) → d.change ≡ edit_change (G.meaning meter.now.first.grammar) (text_of self.old) from to bytes.now) }
        ensures keeps { let μ = scale_of G.meaning H.scale meter.now in Keeps self.old μ → Keeps self.new μ }
        ensures same { OnErr result (Unchanged self.old self.new) }
    {
        let edited = self.try_edit(meter, from, to, bytes);
        settle(edited, pass, |change, Pass { granted: () }| Due { change })
    }

    // PAINT brings a screen up to date with a change and gives the next pass.
    pub fn paint<G: Grammar, H: Meter<Reading = X>>(
        &mut self,
        meter: &DocumentMeter<G, H>,
        due: Due,
        screen: &mut [u8],
    ) -> Result<Pass, Refused<Due>>
        ensures decides { given_back result ≡ paint_refusal (model_of self.old) due.change (length screen.old) }
        ensures after { model_of self.new ≡ (if is_ok result then settled (model_of self.old) else model_of self.old) }
        ensures tree { self.new.tree ≡ self.old.tree }
        ensures anyway { OnOk result (ChangeColoured (G.meaning meter.now.first.grammar) (text_of self.old) due.change screen.old screen.new) }
        ensures painted { OnOk result (Keeps self.old (scale_of G.meaning H.scale meter.now) → screen.new ≡ painted (G.meaning meter.now.first.grammar) (text_of self.old) due.change screen.old) }
        ensures same { IfErr result (λ f. (f.back ≡ due) × (Unchanged self.old self.new × (screen.new ≡ screen.old))) }
    {
        let painted = self.try_paint(meter, due.change, screen);
        settle(painted, due, |(), Due { change: _ }| Pass { granted: () })
    }

    // SCRIPT carries the records of a list out, one after another: each is an edit and its painting. It says how many it did.
    pub fn script<G: Grammar, H: Meter<Reading = X>>(
        &mut self,
        meter: &DocumentMeter<G, H>,
        pass: Pass,
        screen: &mut [u8],
        records: &[Replacement],
        text: &[u8],
    ) -> Result<(usize, Pass), ScriptRefused>
        ensures answer { script_told result ≡ script_result (scripted (length screen.old) text.now (model_of self.old) records.now) }
        ensures after { model_of self.new ≡ (scripted (length screen.old) text.now (model_of self.old) records.now).after }
        ensures painted { Keeps self.old (scale_of G.meaning H.scale meter.now) → screen.new ≡ script_screen (G.meaning meter.now.first.grammar) (length screen.old) text.now (model_of self.old) screen.old records.now }
        ensures keeps { let μ = scale_of G.meaning H.scale meter.now in Keeps self.old μ → Keeps self.new μ }
        ensures anyway { (buffer : List ℕ) (reading : _) → RecordByRecord (CarriedInText (G.meaning meter.now.first.grammar) text.now) text.now records.now (record { document = self.old; screen = screen.old; buffer = buffer; reading = reading }) (record { document = self.new; screen = screen.new; buffer = buffer; reading = reading }) }
        ensures records { let μ = scale_of G.meaning H.scale meter.now in (buffer : List ℕ) (reading : _) → Keeps self.old μ → RecordByRecord (CarriedTo (G.meaning meter.now.first.grammar) text.now (λ s. Keeps s.document μ)) text.now records.now (record { document = self.old; screen = screen.old; buffer = buffer; reading = reading }) (record { document = self.new; screen = screen.new; buffer = buffer; reading = reading }) }
    {
        let scripted = self.try_script(meter, screen, records, text);
        settle(scripted, pass, |done, pass| (done, pass))
    }

    // COLOURS: the classes of a range's bytes, at the front of a buffer.
    pub fn colours<G: Grammar, H: Meter<Reading = X>>(
        &self,
        meter: &DocumentMeter<G, H>,
        from: u32,
        to: u32,
        out: &mut [u8],
    ) -> Result<(), Refusal>
        ensures answer { result ≡ answered (range_refusal (model_of self.now) from to (length out.old)) tt }
        ensures anyway { OnOk result (FrontColoured (G.meaning meter.now.first.grammar) (text_of self.now) from to out.old out.new) }
        ensures written { OnOk result (Keeps self.now (scale_of G.meaning H.scale meter.now) → out.new ≡ with_front (between from to (colours_of (G.meaning meter.now.first.grammar) (text_of self.now))) out.old) }
        ensures same { OnErr result (out.new ≡ out.old) }
    {
        copy_colours(&self.tree, meter, from, to, out)
    }
}
