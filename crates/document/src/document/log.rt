// Calls carried out one after another, and the law over logs of calls.
ghost use Rattle.std.specs.Prelude.{◌≡◌, min, List, ◌∷◌, length, is_ok, MatchResult, if◌then◌else◌, OnErr, OnOk};
ghost use Rattle.std.specs.List.{between};
ghost use Rattle.automaton.specs.Walk.{colours as colours_of};
ghost use Rattle.model.specs.Calls.{answered, range_refusal, with_front};
ghost use Rattle.model.specs.SomeWalk.{FrontColoured};
ghost use Rattle.editing.specs.Content.{scale_of};
ghost use Rattle.document.specs.Content.{model_of, text as text_of, Keeps};
ghost use Rattle.document.specs.Snapshot.{Snapshot, seen, SameDesk};
ghost use Rattle.document.specs.Log.{Entry, Obeys, ByRecords, ObeysInText, latest, Follows};

use crate::call::{Answer, Call};
use crate::desk::Desk;
use crate::document::Document;
use editing::Readings;
use grammar::Grammar;
use meter::Meter;
use model::Refusal;
use walks::DocumentMeter;

// The answer of a call, by how it came out.
fn told<T, F: FnOnce(T) -> Answer>(outcome: Result<T, Refusal>, answer: F) -> Answer
    requires { F.IsAlwaysCallable answer }
    ensures { MatchResult outcome (λ value. F.post answer value result) (λ refusal. result ≡ Answer.Refused refusal) }
{
    outcome.map_or_else(Answer::Refused, answer)
}

impl<R: Copy> Document<'_, R> {
    // TEXT, to the front of a buffer of which so many cells may be used.
    fn text_within(&self, from: u32, to: u32, room: usize, buffer: &mut [u8]) -> Result<(), Refusal>
        ensures answer { result ≡ answered (range_refusal (model_of self.now) from to (min room (length buffer.old))) tt }
        ensures written { buffer.new ≡ (if is_ok result then with_front (between from to (text_of self.now)) buffer.old else buffer.old) }
    {
        // The same line stands in `colours_within`: a function that lends the front would need a clause about the loan, which is longer.
        let cells = room.min(buffer.len());
        self.text(from, to, &mut buffer[..cells])
    }
}

impl<X: Copy> Document<'_, Readings<X>> {
    // COLOURS, to the front of a buffer of which so many cells may be used.
    fn colours_within<G: Grammar, H: Meter<Reading = X>>(
        &self,
        meter: &DocumentMeter<G, H>,
        from: u32,
        to: u32,
        room: usize,
        buffer: &mut [u8],
    ) -> Result<(), Refusal>
        ensures answer { result ≡ answered (range_refusal (model_of self.now) from to (min room (length buffer.old))) tt }
        ensures anyway { OnOk result (FrontColoured (G.meaning meter.now.first.grammar) (text_of self.now) from to buffer.old buffer.new) }
        ensures written { OnOk result (Keeps self.now (scale_of G.meaning H.scale meter.now) → buffer.new ≡ with_front (between from to (colours_of (G.meaning meter.now.first.grammar) (text_of self.now))) buffer.old) }
        ensures same { OnErr result (buffer.new ≡ buffer.old) }
    {
        let cells = room.min(buffer.len());
        self.colours(meter, from, to, &mut buffer[..cells])
    }

    // Carries a call out, on what is lent to it.
    fn carry_out<G: Grammar, H: Meter<Reading = X>>(
        &mut self,
        meter: &DocumentMeter<G, H>,
        desk: &mut Desk<Readings<X>>,
        call: Call,
    ) -> Answer
        ensures obeys { let μ = scale_of G.meaning H.scale meter.now in Keeps self.old μ → Obeys (G.meaning meter.now.first.grammar) μ (seen self.old desk.old) (record { call = call.entry; answer = result; after = seen self.new desk.new }) }
        ensures anyway { ObeysInText (G.meaning meter.now.first.grammar) (seen self.old desk.old) (record { call = call.entry; answer = result; after = seen self.new desk.new }) }
        ensures keeps { let μ = scale_of G.meaning H.scale meter.now in Keeps self.old μ → Keeps self.new μ }
        ensures records { let μ = scale_of G.meaning H.scale meter.now in Keeps self.old μ → ByRecords (G.meaning meter.now.first.grammar) (λ s. Keeps s.document μ) (seen self.old desk.old) call.entry (seen self.new desk.new) }
        ensures lent { SameDesk desk.old desk.new }
    {
        let pass = |()| Answer::Pass;
        let written = |()| Answer::Written;
        match call {
            Call::Size => {
                let (bytes, chunks, height) = self.size();
                Answer::Size {
                    bytes,
                    chunks,
                    height,
                }
            }
            Call::Open { states } => told(self.try_open(states), pass),
            Call::Edit { from, to, bytes } => {
                told(self.try_edit(meter, from, to, bytes), Answer::Due)
            }
            Call::Paint { change } => told(self.try_paint(meter, change, desk.screen), pass),
            Call::Script { records, text } => self
                .try_script(meter, desk.screen, records, text)
                .map_or_else(Answer::RecordRefused, Answer::Done),
            Call::Close => told(self.no_due(), |()| Answer::Closed),
            Call::Text { from, to, room } => {
                told(self.text_within(from, to, room, desk.buffer), written)
            }
            Call::Colours { from, to, room } => {
                told(
                    self.colours_within(meter, from, to, room, desk.buffer),
                    written,
                )
            }
            Call::Range { from, to } => told(self.range(meter, from, to, desk.reading), written),
            Call::Same { place, bytes } => told(self.same(place, bytes), Answer::Begins),
            Call::Place { place } => told(self.place(meter, place), |(line, column)| {
                Answer::Position { line, column }
            }),
            Call::Spot { line, column } => told(self.spot(meter, line, column), Answer::Spot),
            Call::Partner { place } => told(self.partner(meter, place), Answer::Partner),
        }
    }

    // Carries a call out. Take any log of this document since it was new that is lawful so far: it is lawful with this call too.
    pub fn perform<G: Grammar, H: Meter<Reading = X>>(
        &mut self,
        meter: &DocumentMeter<G, H>,
        desk: &mut Desk<Readings<X>>,
        call: Call,
    ) -> Answer
        ensures obeys { let μ = scale_of G.meaning H.scale meter.now in Keeps self.old μ → Obeys (G.meaning meter.now.first.grammar) μ (seen self.old desk.old) (record { call = call.entry; answer = result; after = seen self.new desk.new }) }
        ensures anyway { ObeysInText (G.meaning meter.now.first.grammar) (seen self.old desk.old) (record { call = call.entry; answer = result; after = seen self.new desk.new }) }
        ensures keeps { let μ = scale_of G.meaning H.scale meter.now in Keeps self.old μ → Keeps self.new μ }
        ensures law { let μ = scale_of G.meaning H.scale meter.now in (first : Snapshot _) (log : List (Entry _)) → Follows (G.meaning meter.now.first.grammar) μ first log → latest first log ≡ seen self.old desk.old → Follows (G.meaning meter.now.first.grammar) μ first (record { call = call.entry; answer = result; after = seen self.new desk.new } ∷ log) }
        ensures lent { SameDesk desk.old desk.new }
    {
        self.carry_out(meter, desk, call)
    }
}
