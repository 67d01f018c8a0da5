// A whole log at once: a new document over lent memory, and calls carried out on it one after another.
ghost use Rattle.std.specs.Prelude.{◌≡◌, ℕ, min, List, length, take, drop};
ghost use Rattle.editing.specs.Content.{scale_of};
ghost use Rattle.document.specs.Content.{new_model};
ghost use Rattle.document.specs.Snapshot.{SameDesk};
ghost use Rattle.document.specs.Log.{lent_by, Replayed};

use crate::call::{Answer, Call};
use crate::desk::Desk;
use crate::document::Document;
use editing::Readings;
use grammar::Grammar;
use meter::Meter;
use slots::slot::Slot;
use walks::DocumentMeter;

// Carries out as many of the calls as there is room for answers, on a document made of the lent memory, and says how many that
// is. The log of these calls is lawful, whatever the calls are.
// Slots, store and readings are apart, as a host lends them: each has a length of its own, which OPEN looks at.
pub fn replay<X: Copy, G: Grammar, H: Meter<Reading = X>>(
    meter: &DocumentMeter<G, H>,
    slots: &mut [Slot<Readings<X>>],
    store: &mut [u8],
    readings: &mut [Readings<X>],
    desk: &mut Desk<Readings<X>>,
    calls: &[Call],
    answers: &mut [Answer],
) -> usize
    ensures count { result ≡ min (length calls.now) (length answers.old) }
    ensures rest { drop result answers.new ≡ drop result answers.old }
    ensures law { Replayed (G.meaning meter.now.first.grammar) (scale_of G.meaning H.scale meter.now) (new_model (length slots.old) (length store.old) (length readings.old)) (take result calls.now) (take result answers.new) (lent_by desk.old) (lent_by desk.new) }
    ensures lent { SameDesk desk.old desk.new }
{
    let mut document = Document::new(slots, store, readings);
    let mut left = calls.iter();
    // No `zip`: of what is written through an adapter of `iter_mut` nothing is known afterwards.
    for answer in answers.iter_mut() {
        let Some(call) = left.next() else { break };
        *answer = document.perform(meter, desk, *call);
    }
    calls.len().min(answers.len())
}
