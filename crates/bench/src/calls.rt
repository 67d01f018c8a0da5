// Times calls on a document with a short and with a long text: keystrokes in its middle, each one byte more and then one byte less,
// and the questions.
use crate::host::{CELLS, Host, SLOTS};
use crate::timing::time;
use crate::{Pile, TEXT, pile};
use brackets::Partner;
use document::{Call, Desk, Document};
use load::{Room, UNREAD};
use meter::Blank;
use std::io;
use walks::document_meter;

const KEYS: u32 = 4_000;

// What an edit and its paint took, on the mean, in nanoseconds.
#[derive(Clone, Copy)]
struct Keystroke {
    edit: u128,
    paint: u128,
}

impl Host<'_, Pile> {
    // Types so many pieces of 64 bytes behind each other.
    fn fill(&mut self, pieces: u32) {
        self.perform(Call::Open { states: 18 });
        for k in 0..pieces.min(4096) {
            self.put(64 * k, &TEXT);
        }
    }

    // Keystrokes at a place: a byte put in, and taken out again.
    fn time_keys(&mut self, rt: &HostRuntime, place: u32) -> io::Result<Keystroke> {
        let mut edits = 0u128;
        let mut paints = 0u128;
        for round in 0..KEYS {
            let edit = time(rt, || {
                if round % 2 == 0 {
                    self.edit(place, place, b"x")
                } else {
                    self.edit(place, place.saturating_add(1), b"")
                }
            })?;
            let paint = time(rt, || self.paint(edit.value))?;
            edits = edits.saturating_add(edit.nanoseconds);
            paints = paints.saturating_add(paint.nanoseconds);
        }
        Ok(Keystroke {
            edit: edits / KEYS as u128,
            paint: paints / KEYS as u128,
        })
    }

    // The questions, asked of the middle, of both ends or of the whole text.
    fn report_questions(&self, rt: &HostRuntime) -> io::Result<()> {
        let document = &self.document;
        let meter = &self.meter;
        let bytes = self.bytes();
        let last = bytes.saturating_sub(1);
        report_question(rt, "place", || {
            document.place(meter, bytes / 2).unwrap_or((0, 0)).0
        })?;
        report_question(rt, "spot", || {
            document.spot(meter, bytes / 64, 9).unwrap_or(0)
        })?;
        report_question(rt, "partner of the first byte", || {
            place_of(document.partner(meter, 0).unwrap_or(None))
        })?;
        report_question(rt, "partner of the last byte", || {
            place_of(document.partner(meter, last).unwrap_or(None))
        })?;
        report_question(rt, "range of all but two bytes", || {
            let mut reading = UNREAD;
            let _ = document.range(meter, 1, last, &mut reading);
            bytes
        })?;
        report_question(rt, "same", || {
            u32::from(document.same(bytes / 2, b"light (").unwrap_or(false))
        })
    }
}

pub fn place_of(partner: Option<Partner>) -> u32 {
    partner.map_or(0, |partner| partner.place)
}

// What a question takes on the mean; something of each answer is used.
fn report_question<F: Fn() -> u32 + Drop>(rt: &HostRuntime, name: &str, ask: F) -> io::Result<()>
    requires { F.IsAlwaysCallable ask }
{
    let took = time(rt, || (0..KEYS).fold(0u32, |used, _| used.max(ask())))?;
    let each = took.nanoseconds / KEYS as u128;
    let used = took.value;
    println!(rt; "  {name}: {each} ns ({used})")
}

// A keystroke, and the questions, in a text of so many pieces of 64 bytes.
pub fn report_keystroke(rt: &HostRuntime, pieces: u32) -> io::Result<()> {
    let mut room = Room::for_slots(rt.alloc(), SLOTS)?;
    let mut screen = vec![in rt.alloc(); 0; CELLS]?;
    let mut reading = UNREAD;
    let mut host = Host {
        document: Document::new(&mut room.slots, &mut room.store, &mut room.readings),
        meter: document_meter(pile(), Blank),
        desk: Desk {
            screen: &mut screen,
            buffer: &mut [],
            reading: &mut reading,
        },
    };
    host.fill(pieces);
    let (bytes, chunks, height) = host.document.size();
    host.put(0, b"(");
    let end = host.bytes();
    host.put(end, b")");
    host.report_questions(rt)?;
    let Keystroke { edit, paint } = host.time_keys(rt, bytes / 2)?;
    println!(rt;
        "keystroke in {bytes} bytes, {chunks} chunks, height {height}: edit {edit} ns, paint {paint} ns"
    )
}
