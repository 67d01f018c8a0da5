// Medians in scenes of three sizes: keystrokes and pastes, deleting all, the questions and a script.
// Writes one line for each thing measured: the text's size, what was done, the median in nanoseconds and, for a question, its answer.
use crate::calls::place_of;
use crate::host::{CELLS, Host, SLOTS};
use crate::scenes::{checksum, scene};
use crate::timing::{Samples, time};
use crate::{Pile, pile};
use document::{Call, Desk, Document};
use grammar::{Grammar, Words};
use layers::Region;
use load::{Room, UNREAD};
use meter::Blank;
use model::Replacement;
use std::alloc::{AllocError, Global};
use std::io;
use walks::document_meter;

// The longest leaves room for a paste: 4,096 slots hold 262,144 bytes at most.
const SIZES: [usize; 3] = [4_096, 32_768, 260_096];

// How many letters are typed in a row, and taken out again.
const ROW: u32 = 32;

// How many records a script has.
const RECORDS: u32 = 100;

// A question is asked so many times for one sample, since a single one is short beside a look at the clock.
const ASKED: u32 = 100;

// What is sampled of an edit and its paint.
#[derive(Drop)]
struct Keystrokes {
    edits: Samples,
    paints: Samples,
    both: Samples,
}

impl Keystrokes {
    fn new(heap: Global) -> Keystrokes {
        Keystrokes {
            edits: Samples::new(heap),
            paints: Samples::new(heap),
            both: Samples::new(heap),
        }
    }

    fn report(&mut self, rt: &HostRuntime, size: usize, what: &str) -> io::Result<()> {
        let edit = self.edits.median()?;
        let paint = self.paints.median()?;
        let both = self.both.median()?;
        println!(rt; "{size} {what}-edit {edit}\n{size} {what}-paint {paint}\n{size} {what} {both}")
    }
}

// The start of the first line that begins behind the middle.
fn middle_line(text: &[u8]) -> usize {
    let middle = text.len() / 2;
    text.iter()
        .skip(middle)
        .position(|byte| *byte == b'\n')
        .map_or(
            middle,
            |behind| middle.saturating_add(behind).saturating_add(1),
        )
}

// Letters put in one behind the other from a place on, each the first byte of the script's text; or as many taken out there.
fn row_of_records(heap: Global, place: u32, taken: bool) -> Result<Vec<Replacement>, AllocError> {
    let mut records = Vec::new(heap);
    for k in 0..RECORDS {
        let at = place.saturating_add(k);
        records.push(if taken {
            Replacement {
                from: place,
                to: place.saturating_add(1),
                start: 0,
                end: 0,
            }
        } else {
            Replacement {
                from: at,
                to: at,
                start: 0,
                end: 1,
            }
        })?;
    }
    Ok(records)
}

// The median for a question; something of each answer is used.
fn report_question<F: Fn() -> u32 + Drop>(
    rt: &HostRuntime,
    size: usize,
    what: &str,
    ask: F,
) -> io::Result<()>
    requires { F.IsAlwaysCallable ask }
{
    let mut samples = Samples::new(rt.alloc());
    let mut used = 0u32;
    for _ in 0..101 {
        let took = time(rt, || (0..ASKED).fold(0u32, |used, _| used.max(ask())))?;
        samples.add(took.nanoseconds / ASKED as u128)?;
        used = used.max(took.value);
    }
    let median = samples.median()?;
    println!(rt; "{size} {what} {median} {used}")
}

impl<G: Grammar> Host<'_, G> {
    // One edit and its paint.
    fn sample(
        &mut self,
        rt: &HostRuntime,
        samples: &mut Keystrokes,
        from: u32,
        to: u32,
        bytes: &[u8],
    ) -> io::Result<()> {
        let edit = time(rt, || self.edit(from, to, bytes))?;
        let paint = time(rt, || self.paint(edit.value))?;
        samples.edits.add(edit.nanoseconds)?;
        samples.paints.add(paint.nanoseconds)?;
        samples
            .both
            .add(edit.nanoseconds.saturating_add(paint.nanoseconds))?;
        Ok(())
    }

    // Letters typed in a row and taken out again, from the last one back.
    fn report_letters(&mut self, rt: &HostRuntime, size: usize, place: u32) -> io::Result<()> {
        let mut samples = Keystrokes::new(rt.alloc());
        for _ in 0..50 {
            for k in 0..ROW {
                let at = place.saturating_add(k);
                self.sample(rt, &mut samples, at, at, b"x")?;
            }
            for k in (0..ROW).rev() {
                let at = place.saturating_add(k);
                self.sample(rt, &mut samples, at, at.saturating_add(1), b"")?;
            }
        }
        samples.report(rt, size, "letter")
    }

    // A mark put in at a place, and taken out again.
    fn report_mark(
        &mut self,
        rt: &HostRuntime,
        size: usize,
        what: &str,
        place: u32,
        mark: &[u8],
        rounds: u32,
    ) -> io::Result<()> {
        let mut samples = Keystrokes::new(rt.alloc());
        for _ in 0..rounds {
            self.sample(rt, &mut samples, place, place, mark)?;
            self.sample(rt, &mut samples, place, place.saturating_add(1), b"")?;
        }
        samples.report(rt, size, what)
    }

    // Bytes put in at a place; they are taken out again, which is not timed.
    fn report_paste(
        &mut self,
        rt: &HostRuntime,
        size: usize,
        place: u32,
        bytes: &[u8],
    ) -> io::Result<()> {
        let mut samples = Keystrokes::new(rt.alloc());
        let behind = place.saturating_add(bytes.len().min(CELLS) as u32);
        for _ in 0..200 {
            self.sample(rt, &mut samples, place, place, bytes)?;
            let change = self.edit(place, behind, b"");
            self.paint(change);
        }
        samples.report(rt, size, "paste")
    }

    // All of the text taken out; it is put in again, which is not timed.
    fn report_delete_all(&mut self, rt: &HostRuntime, size: usize, text: &[u8]) -> io::Result<()> {
        let mut samples = Keystrokes::new(rt.alloc());
        for _ in 0..11 {
            let bytes = self.bytes();
            self.sample(rt, &mut samples, 0, bytes, b"")?;
            self.load(text);
        }
        samples.report(rt, size, "delete-all")
    }

    // A script that types letters in a row, and one that takes them out.
    fn report_script(&mut self, rt: &HostRuntime, size: usize, place: u32) -> io::Result<()> {
        let typed = row_of_records(rt.alloc(), place, false)?;
        let taken = row_of_records(rt.alloc(), place, true)?;
        let mut samples = Samples::new(rt.alloc());
        for _ in 0..20 {
            for records in [&typed, &taken] {
                let took = time(
                    rt,
                    || self.perform(Call::Script {
                        records,
                        text: b"x",
                    }),
                )?;
                samples.add(took.nanoseconds)?;
            }
        }
        let median = samples.median()?;
        println!(rt; "{size} script {median}")
    }

    // PARTNER of the first and of the last byte, across the whole text.
    fn report_partners(&self, rt: &HostRuntime, size: usize, last: u32) -> io::Result<()> {
        let document = &self.document;
        let meter = &self.meter;
        report_question(
            rt,
            size,
            "partner",
            || place_of(document.partner(meter, 0).unwrap_or(None)),
        )?;
        report_question(
            rt,
            size,
            "partner-back",
            || place_of(document.partner(meter, last).unwrap_or(None)),
        )
    }

    // The questions at the far end, across the whole text and in the middle.
    fn report_asked(&self, rt: &HostRuntime, size: usize, text: &[u8]) -> io::Result<()> {
        let document = &self.document;
        let meter = &self.meter;
        let bytes = self.bytes();
        let last = bytes.saturating_sub(1);
        let middle = (bytes / 2).saturating_add(7);
        let start = middle as usize;
        let piece = text.get(start..start.saturating_add(64)).unwrap_or(&[]);
        // The last line but one: behind it a look at the whole tree would do.
        let (lines, _) = document.place(meter, bytes).unwrap_or((0, 0));
        let line = lines.saturating_sub(1);
        report_question(
            rt,
            size,
            "place",
            || document.place(meter, last).unwrap_or((0, 0)).0,
        )?;
        report_question(
            rt,
            size,
            "spot",
            || document.spot(meter, line, 9).unwrap_or(0),
        )?;
        self.report_partners(rt, size, last)?;
        report_question(rt, size, "range", || {
            let mut reading = UNREAD;
            let _ = document.range(meter, 0, last, &mut reading);
            reading.second.first.map_or(0, |extent| extent.length)
        })?;
        report_question(rt, size, "same", || {
            u32::from(document.same(middle, piece).unwrap_or(false))
        })
    }
}

// All that is measured under the pile of scenes.
fn report_scene(rt: &HostRuntime, text: &[u8]) -> io::Result<()> {
    let mut room = Room::for_slots(rt.alloc(), SLOTS)?;
    let mut screen = vec![in rt.alloc(); 0; CELLS]?;
    let mut reading = UNREAD;
    let mut host: Host<Pile> = Host {
        document: Document::new(&mut room.slots, &mut room.store, &mut room.readings),
        meter: document_meter(pile(), Blank),
        desk: Desk {
            screen: &mut screen,
            buffer: &mut [],
            reading: &mut reading,
        },
    };
    let size = text.len();
    let place = middle_line(text).min(CELLS) as u32;
    host.perform(Call::Open { states: 18 });
    host.load(text);
    host.report_asked(rt, size, text)?;
    host.report_letters(rt, size, place)?;
    host.report_mark(rt, size, "quote", place, b"\"", 500)?;
    host.report_paste(rt, size, place, text.get(1..1025).unwrap_or(&[]))?;
    host.report_script(rt, size, place)?;
    host.report_delete_all(rt, size, text)
}

// A region opened in front of the text, and closed again: all is coloured anew.
fn report_region(rt: &HostRuntime, text: &[u8]) -> io::Result<()> {
    let mut room = Room::for_slots(rt.alloc(), SLOTS)?;
    let mut screen = vec![in rt.alloc(); 0; CELLS]?;
    let mut reading = UNREAD;
    let mut host: Host<Region<Words, Words>> = Host {
        document: Document::new(&mut room.slots, &mut room.store, &mut room.readings),
        meter: document_meter(
            Region {
                below: Words,
                inner: Words,
            },
            Blank,
        ),
        desk: Desk {
            screen: &mut screen,
            buffer: &mut [],
            reading: &mut reading,
        },
    };
    host.perform(Call::Open { states: 12 });
    host.load(text);
    host.report_mark(rt, text.len(), "region", 0, b"`", 50)
}

pub fn report_sizes(rt: &HostRuntime) -> io::Result<()> {
    for size in SIZES {
        let text = scene(rt.alloc(), size)?;
        println!(rt; "{size} checksum {}", checksum(&text))?;
        report_scene(rt, &text)?;
        report_region(rt, &text)?;
    }
    Ok(())
}
