// Walk: a meter that walks a grammar through the bytes from every state, and keeps the brackets that stay unmatched.
ghost use Rattle.std.specs.Prelude.{◌≡◌, ◌≤◌, ◌<◌, map, length};
ghost use Rattle.automaton.specs.Automaton.{Automaton};
ghost use Rattle.measure.specs.Bounded.{longest};
ghost use Rattle.measure.specs.Walk.{walk_measure, rows, still as still_in, entry, entry_at, join_entries, led_on, through};
ghost use Rattle.measure.proofs.Walk.{walk_lawful};

use automaton::role::Role;
use grammar::{Grammar, role_of};
use measure::walk_reading::{Entry, Passage};
use meter::Meter;
use meter::limit::{LONGEST, length_within};
use std::array;

// Walks from all states are led on by so many bytes at a time: from many states they soon come into few.
const STRIDE: usize = 8;

#[derive(Clone, Copy)]
pub struct Walk<G> {
    pub grammar: G,
}

// Walks through nothing, from every state.
fn still_rows() -> [Entry; 64]
    ensures { result ≡ rows still_in }
{
    array::from_fn(
        |s|
            requires { s < 64 }
        { Entry::still(s as u8) },
    )
}

// Two walks, the second from where the first ends.
fn join_entries(first: &Entry, second: &Entry) -> Entry
    ensures { result ≡ join_entries first.now second.now }
{
    let matched = first.openings.min(second.closings);
    Entry {
        end: second.end,
        closings: first.closings.saturating_add(second.closings - matched),
        openings: second.openings.saturating_add(first.openings - matched),
    }
}

// The walks of a table and a passage, one behind the other, from the first `count` states.
fn join_rows(count: u8, left: &[Entry; 64], right: &Passage) -> [Entry; 64]
    requires { count ≤ 64 }
    ensures { result ≡ rows (through count left.now right.now.entries) }
{
    let mut entries = *left;
    for entry in entries[..count as usize].iter_mut() {
        *entry = join_entries(entry, &right.entry(entry.end));
    }
    entries
}

impl<G: Grammar> Walk<G> {
    // One walk through the bytes.
    fn walk_from(&self, state: u8, bytes: &[u8]) -> Entry
        requires { length bytes.now ≤ longest }
        ensures { result ≡ entry (G.Grammar.meaning self.now.grammar) state bytes.now }
    {
        let mut walked = Entry::still(state);
        for byte in bytes {
            let read = self.grammar.read(walked.end, *byte);
            match role_of(read.class, *byte) {
                Role::Plain => {}
                Role::Opening(_) => walked.openings += 1,
                Role::Closing(_) if walked.openings > 0 => walked.openings -= 1,
                Role::Closing(_) => walked.closings += 1,
            }
            walked.end = read.behind;
        }
        walked
    }

    // Leads walks on through the bytes. Neighbours that have come into one state are led on by one walk.
    fn lead_on(&self, walks: &mut [Entry], bytes: &[u8])
        requires { length bytes.now ≤ longest }
        ensures { walks.new ≡ map (led_on (G.Grammar.meaning self.now.grammar) bytes.now) walks.old }
    {
        let mut last: Option<(u8, Entry)> = None;
        for walk in walks.iter_mut() {
            let onward = match last {
                Some((from, onward)) if from == walk.end => onward,
                _ => self.walk_from(walk.end, bytes),
            };
            last = Some((walk.end, onward));
            *walk = join_entries(walk, &onward);
        }
    }

    // A walk through the bytes from every state; only those of the grammar move.
    fn walk_rows(&self, bytes: &[u8]) -> [Entry; 64]
        requires { length bytes.now ≤ longest }
        ensures { result ≡ rows (λ s. entry (G.Grammar.meaning self.now.grammar) s bytes.now) }
    {
        let count = self.grammar.count() as usize;
        let mut entries = still_rows();
        for stretch in bytes.chunks(STRIDE) {
            self.lead_on(&mut entries[..count], stretch);
        }
        entries
    }
}

impl<G: Grammar> Meter for Walk<G> {
    type Reading = Option<Passage>;

    ghost scale = { λ m. walk_measure (G.Grammar.meaning m.grammar) };

    ghost lawful = { λ m. walk_lawful (G.Grammar.meaning m.grammar) (G.Grammar.lawful m.grammar) };

    fn empty(&self) -> Option<Passage> {
        Some(Passage {
            length: 0,
            entries: still_rows(),
        })
    }

    fn single(&self, byte: u8) -> Option<Passage> {
        Some(Passage {
            length: 1,
            entries: self.walk_rows(&[byte]),
        })
    }

    fn join(&self, left: &Option<Passage>, right: &Option<Passage>) -> Option<Passage> {
        let (left, right) = (left.as_ref()?, right.as_ref()?);
        let length = length_within(left.length, right.length)?;
        Some(Passage {
            length,
            entries: join_rows(self.grammar.count(), &left.entries, right),
        })
    }

    fn measure(&self, bytes: &[u8]) -> Option<Passage> {
        if bytes.len() > LONGEST as usize {
            return None;
        }
        Some(Passage {
            length: bytes.len() as u32,
            entries: self.walk_rows(bytes),
        })
    }
}
