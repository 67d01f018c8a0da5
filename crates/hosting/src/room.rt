// Memory that is made for a document, its screen, its buffer and its reading, and let go behind the session.
ghost use Rattle.std.specs.Prelude.{◌≡◌, IfOk};
ghost use Rattle.hosting.specs.Piles.{automaton_of};
ghost use Rattle.hosting.specs.Hosted.{pile_lent, Hosted};

use crate::host::Host;
use crate::options::Options;
use crate::piles::{Work, with_pile};
use document::{Desk, Document};
use grammar::Grammar;
use load::{Room, UNREAD};
use meter::Blank;
use std::alloc::Global;
use std::io::{BufRead, Result, Write};
use tree::Lent;
use walks::document_meter;

// How many cells the buffer has: as many as the longest text has bytes.
const BUFFER: usize = 262144;

#[derive(Drop)]
struct Session<'o, 'l, 'w, R, W> {
    heap: Global,
    options: &'o Options,
    lines: &'l mut R,
    out: &'w mut W,
}

impl<R: BufRead, W: Write> Work for Session<'_, '_, '_, R, W> {
    type Output = Result<bool>;

    // The session that was held, with the reader and the writer that were lent for it.
    ghost done = { λ s a t result. (t.lines.ghost_name ≡ s.lines.ghost_name) × (t.out.ghost_name ≡ s.out.ghost_name)
        × IfOk result (Hosted s.options.now a (R.remaining s.lines.now) (W.contents s.out.now) (W.contents t.out.now)) };

    fn run<G: Grammar + Copy>(&mut self, grammar: &G) -> Result<bool> {
        let meter = document_meter(*grammar, Blank);
        let heap = self.heap;
        let lent = Lent {
            slots: self.options.slots(),
            store: self.options.store(),
            readings: self.options.readings(),
        };
        let mut room = Room::new(heap, lent)?;
        let mut screen = vec![in heap; 0; self.options.screen()]?;
        let mut buffer = vec![in heap; 0; BUFFER]?;
        let mut reading = UNREAD;
        let mut document = Document::new(&mut room.slots, &mut room.store, &mut room.readings);
        let mut desk = Desk {
            screen: &mut screen,
            buffer: &mut buffer,
            reading: &mut reading,
        };
        let host = Host {
            heap,
            meter: &meter,
        };
        host.converse(&mut document, &mut desk, self.lines, self.out)
    }
}

// A session on a new document, under the pile and with the memory that the options say. Says whether every line could be read:
// a yes or no, as `converse` gives it.
pub fn run_session<R: BufRead, W: Write>(
    heap: Global,
    options: &Options,
    lines: &mut R,
    out: &mut W,
) -> Result<bool>
    ensures { IfOk result (Hosted options.now (automaton_of (pile_lent options.now)) (R.remaining lines.old) (W.contents out.old) (W.contents out.new)) }
{
    let mut session = Session {
        heap,
        options,
        lines,
        out,
    };
    with_pile(options.pile(), &mut session)
}
