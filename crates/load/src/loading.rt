// Loads a text into a tree over lent memory: piece by piece, each put behind the chunks that are there.
ghost use Rattle.load.specs.Loading.{Answers, roomy};

use crate::loaded::Loaded;
use grammar::Grammar;
use meter::Blank;
use report::summarize;
use slots::slot::Slot;
use tree::ChunkTree;
use walks::{Readings, document_meter};

// What the document's meter reads, with a host that measures nothing.
pub type Reading = Readings<()>;

// How many bytes are put in at a time: 16 whole chunks.
const PIECE: usize = 1024;

// Nothing where the text needs more chunks than `usable`, or where lent memory has no room for as many slots.
// No struct: a host lends slots, store and readings apart, each with a length of its own, and a grammar colours any text.
pub fn load<G: Grammar + Copy>(
    grammar: &G,
    usable: u16,
    slots: &mut [Slot<Reading>],
    store: &mut [u8],
    readings: &mut [Reading],
    text: &[u8],
) -> Option<Loaded>
    ensures { Answers (roomy usable slots.old store.old readings.old) (G.Grammar.meaning grammar.now) usable text.now result }
{
    let meter = document_meter(*grammar, Blank);
    let mut tree = ChunkTree::new(slots, store, readings);
    tree.prepare(usable).ok()?;
    for piece in text.chunks(PIECE) {
        let end = tree.chunks();
        tree.replace(&meter, end, end, piece).ok()?;
    }
    let bytes = tree.bytes();
    let reading = tree.reading(&meter, 0, bytes);
    Some(Loaded {
        bytes,
        chunks: tree.chunks(),
        height: tree.height(),
        summary: summarize(&reading.first, &reading.second.first),
    })
}
