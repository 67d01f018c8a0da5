// Memory that is made for a tree and let go behind it, and a text that is loaded into such memory.
ghost use Rattle.std.specs.Prelude.{IfOk};
ghost use Rattle.load.specs.Loading.{Answers, usual};
ghost use Rattle.load.specs.Room.{Holds, needed_for};

use crate::loaded::Loaded;
use crate::loading::{Reading, load};
use grammar::Grammar;
use measure::pair_reading::PairReading;
use slots::slot::{Node, Slot};
use std::alloc::{AllocError, Global};
use tree::Lent;

// What a reading is before anything was read.
pub const UNREAD: Reading = PairReading {
    first: None,
    second: PairReading {
        first: None,
        second: (),
    },
};

// A slot that was never used.
pub const UNUSED: Slot<Reading> = Slot {
    node: Node::ALONE,
    size: 0,
    next: None,
    own: UNREAD,
};

// What is lent to a tree: slots that were never used, a store of zeros, and readings of nothing.
#[derive(Drop)]
pub struct Room {
    pub slots: Vec<Slot<Reading>>,
    pub store: Vec<u8>,
    pub readings: Vec<Reading>,
}

impl Room {
    // So much of each.
    pub fn new(heap: Global, lent: Lent) -> Result<Room, AllocError>
        ensures { IfOk result (Holds lent) }
    {
        Ok(Room {
            slots: vec![in heap; UNUSED; lent.slots]?,
            store: vec![in heap; 0; lent.store]?,
            readings: vec![in heap; UNREAD; lent.readings]?,
        })
    }

    // As much of each as so many slots need.
    pub fn for_slots(heap: Global, slots: u16) -> Result<Room, AllocError>
        ensures { IfOk result (Holds (needed_for slots)) }
    {
        let slots = usize::from(slots);
        let lent = Lent {
            slots,
            store: 64 * slots,
            readings: slots,
        };
        Room::new(heap, lent)
    }
}

// Nothing where the text needs more chunks than `usable`, or where these are not 1 to 4,096.
pub fn load_text<G: Grammar + Copy>(
    heap: Global,
    grammar: &G,
    usable: u16,
    text: &[u8],
) -> Result<Option<Loaded>, AllocError>
    ensures { IfOk result (Answers (usual usable) (G.Grammar.meaning grammar.now) usable text.now) }
{
    let mut room = Room::for_slots(heap, usable)?;
    Ok(load(
        grammar,
        usable,
        &mut room.slots,
        &mut room.store,
        &mut room.readings,
        text,
    ))
}
