// A chunk tree put together from lent memory.
ghost use Rattle.std.specs.Prelude.{◌≡◌, [], None};
ghost use Rattle.tree.specs.Public.{chunks_now};

use crate::chunk_tree::ChunkTree;
use slots::memory::Memory;
use slots::slot::Slot;

impl<'a, R: Copy> ChunkTree<'a, R> {
    // An empty tree over lent slots, store and readings; no slot is usable yet.
    // The three are apart, as a host lends them: each has a length of its own, which `prepare` looks at.
    pub fn new(
        slots: &'a mut [Slot<R>],
        store: &'a mut [u8],
        readings: &'a mut [R],
    ) -> ChunkTree<'a, R>
        ensures usable { result.memory.usable ≡ 0 }
        ensures chunks { chunks_now result ≡ [] }
        ensures slots { result.memory.slots.now ≡ slots.old }
        ensures store { result.memory.store.now ≡ store.old }
        ensures readings { result.memory.readings.now ≡ readings.old }
    {
        let memory = Memory {
            slots,
            store,
            readings,
            usable: 0,
            free: None,
        };
        ChunkTree { memory, root: None }
    }
}
