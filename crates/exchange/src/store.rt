// Writing a chunk into a slot and its part of the store.
ghost use Rattle.std.specs.Prelude.{◌≡◌, ℕ, ◌+◌, ◌<◌, ◌≤◌, List, ◌∷◌};
ghost use Rattle.chunks.specs.Cut.{Chunk};
ghost use Rattle.slots.specs.View.{Usable};
ghost use Rattle.slots.specs.Free.{Idle, Written, Stored};

use crate::free::take;
use meter::Meter;
use slots::memory::Memory;
use slots::slot::{Node, Slot};

// Makes `bytes` the chunk of slot `i`, with its reading.
pub fn write<R: Copy>(memory: &mut Memory<R>, i: u16, bytes: &[u8], own: R)
    requires usable { Usable memory.old i }
    requires fits { Chunk bytes.now }
    ensures { Written memory.old i bytes.now own memory.new }
{
    memory.slots[i as usize] = Slot {
        node: Node::ALONE,
        size: bytes.len() as u8,
        next: None,
        own,
    };
    let at = 64 * i as usize;
    memory.store[at..at + bytes.len()].copy_from_slice(bytes);
}

// Takes a free slot for a chunk; there is one.
pub fn store_chunk<R: Copy, M: Meter<Reading = R>>(
    meter: &M,
    memory: &mut Memory<R>,
    bytes: &[u8],
) -> u16
    requires idle { (i : ℕ) × ((is : List ℕ) × Idle memory.old (i ∷ is)) }
    requires fits { Chunk bytes.now }
    ensures { (i : ℕ) (is : List ℕ) → Idle memory.old (i ∷ is) → (result ≡ i) × Stored (M.scale meter.now) memory.old i is bytes.now memory.new }
{
    let i = take(memory);
    let own = meter.measure(bytes);
    write(memory, i, bytes, own);
    i
}
