// The tree of a text's chunks in lent memory. Whatever is called, memory holds one tree, and every other usable slot is free.
ghost use Rattle.slots.specs.Sound.{Sound};

use slots::memory::Memory;

pub mod calls;
pub mod making;
pub mod sized_spot;

#[derive(Drop)]
pub struct ChunkTree<'a, R> {
    memory: Memory<'a, R>,
    root: Option<u16>,
    ghost sound: { Sound memory root },
}
