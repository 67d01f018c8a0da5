// A tree that memory holds, or a part of one: a link that leads to it. Its calls ask nothing of memory.
ghost use Rattle.questions.specs.Leads.{Leads};

use slots::memory::Memory;
use std::alloc::AllocError;

pub mod copying;
pub mod narrowing;
pub mod opening;
pub mod ranges;
pub mod same;
pub mod spots;

pub struct Subtree<'m, 'a, R> {
    memory: &'m Memory<'a, R>,
    link: Option<u16>,
    ghost leads: { Leads memory.now link },
}

// By hand: a derive would make it Copy for an `R: Copy` alone, and a derived Clone is refused over a ghost field.
impl<R> Copy for Subtree<'_, '_, R> {}

impl<R> Clone for Subtree<'_, '_, R> {
    fn clone(&self) -> Result<Self, AllocError> {
        Ok(*self)
    }
}

// What the top slot of a subtree has on its left, in its own chunk, and on its right; and the reading kept of that chunk.
#[derive(Drop)]
pub struct Parts<'m, 'a, R> {
    pub left: Subtree<'m, 'a, R>,
    pub chunk: &'m [u8],
    pub reading: &'m R,
    pub right: Subtree<'m, 'a, R>,
}
