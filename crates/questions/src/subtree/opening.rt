// What memory says of a subtree: how large it is, the reading kept of it, its parts; and a range cut into those of the parts.
ghost use Rattle.std.specs.Prelude.{All, ◌≡◌, ℕ, ◌≤◌, length};
ghost use Rattle.slots.specs.Sound.{Kept, tree_of, chunks_in};
ghost use Rattle.measure.specs.Measure.{Measure};
ghost use Rattle.chunks.specs.Tree.{Balanced, height as height_of};
ghost use Rattle.chunks.specs.Cut.{Chunk};
ghost use Rattle.questions.specs.Leads.{Leads};
ghost use Rattle.questions.specs.Under.{tree_under, chunks_under, text_under, KeptUnder};
ghost use Rattle.questions.specs.Spans.{behind};
ghost use Rattle.questions.specs.Parted.{Parted, KeptAs};

use crate::own::chunk;
use crate::span::Span;
use crate::subtree::{Parts, Subtree};
use balance::link::extent;
use slots::memory::Memory;
use slots::slot::Extent;

impl<'m, 'a, R: Copy> Subtree<'m, 'a, R> {
    // The tree that a link leads to.
    pub fn new(memory: &'m Memory<'a, R>, link: Option<u16>) -> Subtree<'m, 'a, R>
        requires { Leads memory.now link }
        ensures memory { result.memory.now ≡ memory.now }
        ensures tree { tree_under result ≡ tree_of memory.now link }
        ensures chunks { chunks_under result ≡ chunks_in memory.now link }
        ensures keeps { (μ : Measure R) → Kept μ memory.now link → KeptUnder result μ }
    {
        Subtree { memory, link }
    }

    // How large it is.
    pub fn extent(self) -> Extent
        ensures height { result.height ≡ height_of (tree_under self.entry) }
        ensures bytes { result.bytes ≡ length (text_under self.entry) }
        ensures chunks { result.chunks ≡ length (chunks_under self.entry) }
        ensures balanced { Balanced (tree_under self.entry) }
        ensures low { height_of (tree_under self.entry) ≤ 16 }
        ensures usable { length (chunks_under self.entry) ≤ self.entry.memory.now.usable }
        ensures few { length (chunks_under self.entry) ≤ 4096 }
        ensures chunked { All Chunk (chunks_under self.entry) }
        ensures short { length (text_under self.entry) ≤ 262144 }
    {
        extent(self.memory, self.link)
    }

    // How many bytes it has.
    pub fn bytes(self) -> usize
        ensures is { result ≡ length (text_under self.entry) }
        ensures few { result ≤ 262144 }
    {
        self.extent().bytes as usize
    }

    // Its parts, where it is not empty.
    pub fn parts(self) -> Option<Parts<'m, 'a, R>>
        ensures { Parted self.entry result }
    {
        let i = self.link?;
        let memory = self.memory;
        let slots = &*memory.slots;
        let slot = &slots[i as usize];
        let left = Subtree {
            memory,
            link: slot.node.left,
        };
        let right = Subtree {
            memory,
            link: slot.node.right,
        };
        Some(Parts {
            left,
            chunk: chunk(memory, i),
            reading: &slot.own,
            right,
        })
    }

    // The reading kept of all of it, where it is not empty.
    pub fn kept(self) -> Option<&'m R>
        ensures { KeptAs self.entry result }
    {
        let i = self.link?;
        let memory = self.memory;
        let readings = &*memory.readings;
        Some(&readings[i as usize])
    }
}

impl<R: Copy> Parts<'_, '_, R> {
    // What a range takes of the own chunk, and of what lies on the right; of the left it takes the same places.
    pub fn cut(&self, span: Span) -> (Span, Span)
        ensures own { result.0 ≡ behind (length (text_under self.now.left)) span }
        ensures rest { result.1 ≡ behind (length self.now.chunk.now) result.0 }
    {
        let own = span.behind(self.left.bytes());
        (own, own.behind(self.chunk.len()))
    }
}
