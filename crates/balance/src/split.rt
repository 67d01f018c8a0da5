// A tree cut in two at a chunk's border, and two trees put behind each other.
ghost use Rattle.std.specs.Prelude.{◌≡◌, ℕ, ◌+◌, ◌<◌, ◌≤◌};
ghost use Rattle.chunks.specs.Tree.{Tree, root};
ghost use Rattle.slots.specs.Split.{Held, Apart, Halved, Appended};

use crate::join::{child, join};
use crate::link::extent;
use chunks::Side;
use meter::Meter;
use slots::memory::Memory;

// Cuts a tree behind its first `at` chunks; gives both parts.
pub fn split<R: Copy, M: Meter<Reading = R>>(
    meter: &M,
    memory: &mut Memory<R>,
    link: Option<u16>,
    at: u16,
) -> (Option<u16>, Option<u16>)
    requires { (t : Tree) × Held memory.old link t }
    ensures { (t : Tree) → Held memory.old link t → (a : Tree) × ((b : Tree) × ((result.0 ≡ root a) × ((result.1 ≡ root b) × Halved (M.scale meter.now) memory.old t at memory.new a b))) }
{
    let Some(i) = link else {
        return (None, None);
    };
    let left = child(memory, i, Side::Left);
    let right = child(memory, i, Side::Right);
    let before = extent(memory, left).chunks;
    if at <= before {
        let (first, rest) = split(meter, memory, left, at);
        let joined = join(meter, memory, Side::Left, rest, i, right);
        (first, Some(joined))
    } else {
        let (first, rest) = split(meter, memory, right, at - before - 1);
        let joined = join(meter, memory, Side::Left, left, i, first);
        (Some(joined), rest)
    }
}

// Puts two trees behind each other.
pub fn append<R: Copy, M: Meter<Reading = R>>(
    meter: &M,
    memory: &mut Memory<R>,
    first: Option<u16>,
    rest: Option<u16>,
) -> Option<u16>
    requires { (a : Tree) × ((b : Tree) × Apart memory.old first a rest b) }
    ensures { (a b : Tree) → Apart memory.old first a rest b → (t : Tree) × ((result ≡ root t) × Appended (M.scale meter.now) memory.old a b memory.new t) }
{
    let count = extent(memory, first).chunks;
    if count == 0 {
        return rest;
    }
    let (front, last) = split(meter, memory, first, count - 1);
    Some(join(meter, memory, Side::Left, front, last.unwrap(), rest))
}
