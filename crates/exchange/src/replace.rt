// A run of chunks taken out of a tree, and the chunks that bytes are cut into put in.
ghost use Rattle.std.specs.Prelude.{◌≡◌, ℕ, ◌+◌, ◌-◌, ◌<◌, ◌≤◌, List, length};
ghost use Rattle.chunks.specs.Tree.{Tree};
ghost use Rattle.chunks.specs.Cut.{needed, cut, replaced};
ghost use Rattle.slots.specs.Replace.{Whole, Parted, SameSize, Removed, Filled};
ghost use Rattle.slots.specs.Sound.{Sound, Kept, chunks_in};

use crate::build::build;
use crate::cut::Cut;
use crate::free::give_back;
use balance::split::{append, split};
use meter::Meter;
use slots::memory::Memory;

// Takes the chunks from `from` up to `to` out and gives their slots back; gives what lies before and behind them.
// Here and in `exchange`, `from` and `to` stay parameters: the tree's `replace` is given them apart, and in a struct clauses would say `run.from` and `run.to`.
pub fn remove<R: Copy, M: Meter<Reading = R>>(
    meter: &M,
    memory: &mut Memory<R>,
    link: Option<u16>,
    from: u16,
    to: u16,
) -> (Option<u16>, Option<u16>)
    requires whole { (t : Tree) × ((is : List ℕ) × Whole memory.old link t is) }
    requires order { from ≤ to }
    ensures { (t : Tree) (is : List ℕ) → Whole memory.old link t is → (a : Tree) × ((b : Tree) × ((js : List ℕ) × (Parted memory.new result.0 a result.1 b js × Removed (M.scale meter.now) memory.old t from to memory.new a b))) }
{
    let (first, behind) = split(meter, memory, link, from);
    let (middle, rest) = split(meter, memory, behind, to - from);
    give_back(memory, middle);
    (first, rest)
}

// Puts the chunks that `bytes` are cut into between two trees.
pub fn insert<R: Copy, M: Meter<Reading = R>>(
    meter: &M,
    memory: &mut Memory<R>,
    first: Option<u16>,
    rest: Option<u16>,
    bytes: &[u8],
) -> Option<u16>
    requires { (a : Tree) × ((b : Tree) × ((is : List ℕ) × (Parted memory.old first a rest b is × (needed (length bytes.now) ≤ length is)))) }
    ensures { (a b : Tree) (is : List ℕ) → Parted memory.old first a rest b is → needed (length bytes.now) ≤ length is → (t : Tree) × ((js : List ℕ) × (Whole memory.new result t js × Filled (M.scale meter.now) memory.old a b bytes.now memory.new t)) }
{
    let cut = Cut::of(bytes);
    let middle = build(meter, memory, &cut, 0, cut.count);
    let front = append(meter, memory, first, middle);
    append(meter, memory, front, rest)
}

// Puts the chunks that `bytes` are cut into in the place of those from `from` up to `to`; gives the slot on top.
pub fn exchange<R: Copy, M: Meter<Reading = R>>(
    meter: &M,
    memory: &mut Memory<R>,
    link: Option<u16>,
    from: u16,
    to: u16,
    bytes: &[u8],
) -> Option<u16>
    requires sound { Sound memory.old link }
    requires order { from ≤ to }
    requires within { to ≤ length (chunks_in memory.old link) }
    requires room { length (chunks_in memory.old link) - (to - from) + needed (length bytes.now) ≤ memory.old.usable }
    ensures sound { Sound memory.new result }
    ensures chunks { chunks_in memory.new result ≡ replaced from to (cut bytes.now) (chunks_in memory.old link) }
    ensures keeps { Kept (M.scale meter.now) memory.old link → Kept (M.scale meter.now) memory.new result }
    ensures size { SameSize memory.old memory.new }
{
    let (first, rest) = remove(meter, memory, link, from, to);
    insert(meter, memory, first, rest, bytes)
}
