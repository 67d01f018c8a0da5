// As many chunks as there were, written over them in their slots; only the path to them is linked anew.
ghost use Rattle.std.specs.Prelude.{◌≡◌, ℕ, ◌+◌, ◌-◌, ◌^◌, ◌<◌, ◌≤◌, length};
ghost use Rattle.chunks.specs.Tree.{Tree, slots as slots_of};
ghost use Rattle.chunks.specs.Cut.{needed, cut, replaced};
ghost use Rattle.slots.specs.Replace.{SameSize};
ghost use Rattle.slots.specs.Sound.{Sound, Kept, chunks_in};
ghost use Rattle.slots.specs.View.{size_of, Usable};
ghost use Rattle.slots.specs.Split.{Held};
ghost use Rattle.slots.specs.Rewrite.{Renewed, Rewritten};

use balance::join::child;
use balance::link::{extent, link as link_anew};
use chunks::Side;
use exchange::cut::Cut;
use exchange::store::write;
use meter::Meter;
use slots::memory::Memory;

// Writes the chunk of slot `i`, which is in place `n`, anew, where the run from `from` on has that place.
fn renew<R: Copy, M: Meter<Reading = R>>(
    meter: &M,
    memory: &mut Memory<R>,
    i: u16,
    n: usize,
    cut: &Cut,
    from: usize,
)
    requires usable { Usable memory.old i }
    requires some_byte { 1 ≤ size_of memory.old i }
    requires few_bytes { size_of memory.old i ≤ 64 }
    requires few_chunks { from + cut.now.count < 2 ^ 64 }
    ensures { Renewed (M.scale meter.now) memory.old i n cut.now.bytes.now cut.now.count from (from + cut.now.count) memory.new }
{
    if let Some(k) = n.checked_sub(from)
        && k < cut.count
    {
        let new = cut.chunk(k);
        let own = meter.measure(new);
        write(memory, i, new, own);
    }
}

// Writes the chunks over those of the run from `from` on, in a tree whose first chunk is in place `n`.
pub fn rewrite<R: Copy, M: Meter<Reading = R>>(
    meter: &M,
    memory: &mut Memory<R>,
    link: Option<u16>,
    n: usize,
    cut: &Cut,
    from: usize,
)
    requires held { (t : Tree) × (Held memory.old link t × (n + length (slots_of t) < 2 ^ 63)) }
    requires few_chunks { from + cut.now.count < 2 ^ 63 }
    ensures { (t : Tree) → Held memory.old link t → Rewritten (M.scale meter.now) memory.old t n cut.now.bytes.now cut.now.count from (from + cut.now.count) memory.new }
{
    let Some(i) = link else {
        return;
    };
    let all = extent(memory, link).chunks as usize;
    let end = n + all;
    let to = from + cut.count;
    if end <= from || to <= n {
        return;
    }
    let left = child(memory, i, Side::Left);
    let right = child(memory, i, Side::Right);
    let at = n + extent(memory, left).chunks as usize;
    rewrite(meter, memory, left, n, cut, from);
    renew(meter, memory, i, at, cut, from);
    rewrite(meter, memory, right, at + 1, cut, from);
    link_anew(meter, memory, left, i, right);
}

// Writes the chunks that `bytes` are cut into over as many chunks from `from` on.
pub fn overwrite<R: Copy, M: Meter<Reading = R>>(
    meter: &M,
    memory: &mut Memory<R>,
    link: Option<u16>,
    from: u16,
    bytes: &[u8],
)
    requires sound { Sound memory.old link }
    requires within { from + needed (length bytes.now) ≤ length (chunks_in memory.old link) }
    ensures sound { Sound memory.new link }
    ensures chunks { chunks_in memory.new link ≡ replaced from (from + needed (length bytes.now)) (cut bytes.now) (chunks_in memory.old link) }
    ensures keeps { Kept (M.scale meter.now) memory.old link → Kept (M.scale meter.now) memory.new link }
    ensures size { SameSize memory.old memory.new }
{
    let cut = Cut::of(bytes);
    rewrite(meter, memory, link, 0, &cut, from as usize);
}
