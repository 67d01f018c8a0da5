// The tree of the chunks that bytes are cut into.
ghost use Rattle.std.specs.Prelude.{◌≡◌, ℕ, ◌+◌, ◌<◌, ◌≤◌, List, length};
ghost use Rattle.chunks.specs.Tree.{Tree, root};
ghost use Rattle.chunks.specs.Cut.{needed, begin as begin_of, chunk_at, part};
ghost use Rattle.slots.specs.Free.{Idle, Built};

use crate::cut::Cut;
use crate::store::store_chunk;
use balance::join::join;
use chunks::Side;
use meter::Meter;
use slots::memory::Memory;

// Where the k-th of `count` chunks of so many bytes begins.
#[tactic(auto, unfolding(chunks::specs::Cut::begin))]
fn begin(bytes: usize, count: usize, k: usize) -> usize
    requires some { 0 < count }
    requires within { k ≤ count }
    ensures { result ≡ begin_of bytes count k }
{
    k * (bytes / count) + k.min(bytes % count)
}

// The k-th of the `count` chunks that `bytes` are cut into.
#[tactic(auto, using(chunks::proofs::Cut::begin_within, chunks::proofs::Cut::begin_grows))]
pub fn chunk(bytes: &[u8], count: usize, k: usize) -> &[u8]
    requires { k < count }
    ensures { result.now ≡ chunk_at bytes.now count k }
{
    let from = begin(bytes.len(), count, k);
    let to = begin(bytes.len(), count, k + 1);
    &bytes[from..to]
}

// The tree of `n` of the chunks, from the k-th on. Both sides of a slot have as many chunks, or nearly so.
pub fn build<R: Copy, M: Meter<Reading = R>>(
    meter: &M,
    memory: &mut Memory<R>,
    cut: &Cut,
    k: usize,
    n: usize,
) -> Option<u16>
    requires idle { (is : List ℕ) × (Idle memory.old is × (n ≤ length is)) }
    requires within { k + n ≤ cut.now.count }
    ensures { (is : List ℕ) → Idle memory.old is → n ≤ length is → (t : Tree) × ((result ≡ root t) × Built (M.scale meter.now) memory.old is n (part cut.now.bytes.now cut.now.count k n) memory.new t) }
{
    if n == 0 {
        return None;
    }
    let half = n / 2;
    let left = build(meter, memory, cut, k, half);
    let i = store_chunk(meter, memory, cut.chunk(k + half));
    let right = build(meter, memory, cut, k + half + 1, n - half - 1);
    Some(join(meter, memory, Side::Left, left, i, right))
}
