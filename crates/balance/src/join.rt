// Trees put together with a slot between them, by relinking no more than one path. Everything is done from either side.
ghost use Rattle.std.specs.Prelude.{◌≡◌, ℕ, suc, ◌+◌, ◌<◌, ◌≤◌, Some};
ghost use Rattle.chunks.specs.Tree.{Tree, root, height as height_of, Level};
ghost use Rattle.chunks.specs.Sides.{around};
ghost use Rattle.slots.specs.Claim.{nothing};
ghost use Rattle.slots.specs.View.{Roomy, Usable};
ghost use Rattle.slots.specs.Holds.{Holds, Ready};
ghost use Rattle.slots.specs.Join.{Linked, Joined, Settled, Leaning, Steep, Grown};

use crate::link::{extent, link};
use chunks::Side;
use meter::Meter;
use slots::memory::Memory;

// What slot `i` has on a side.
pub fn child<R: Copy>(memory: &Memory<R>, i: u16, side: Side) -> Option<u16>
    requires { Usable memory.now i }
    ensures { (a b : Tree) → Holds nothing memory.now (around side a i b) → result ≡ root a }
{
    let slots = &*memory.slots;
    match side {
        Side::Left => slots[i as usize].node.left,
        Side::Right => slots[i as usize].node.right,
    }
}

// Puts slot `i` between two level trees, `near` on the given side.
// Here and below, `near`, `i` and `far` stay parameters: all calls but the two in `rotate` differ in them, so a struct would be written out at each.
// Nor is there a struct for what those two share: clauses would be a third to a half longer, with nine `lean.side` in the longest.
fn link_around<R: Copy, M: Meter<Reading = R>>(
    meter: &M,
    memory: &mut Memory<R>,
    side: Side,
    near: Option<u16>,
    i: u16,
    far: Option<u16>,
)
    requires { (a : Tree) × ((b : Tree) × (Ready memory.old near a i far b × Level a b)) }
    ensures { (a b : Tree) → Ready memory.old near a i far b → Level a b → Linked (M.scale meter.now) side memory.old a i b memory.new }
{
    match side {
        Side::Left => link(meter, memory, near, i, far),
        Side::Right => link(meter, memory, far, i, near),
    }
}

// Slot `k` leans to the side, and its outer tree is the higher: `k` stays on top.
fn rotate_once<R: Copy, M: Meter<Reading = R>>(
    meter: &M,
    memory: &mut Memory<R>,
    side: Side,
    outer: Option<u16>,
    k: u16,
    inner: Option<u16>,
    i: u16,
    short: Option<u16>,
)
    requires { (o : Tree) × ((n : Tree) × ((b : Tree) × (Leaning memory.old side outer o k inner n i short b × (height_of n ≤ height_of o)))) }
    ensures { (o n b : Tree) → Leaning memory.old side outer o k inner n i short b → height_of n ≤ height_of o → Joined (M.scale meter.now) side memory.old (around side o k n) i b memory.new (around side o k (around side n i b)) }
{
    link_around(meter, memory, side, inner, i, short);
    link_around(meter, memory, side, outer, k, Some(i));
}

// Slot `k` leans to the side, and its inner tree is the higher: that tree's top `j` goes to the top of all.
fn rotate_twice<R: Copy, M: Meter<Reading = R>>(
    meter: &M,
    memory: &mut Memory<R>,
    side: Side,
    outer: Option<u16>,
    k: u16,
    j: u16,
    i: u16,
    short: Option<u16>,
)
    requires { (o : Tree) × ((x : Tree) × ((y : Tree) × ((b : Tree) × (Leaning memory.old side outer o k (Some j) (around side x j y) i short b × (height_of o < height_of (around side x j y)))))) }
    ensures { (o x y b : Tree) → Leaning memory.old side outer o k (Some j) (around side x j y) i short b → height_of o < height_of (around side x j y) → Joined (M.scale meter.now) side memory.old (around side o k (around side x j y)) i b memory.new (around side (around side o k x) j (around side y i b)) }
{
    let near = child(memory, j, side);
    let far = child(memory, j, side.other());
    link_around(meter, memory, side, outer, k, near);
    link_around(meter, memory, side, far, i, short);
    link_around(meter, memory, side, Some(k), j, Some(i));
}

// The top of a tree, where it is higher than another by more than `by`.
fn top_if_higher<R: Copy>(
    memory: &Memory<R>,
    tree: Option<u16>,
    than: Option<u16>,
    by: u8,
) -> Option<u16>
    requires roomy { Roomy memory.now }
    requires tree { (n : Tree) × ((tree ≡ root n) × Holds nothing memory.now n) }
    requires than { (o : Tree) × ((than ≡ root o) × Holds nothing memory.now o) }
    ensures { (n o : Tree) → tree ≡ root n → than ≡ root o → Holds nothing memory.now n → Holds nothing memory.now o → Steep n o by result }
{
    let height = extent(memory, tree).height;
    if height.saturating_sub(extent(memory, than).height) > by {
        tree
    } else {
        None
    }
}

// Puts slot `i` between the tree of `tall`, on the given side, and one that is two lower; gives the slot on top.
fn rotate<R: Copy, M: Meter<Reading = R>>(
    meter: &M,
    memory: &mut Memory<R>,
    side: Side,
    tall: u16,
    i: u16,
    short: Option<u16>,
) -> u16
    requires { (a : Tree) × ((b : Tree) × (Ready memory.old (Some tall) a i short b × (height_of a ≡ suc (suc (height_of b))))) }
    ensures { (a b : Tree) → Ready memory.old (Some tall) a i short b → height_of a ≡ suc (suc (height_of b)) → (t : Tree) × ((Some result ≡ root t) × Joined (M.scale meter.now) side memory.old a i b memory.new t) }
{
    let outer = child(memory, tall, side);
    let inner = child(memory, tall, side.other());
    match top_if_higher(memory, inner, outer, 0) {
        Some(j) => {
            rotate_twice(meter, memory, side, outer, tall, j, i, short);
            j
        }
        None => {
            rotate_once(meter, memory, side, outer, tall, inner, i, short);
            tall
        }
    }
}

// Puts slot `i` between two trees of which `far` may have grown to be two higher; gives the slot on top.
fn settle<R: Copy, M: Meter<Reading = R>>(
    meter: &M,
    memory: &mut Memory<R>,
    side: Side,
    near: Option<u16>,
    i: u16,
    far: u16,
) -> u16
    requires { (a : Tree) × ((b : Tree) × Grown memory.old near a i (Some far) b) }
    ensures { (a b : Tree) → Grown memory.old near a i (Some far) b → (t : Tree) × ((Some result ≡ root t) × Settled (M.scale meter.now) side memory.old a i b memory.new t) }
{
    if top_if_higher(memory, Some(far), near, 1).is_some() {
        rotate(meter, memory, side.other(), far, i, near)
    } else {
        link_around(meter, memory, side, near, i, Some(far));
        i
    }
}

// Puts slot `i` between two trees of any heights, `near` on the given side; gives the slot on top.
pub fn join<R: Copy, M: Meter<Reading = R>>(
    meter: &M,
    memory: &mut Memory<R>,
    side: Side,
    near: Option<u16>,
    i: u16,
    far: Option<u16>,
) -> u16
    requires { (a : Tree) × ((b : Tree) × Ready memory.old near a i far b) }
    ensures { (a b : Tree) → Ready memory.old near a i far b → (t : Tree) × ((Some result ≡ root t) × Joined (M.scale meter.now) side memory.old a i b memory.new t) }
{
    if let Some(k) = top_if_higher(memory, near, far, 1) {
        let outer = child(memory, k, side);
        let inner = child(memory, k, side.other());
        let joined = join(meter, memory, side, inner, i, far);
        settle(meter, memory, side, outer, k, joined)
    } else if top_if_higher(memory, far, near, 1).is_some() {
        join(meter, memory, side.other(), far, i, near)
    } else {
        link_around(meter, memory, side, near, i, far);
        i
    }
}
