// The one function that writes a slot's place in the tree, and what it reads for that.
ghost use Rattle.std.specs.Prelude.{◌≡◌, ℕ, ◌+◌, ◌<◌, ◌≤◌, ◌++◌};
ghost use Rattle.chunks.specs.declared.side.Side.TheVariants.{Left};
ghost use Rattle.chunks.specs.Tree.{Tree, node as node_over, root, Level};
ghost use Rattle.slots.specs.Claim.{Claim, nothing, Says, Fair};
ghost use Rattle.slots.specs.View.{extent_of, text_of, Roomy, Usable};
ghost use Rattle.slots.specs.Holds.{Holds, Owned, Ready};
ghost use Rattle.slots.specs.Join.{Linked, PlacedAnew};

use meter::Meter;
use slots::memory::Memory;
use slots::slot::{Extent, Node};

// How large the tree is that a link leads to.
pub fn extent<R: Copy>(memory: &Memory<R>, link: Option<u16>) -> Extent
    requires { (Roomy memory.now) × (((t : Tree) × ((link ≡ root t) × Holds nothing memory.now t))) }
    ensures { (t : Tree) → link ≡ root t → Holds nothing memory.now t → result ≡ extent_of memory.now t }
{
    let slots = &*memory.slots;
    match link {
        None => Extent::NONE,
        Some(i) => slots[i as usize].node.extent,
    }
}

// The reading of all that lies left, in slot `i` and right.
// Here and below, `left`, `i` and `right` stay parameters: though `link` hands them on as they are,
// in a struct each clause would say `place.left`, `place.i` and `place.right`.
fn reading_of<R: Copy, M: Meter<Reading = R>>(
    meter: &M,
    memory: &Memory<R>,
    left: Option<u16>,
    i: u16,
    right: Option<u16>,
) -> R
    requires { (l : Tree) × ((r : Tree) × Ready memory.now left l i right r) }
    ensures { (l r : Tree) → Ready memory.now left l i right r → (w : Claim R) → Fair w (M.scale meter.now) → Holds w memory.now l → Holds w memory.now r → Owned w memory.now i → Says w result (text_of memory.now (node_over l i r)) }
{
    let slots = &*memory.slots;
    let readings = &*memory.readings;
    let own = &slots[i as usize].own;
    let front = match left {
        Some(l) => meter.join(&readings[l as usize], own),
        None => *own,
    };
    match right {
        Some(r) => meter.join(&front, &readings[r as usize]),
        None => front,
    }
}

// How large the tree is that slot `i` makes with two others.
fn extent_over<R: Copy>(memory: &Memory<R>, left: Option<u16>, i: u16, right: Option<u16>) -> Extent
    requires { (l : Tree) × ((r : Tree) × Ready memory.now left l i right r) }
    ensures { (l r : Tree) → Ready memory.now left l i right r → result ≡ extent_of memory.now (node_over l i r) }
{
    let before = extent(memory, left);
    let behind = extent(memory, right);
    let slots = &*memory.slots;
    let size = slots[i as usize].size as u32;
    Extent {
        height: 1 + before.height.max(behind.height),
        bytes: before.bytes + size + behind.bytes,
        chunks: before.chunks + 1 + behind.chunks,
    }
}

// Writes the place of slot `i` and the reading of what lies under it.
fn place<R: Copy>(memory: &mut Memory<R>, i: u16, node: Node, sum: R)
    requires { Usable memory.old i }
    ensures { PlacedAnew memory.old i node sum memory.new }
{
    memory.slots[i as usize].node = node;
    memory.readings[i as usize] = sum;
}

// Puts slot `i` between two trees that are level.
pub fn link<R: Copy, M: Meter<Reading = R>>(
    meter: &M,
    memory: &mut Memory<R>,
    left: Option<u16>,
    i: u16,
    right: Option<u16>,
)
    requires { (l : Tree) × ((r : Tree) × (Ready memory.old left l i right r × Level l r)) }
    ensures { (l r : Tree) → Ready memory.old left l i right r → Level l r → Linked (M.scale meter.now) Left memory.old l i r memory.new }
{
    let sum = reading_of(meter, memory, left, i, right);
    let extent = extent_over(memory, left, i, right);
    place(
        memory,
        i,
        Node {
            left,
            right,
            extent,
        },
        sum,
    );
}
