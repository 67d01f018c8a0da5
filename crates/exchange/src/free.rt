// Free slots, as a stack inside the slots: taking one, and giving those of a tree back.
ghost use Rattle.std.specs.Prelude.{◌≡◌, ℕ, ◌+◌, ◌<◌, ◌≤◌, List, ◌∷◌, Some};
ghost use Rattle.chunks.specs.Tree.{Tree};
ghost use Rattle.chunks.specs.Footprint.{one, uses, count, below};
ghost use Rattle.slots.specs.View.{next_of, Usable};
ghost use Rattle.slots.specs.Split.{Held};
ghost use Rattle.slots.specs.Free.{Idle, Stack, Elsewhere, freed};

use balance::join::child;
use chunks::Side;
use slots::memory::Memory;

// The free slot behind slot `i`.
fn next<R: Copy>(memory: &Memory<R>, i: u16) -> Option<u16>
    requires { Usable memory.now i }
    ensures { result ≡ next_of memory.now i }
{
    let slots = &*memory.slots;
    slots[i as usize].next
}

// Takes the first free slot; there is one.
#[tactic(auto, using(chunks::proofs::Footprint::first_below))]
pub fn take<R: Copy>(memory: &mut Memory<R>) -> u16
    requires { (i : ℕ) × ((is : List ℕ) × Idle memory.old (i ∷ is)) }
    ensures first { (i : ℕ) (is : List ℕ) → Idle memory.old (i ∷ is) → result ≡ i }
    ensures rest { memory.new.free ≡ next_of memory.old result }
    ensures slots { memory.new.slots.now ≡ memory.old.slots.now }
    ensures store { memory.new.store.now ≡ memory.old.store.now }
    ensures readings { memory.new.readings.now ≡ memory.old.readings.now }
    ensures usable { memory.new.usable ≡ memory.old.usable }
{
    let i = memory.free.unwrap();
    memory.free = next(memory, i);
    i
}

// Puts slot `i` on top of the free ones.
pub fn give<R: Copy>(memory: &mut Memory<R>, i: u16)
    requires { Usable memory.old i }
    ensures elsewhere { Elsewhere memory.old memory.new (one i) }
    ensures free { memory.new.free ≡ Some i }
    ensures next { next_of memory.new i ≡ memory.old.free }
    ensures store { memory.new.store.now ≡ memory.old.store.now }
    ensures readings { memory.new.readings.now ≡ memory.old.readings.now }
{
    memory.slots[i as usize].next = memory.free;
    memory.free = Some(i);
}

// Gives back all slots of a tree.
pub fn give_back<R: Copy>(memory: &mut Memory<R>, link: Option<u16>)
    requires { (t : Tree) × Held memory.old link t }
    ensures { (t : Tree) → Held memory.old link t → Elsewhere memory.old memory.new (uses t) × ((is : List ℕ) → Idle memory.old is → ((j : ℕ) → uses t j + count is j ≤ below memory.old.usable j) → Stack memory.new memory.new.free (freed t is)) }
{
    if let Some(i) = link {
        let left = child(memory, i, Side::Left);
        let right = child(memory, i, Side::Right);
        give_back(memory, left);
        give_back(memory, right);
        give(memory, i);
    }
}
