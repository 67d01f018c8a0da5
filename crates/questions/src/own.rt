// A slot's own chunk: of any slot that may be used, in a tree or free.
ghost use Rattle.std.specs.Prelude.{◌≡◌, ◌≤◌};
ghost use Rattle.slots.specs.View.{size_of, chunk_of, Usable};

use slots::memory::Memory;

// How many bytes it has.
pub fn size<R: Copy>(memory: &Memory<R>, i: u16) -> u8
    requires { Usable memory.now i }
    ensures { result ≡ size_of memory.now i }
{
    let slots = &*memory.slots;
    slots[i as usize].size
}

// Its bytes.
pub fn chunk<'m, R: Copy>(memory: &'m Memory<R>, i: u16) -> &'m [u8]
    requires usable { Usable memory.now i }
    requires fits { size_of memory.now i ≤ 64 }
    ensures { result.now ≡ chunk_of memory.now i }
{
    let store = &*memory.store;
    let from = 64 * i as usize;
    &store[from..from + size(memory, i) as usize]
}
