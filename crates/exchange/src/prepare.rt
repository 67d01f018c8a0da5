// Lent memory made ready: a number of slots usable, all of them free.
ghost use Rattle.std.specs.Prelude.{◌≡◌, ℕ, ◌+◌, ◌*◌, ◌<◌, ◌≤◌, [], length, None};
ghost use Rattle.slots.specs.View.{Roomy};
ghost use Rattle.slots.specs.Sound.{Sound, chunks_in, Kept};
ghost use Rattle.slots.specs.Prepare.{Prepared};

use crate::free::give;
use slots::memory::Memory;

// Makes the first `n` slots usable and free.
pub fn prepare<R: Copy>(memory: &mut Memory<R>, n: u16)
    requires few { n ≤ 4096 }
    requires slot_each { n ≤ length memory.old.slots.now }
    requires reading_each { n ≤ length memory.old.readings.now }
    requires store_each { 64 * n ≤ length memory.old.store.now }
    ensures { Prepared memory.old n memory.new }
{
    memory.usable = n;
    memory.free = None;
    for i in (0..n).rev() {
        give(memory, i);
    }
}
