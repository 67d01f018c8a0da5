// The lent memory of a tree: slots, 64 bytes of store for each slot's chunk, and a reading for what lies under each slot.
use crate::slot::Slot;

// Slots name each other by number, and are no boxes: the memory is lent, and there is no heap.
// Slots, store and readings are three slices, and not one of structs, as a host lends them so.
// What memory holds is said in clauses (`Held`, `Ready`, `Whole`), and no value keeps it: two trees lie in one memory while one is cut or joined,
// and nothing in memory says which of them is meant, or which slot (`Usable`).
#[derive(Drop)]
pub struct Memory<'a, R> {
    pub slots: &'a mut [Slot<R>],
    pub store: &'a mut [u8],
    pub readings: &'a mut [R],
    // How many slots may be used, from slot 0 on.
    // That there is room for them (`Roomy`) and that the free ones are a stack (`Idle`) is no ghost field: `prepare` takes memory of which it is not so yet.
    pub usable: u16,
    // The first free slot.
    pub free: Option<u16>,
}
