// Slots in lent memory: what a slot and a memory are, what it means that memory holds a tree, and the laws of that.
// The crates that link, exchange and question slots cite the definitions and the laws.

#![tactic(auto)]

pub mod memory;
pub mod slot;
