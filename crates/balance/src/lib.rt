// Slots linked into a balanced tree: rotated, joined and split, by relinking no more than one path.
// Each function asks that memory holds what it is told.

#![tactic(auto)]

// Meter and memory go as two parameters: as one value, each clause would say `self.old.memory.now` for `memory.old`;
// a link stays a third, as two trees lie in one memory while one is cut or joined, and it says which.
pub mod join;
pub mod link;
pub mod split;
