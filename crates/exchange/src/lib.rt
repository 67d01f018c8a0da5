// Chunks exchanged in a tree: free slots taken and given back, chunks stored, built into a tree, taken out and put in.
// Each function asks that memory holds what it is told; the crate `tree` wraps them so that no call asks anything.

#![tactic(auto)]

// Meter and memory go as two parameters: as one value, each clause would say `self.old.memory.now` for `memory.old`;
// a link stays a third, as two trees lie in one memory while one is cut or joined, and it says which.
pub mod build;
pub mod cut;
pub mod free;
pub mod prepare;
pub mod replace;
pub mod store;
