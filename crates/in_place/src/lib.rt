// As many chunks as there were, written over in their slots, so that the tree stays as it is.
// Each function asks that memory holds what it is told; the crate `tree` wraps them so that no call asks anything.

#![tactic(auto)]

// Meter and memory go as two parameters: as one value, each clause would say `self.old.memory.now` for `memory.old`;
// a link stays a third, as a tree and its parts lie in one memory, and it says which.
pub mod rewrite;
