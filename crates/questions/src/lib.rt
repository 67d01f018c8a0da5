// Questions about the tree that memory holds: its size, where a place lies, ranges of bytes read, copied and compared.
// A subtree is a value whose type says that memory holds it, so that its calls ask nothing of memory.

#![tactic(auto)]

pub mod own;
pub mod span;
pub mod subtree;
