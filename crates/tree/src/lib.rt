// One measured tree of chunks in lent memory, for every kind of reading. No call of it asks anything of its caller.

#![tactic(auto)]

pub mod chunk_tree;
pub mod lent;
pub mod refusal;

pub use chunk_tree::ChunkTree;
pub use lent::Lent;
pub use refusal::{CopyRefusal, PrepareRefusal, ReplaceRefusal};
