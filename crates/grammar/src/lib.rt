// What colours bytes: the interface of a grammar, scene words, and colouring a run of bytes.

#![tactic(auto)]

pub mod class;
pub mod colouring;
pub mod interface;
pub mod lent;
pub mod scene_words;
pub mod step;
mod words_table;

pub use colouring::{colour, walk};
pub use interface::Grammar;
pub use scene_words::Words;
pub use step::{Step, role_of};
