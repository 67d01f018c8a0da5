// A text loaded into a tree of chunks, and what the tree then says of it.

#![tactic(auto)]

pub mod lines;
pub mod loaded;
pub mod loading;
pub mod room;
pub mod slot_count;

pub use lines::loaded_text;
pub use loaded::Loaded;
pub use loading::load;
pub use room::{Room, UNREAD, load_text};
pub use slot_count::{MOST, slots_named};
