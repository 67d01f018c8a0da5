// What the calls of a document do to its tree of chunks, to a screen and to a buffer. Nothing here knows a due or a pass.
// `from`, `to` and an edit's new bytes stay apart, as in the definitions: in a struct each clause would read `edit.from edit.to edit.bytes.now`.

#![tactic(auto)]

pub mod apply;
pub mod lines;
mod moving;
pub mod plan;
pub mod range;
pub mod screen;
pub mod states;

pub use apply::{Edited, apply_edit};
pub use lines::{line_ends_between, line_ends_of};
pub use range::in_text;
pub use screen::{copy_colours, copy_text, paint_change};
pub use states::state_before;
pub use walks::Readings;
