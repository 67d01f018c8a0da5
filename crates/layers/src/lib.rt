// The layers: grammars made of other grammars, so that they can be piled up.
// A comment runs to the end of the line, a string from quote to quote, a region from border to border.

#![tactic(auto)]

pub mod comment_layer;
mod layer;
pub mod quoted_layer;
pub mod region_layer;

pub use comment_layer::Comment;
pub use quoted_layer::Quoted;
pub use region_layer::Region;
