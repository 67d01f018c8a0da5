// What is looked up in a document's tree, over whole subtrees by their readings: the partner of a bracket, the position of a place,
// and the place of a line and a column.

#![tactic(auto)]

pub mod partner;
pub mod position;

pub use partner::partner_of;
pub use position::{place_of, spot_at};
