// Searches through a tree's text, over whole subtrees by their readings: from a place on, and from a place back.
// Place, state and what is kept stay parameters: each call goes on with others, so a struct would be written out at each.

#![tactic(auto)]

pub mod backward;
pub mod forward;
pub mod seek_back;
pub mod seek_bytes;
pub mod seek_bytes_back;
pub mod seek_tree;
pub(crate) mod stops;
