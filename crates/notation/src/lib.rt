// How numbers, bytes and cells are written in a line: read, and written, with laws that what is written reads back.

#![tactic(auto)]

pub mod bytes;
pub mod digits;
pub mod laws;
pub mod number;
pub mod quoting;
pub mod spot;
pub mod words;

pub use digits::{cell_digit, digits_text};
pub use quoting::quoted_text;
