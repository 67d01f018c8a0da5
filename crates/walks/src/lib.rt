// Walk: a meter that walks a grammar through the bytes from every state, and what is promised of its readings.
// With places and whatever the host measures besides it is the meter of a document.

#![tactic(auto)]

pub mod documents;
pub mod promises;
pub mod walk_meter;

pub use documents::{DocumentMeter, Readings, document_meter};
pub use walk_meter::Walk;
