// A host for one document: it lends the memory, carries out the lines of a session and writes their answers.
// What a line says and how an answer is written is the crate `session`'s business; which grammar a pile is, is told here once.

#![tactic(auto)]

pub mod dialogue;
pub mod host;
pub mod laws;
pub mod options;
pub mod piles;
pub mod reply;
pub mod room;

pub use host::Host;
pub use options::{Misread, MisreadAt, Options, begins_with_digit};
pub use piles::{Work, with_pile};
pub use room::run_session;
