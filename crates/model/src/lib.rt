// The theory of a document: what it holds, what each call answers, when a call is refused, and what it leaves.
// The definitions are in specs/, in the order of specs/Lib.antt; here are the types that they share with the code.

#![tactic(auto)]

pub mod change;
pub mod laws;
pub mod refusal;
pub mod replacement;
pub mod run;

pub use change::Change;
pub use refusal::{Layer, Refusal};
pub use replacement::Replacement;
pub use run::Run;
