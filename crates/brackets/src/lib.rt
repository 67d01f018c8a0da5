// The theory of partners: which live bracket belongs to which.
// The definitions are in specs/, in the order of specs/Lib.antt; here are the types that they share with the code.

#![tactic(auto)]

pub mod laws;
pub mod partner;

pub use partner::Partner;
