// The theory of grammars: what an automaton is, how it walks a text, and what the layers mean.
// The definitions are in specs/, in the order of specs/Lib.antt; here are the types that they share with the code.

#![tactic(auto)]

pub mod byte_kind;
pub mod laws;
pub mod layer_state;
pub mod role;
pub mod word_state;
