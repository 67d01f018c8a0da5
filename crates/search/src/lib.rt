// The theory of searches through a text: one byte after another, in either direction, until the search stops.
// The definitions are in specs/, in the order of specs/Lib.antt; here are the types that they share with the code.

#![tactic(auto)]

pub mod stop;
