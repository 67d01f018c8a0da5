// The theory of readings: what a meter means, the reading of a text, and what the readings of each meter say.
// The definitions are in specs/, in the order of specs/Lib.antt; here are the types that they share with the code.

#![tactic(auto)]

pub mod pair_reading;
pub mod place_reading;
pub mod walk_reading;
