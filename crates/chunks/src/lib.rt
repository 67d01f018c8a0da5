// The theory of chunks: trees of slots, their order and balance, and how bytes are cut into chunks.
// The definitions are in specs/, in the order of specs/Lib.antt; here are the types that they share with the code.

#![tactic(auto)]

pub mod laws;
pub mod side;
pub mod sized_spot;
pub mod spot;

pub use side::Side;
pub use sized_spot::SizedSpot;
pub use spot::Spot;
