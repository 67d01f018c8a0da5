// What measures bytes: the interface of a meter, the blank meter, places, and two meters as one.

#![tactic(auto)]

pub mod blank_meter;
pub mod interface;
pub mod limit;
pub mod pair_meter;
pub mod place_meter;
pub mod promises;

pub use blank_meter::Blank;
pub use interface::Meter;
pub use pair_meter::Pair;
pub use place_meter::{Place, ends_line, width};
