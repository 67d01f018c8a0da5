// A place in a list of chunks, as a spot tells it, and how long the chunk is that has it.
ghost use Rattle.std.specs.Prelude.{◌≡◌};
ghost use Rattle.chunks.specs.SizedSpot.{spot_of};

use crate::spot::Spot;

#[derive(Clone, Copy, PartialEq, Eq, Debug)]
pub struct SizedSpot {
    pub chunk: u16,
    pub inside: u32,
    pub size: u8,
}

impl SizedSpot {
    // The same place without the length. A method and no From: `Spot::from(sized)` would say less.
    pub fn spot(self) -> Spot
        ensures { result ≡ spot_of self }
    {
        Spot {
            chunk: self.chunk,
            inside: self.inside,
        }
    }
}
