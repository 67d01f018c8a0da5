// Where a place lies among the chunks of a subtree.
ghost use Rattle.std.specs.Prelude.{◌≡◌, ◌≤◌};
ghost use Rattle.chunks.specs.SizedSpot.{sized_spot_in};
ghost use Rattle.chunks.specs.Spot.{spot_in};
ghost use Rattle.questions.specs.Under.{chunks_under};

use crate::subtree::Subtree;
use chunks::{SizedSpot, Spot};

impl<R: Copy> Subtree<'_, '_, R> {
    // How many chunks lie before the place, how many bytes of the next one, and how long that one is.
    pub fn sized_spot(self, place: u32) -> SizedSpot
        ensures is { result ≡ sized_spot_in (chunks_under self.entry) place }
        ensures few { result.chunk ≤ 4096 }
    {
        let Some(parts) = self.parts() else {
            return SizedSpot {
                chunk: 0,
                inside: place,
                size: 0,
            };
        };
        let before = parts.left.extent();
        if place < before.bytes {
            return parts.left.sized_spot(place);
        }
        let inside = place - before.bytes;
        let size = parts.chunk.len() as u8;
        let own = size as u32;
        if inside < own {
            return SizedSpot {
                chunk: before.chunks,
                inside,
                size,
            };
        }
        let rest = parts.right.sized_spot(inside - own);
        SizedSpot {
            chunk: before.chunks + 1 + rest.chunk,
            ..rest
        }
    }

    // The same without the length.
    pub fn spot(self, place: u32) -> Spot
        ensures is { result ≡ spot_in (chunks_under self.entry) place }
        ensures few { result.chunk ≤ 4096 }
    {
        self.sized_spot(place).spot()
    }
}
