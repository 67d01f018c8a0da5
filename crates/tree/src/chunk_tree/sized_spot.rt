// Where a place lies in a tree of chunks, told with the length of its chunk.
ghost use Rattle.std.specs.Prelude.{◌≡◌, ◌≤◌};
ghost use Rattle.chunks.specs.SizedSpot.{sized_spot_in};
ghost use Rattle.tree.specs.Public.{chunks_now};

use crate::chunk_tree::ChunkTree;
use chunks::SizedSpot;

impl<R: Copy> ChunkTree<'_, R> {
    // How many chunks lie before a place, how many bytes of the next one, and how long that one is.
    pub fn sized_spot(&self, place: u32) -> SizedSpot
        ensures is { result ≡ sized_spot_in (chunks_now self.now) place }
        ensures few { result.chunk ≤ 4096 }
    {
        self.tree().sized_spot(place)
    }
}
