// Bytes and the number of chunks that they are cut into.
ghost use Rattle.std.specs.Prelude.{◌≡◌, ◌<◌, length};
ghost use Rattle.chunks.specs.Cut.{needed, chunk_at, Chunk};

use crate::build::chunk;

#[derive(Drop)]
pub struct Cut<'a> {
    pub bytes: &'a [u8],
    pub count: usize,
    pub ghost counted: { count ≡ needed (length bytes.now) },
}

impl<'a> Cut<'a> {
    pub fn of(bytes: &'a [u8]) -> Self
        ensures bytes { result.bytes.now ≡ bytes.now }
        ensures count { result.count ≡ needed (length bytes.now) }
    {
        Cut {
            bytes,
            count: bytes.len().div_ceil(64),
        }
    }

    // The k-th of the chunks.
    #[tactic(auto, using(chunks::proofs::Cut::chunk_fits))]
    pub fn chunk(&self, k: usize) -> &'a [u8]
        requires { k < self.now.count }
        ensures bytes { result.now ≡ chunk_at self.now.bytes.now self.now.count k }
        ensures fits { Chunk result.now }
    {
        chunk(self.bytes, self.count, k)
    }
}
