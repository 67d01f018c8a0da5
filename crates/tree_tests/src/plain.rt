// A text and the lengths of its chunks in plain lists, changed by the same rules.
ghost use Rattle.std.specs.Prelude.{◌≤◌, vec_len};

use std::alloc::{AllocError, Global};
use tree::ReplaceRefusal;

#[derive(Drop)]
pub struct Plain {
    pub text: Vec<u8>,
    pub lengths: Vec<usize>,
}

impl Plain {
    pub fn new(heap: Global) -> Plain {
        Plain {
            text: Vec::new(heap),
            lengths: Vec::new(heap),
        }
    }

    // How many bytes lie before a chunk.
    fn before(&self, chunk: usize) -> usize
        ensures { result ≤ vec_len self.now.text }
    {
        self.lengths
            .iter()
            .take(chunk)
            .fold(0usize, |bytes, length| bytes.saturating_add(*length))
            .min(self.text.len())
    }

    // What comes of putting so many bytes for the chunks from `from` up to `to` where there are `slots`.
    pub fn outcome(
        &self,
        slots: usize,
        from: usize,
        to: usize,
        bytes: usize,
    ) -> Result<(), ReplaceRefusal> {
        let chunks = self.lengths.len();
        if from > to || to > chunks {
            return Err(ReplaceRefusal::NoRun);
        }
        if (chunks - (to - from)).saturating_add(bytes.div_ceil(64)) > slots {
            return Err(ReplaceRefusal::NoRoom);
        }
        Ok(())
    }

    // The same with the chunks from `from` up to `to` replaced.
    pub fn replaced(
        &self,
        heap: Global,
        from: usize,
        to: usize,
        bytes: &[u8],
    ) -> Result<Plain, AllocError> {
        let mut text = Vec::new(heap);
        text.extend_from_slice(&self.text[..self.before(from)])?;
        text.extend_from_slice(bytes)?;
        text.extend_from_slice(&self.text[self.before(to)..])?;
        let mut lengths = Vec::new(heap);
        lengths.extend(self.lengths.iter().take(from).copied())?;
        push_shares(&mut lengths, bytes.len())?;
        lengths.extend(self.lengths.iter().skip(to).copied())?;
        Ok(Plain { text, lengths })
    }
}

// As few chunks as can be: each takes its share of what is left, rounded up.
fn push_shares(lengths: &mut Vec<usize>, bytes: usize) -> Result<(), AllocError> {
    let mut left = bytes;
    for chunks in (1..=bytes.div_ceil(64)).rev() {
        let share = left.div_ceil(chunks);
        lengths.push(share)?;
        left = left.saturating_sub(share);
    }
    Ok(())
}
