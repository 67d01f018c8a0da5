// What the program writes of a loaded text: one line on the tree, one on the text.
ghost use Rattle.std.specs.Prelude.{◌≡◌, IfOk, Some, string_bytes};
ghost use Rattle.load.specs.Loading.{loaded_lines};

use crate::loaded::Loaded;
use report::summary::SummaryLine;
use std::alloc::{AllocError, Global};
use std::fmt;

impl fmt::Display for Loaded {
    ghost output = { λ loaded. Some (loaded_lines loaded) };

    fn fmt<W: fmt::Write>(&self, f: &mut fmt::Formatter<W>) -> fmt::Result {
        let Loaded {
            bytes,
            chunks,
            height,
            summary,
        } = *self;
        let line = SummaryLine(summary);
        write!(f, "bytes {bytes} chunks {chunks} height {height}\n{line}")
    }
}

pub fn loaded_text(heap: Global, loaded: Loaded) -> Result<String, AllocError>
    ensures { IfOk result (λ s. string_bytes s ≡ loaded_lines loaded) }
{
    format!(in heap; "{loaded}")
}
