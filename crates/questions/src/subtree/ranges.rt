// The reading of a range of a subtree's bytes: kept readings where a whole subtree or chunk lies in it, and the cut ends measured.
ghost use Rattle.std.specs.Prelude.{◌≡◌};
ghost use Rattle.measure.specs.Measure.{reading as reading_of};
ghost use Rattle.questions.specs.Spans.{within};
ghost use Rattle.questions.specs.Under.{text_under, KeptUnder};

use crate::span::Span;
use crate::subtree::Subtree;
use meter::Meter;

// The reading of what a range takes of a chunk: the kept one where that is all of it.
fn chunk_reading<R: Copy, M: Meter<Reading = R>>(meter: &M, chunk: &[u8], kept: &R, span: Span) -> R
    ensures { kept.now ≡ reading_of (M.scale meter.now) chunk.now → result ≡ reading_of (M.scale meter.now) (within span chunk.now) }
{
    if span.from == 0 && span.to >= chunk.len() {
        return *kept;
    }
    meter.measure(span.within(chunk))
}

impl<R: Copy> Subtree<'_, '_, R> {
    // The reading of the bytes in the range.
    pub fn reading<M: Meter<Reading = R>>(self, meter: &M, span: Span) -> R
        ensures { KeptUnder self.entry (M.scale meter.now) → result ≡ reading_of (M.scale meter.now) (within span (text_under self.entry)) }
    {
        let bytes = self.bytes();
        if span.from >= span.to || span.from >= bytes {
            return meter.empty();
        }
        if span.from == 0
            && span.to >= bytes
            && let Some(kept) = self.kept()
        {
            return *kept;
        }
        let Some(parts) = self.parts() else {
            return meter.empty();
        };
        let (own, rest) = parts.cut(span);
        let first = parts.left.reading(meter, span);
        let middle = chunk_reading(meter, parts.chunk, parts.reading, own);
        let last = parts.right.reading(meter, rest);
        let front = meter.join(&first, &middle);
        meter.join(&front, &last)
    }
}
