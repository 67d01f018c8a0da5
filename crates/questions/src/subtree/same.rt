// Bytes of a subtree compared with given ones.
ghost use Rattle.std.specs.Prelude.{◌≡◌, Decides};
ghost use Rattle.questions.specs.Spans.{within};
ghost use Rattle.questions.specs.Stripped.{Stripped};
ghost use Rattle.questions.specs.Under.{text_under};

use crate::span::Span;
use crate::subtree::Subtree;

impl<R: Copy> Subtree<'_, '_, R> {
    // What follows the bytes in the range in `given`, where it begins with them.
    // In line, as `copy` is: the range has nothing of every other side, which is then seen without a call.
    #[inline(always)]
    #[cycle(strip)]
    pub fn strip<'g>(self, span: Span, given: &'g [u8]) -> Option<&'g [u8]>
        ensures { Stripped (within span (text_under self.entry)) given.now result }
    {
        if span.from >= span.to || span.from >= self.bytes() {
            return Some(given);
        }
        self.strip_parts(span, given)
    }

    // The same, part by part.
    #[cycle(strip)]
    fn strip_parts<'g>(self, span: Span, given: &'g [u8]) -> Option<&'g [u8]>
        ensures { Stripped (within span (text_under self.entry)) given.now result }
    {
        let Some(parts) = self.parts() else {
            return Some(given);
        };
        let (own, rest) = parts.cut(span);
        let behind_left = parts.left.strip(span, given)?;
        let behind_own = behind_left.strip_prefix(own.within(parts.chunk))?;
        parts.right.strip(rest, behind_own)
    }

    // Whether the bytes in the range are the given ones.
    pub fn same(self, span: Span, given: &[u8]) -> bool
        ensures { Decides result (within span (text_under self.entry) ≡ given.now) }
    {
        matches!(self.strip(span, given), Some([]))
    }
}
