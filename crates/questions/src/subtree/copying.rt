// Bytes of a subtree copied into a buffer.
ghost use Rattle.std.specs.Prelude.{◌≡◌, ◌+◌, ◌≤◌, length};
ghost use Rattle.slots.specs.Copy.{Copied};
ghost use Rattle.questions.specs.Spans.{within};
ghost use Rattle.questions.specs.Under.{text_under};

use crate::span::Span;
use crate::subtree::Subtree;

// Copies bytes into `out` from `at` on, where there is room; gives the place behind them.
fn paste(bytes: &[u8], out: &mut [u8], at: usize) -> usize
    requires { at + length bytes.now ≤ length out.old }
    ensures { Copied bytes.now out.old at out.new result }
{
    let end = at + bytes.len();
    out[at..end].copy_from_slice(bytes);
    end
}

impl<R: Copy> Subtree<'_, '_, R> {
    // Copies the bytes in the range into `out` from `at` on, where there is room; gives the place behind them.
    #[inline(always)]
    #[cycle(copy)]
    pub fn copy(self, span: Span, out: &mut [u8], at: usize) -> usize
        requires { at + length (within span (text_under self)) ≤ length out.old }
        ensures { Copied (within span (text_under self.entry)) out.old at out.new result }
    {
        if span.from >= span.to || span.from >= self.bytes() {
            return at;
        }
        self.copy_parts(span, out, at)
    }

    // The same, part by part.
    #[cycle(copy)]
    fn copy_parts(self, span: Span, out: &mut [u8], at: usize) -> usize
        requires { at + length (within span (text_under self)) ≤ length out.old }
        ensures { Copied (within span (text_under self.entry)) out.old at out.new result }
    {
        let Some(parts) = self.parts() else {
            return at;
        };
        let (own, rest) = parts.cut(span);
        let first = parts.left.copy(span, out, at);
        let middle = paste(own.within(parts.chunk), out, first);
        parts.right.copy(rest, out, middle)
    }
}
