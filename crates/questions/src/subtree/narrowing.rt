// The way down to where a range of a subtree's bytes lies.
ghost use Rattle.std.specs.Prelude.{◌≡◌, ◌≤◌};
ghost use Rattle.measure.specs.Measure.{Measure};
ghost use Rattle.chunks.specs.Tree.{height as height_of};
ghost use Rattle.questions.specs.Spans.{within};
ghost use Rattle.questions.specs.Under.{tree_under, text_under, KeptUnder};

use crate::span::Span;
use crate::subtree::Subtree;

impl<'m, 'a, R: Copy> Subtree<'m, 'a, R> {
    // A part in which lies all that the range takes, as low as the way down finds one, and the range counted in it.
    pub fn narrowed(self, span: Span) -> (Subtree<'m, 'a, R>, Span)
        ensures bytes { within result.1 (text_under result.0) ≡ within span (text_under self.entry) }
        ensures lower { height_of (tree_under result.0) ≤ height_of (tree_under self.entry) }
        ensures keeps { (μ : Measure R) → KeptUnder self.entry μ → KeptUnder result.0 μ }
    {
        let Some(parts) = self.parts() else {
            return (self, span);
        };
        if span.to <= parts.left.bytes() {
            return parts.left.narrowed(span);
        }
        let (own, rest) = parts.cut(span);
        if own.from >= parts.chunk.len() && rest.from < parts.right.bytes() {
            return parts.right.narrowed(rest);
        }
        (self, span)
    }
}
