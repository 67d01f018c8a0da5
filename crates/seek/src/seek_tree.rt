// A search through the text of a tree: over whole subtrees by their readings, and inside only where it may stop.
ghost use Rattle.std.specs.Prelude.{◌≡◌, ◌≤◌, length, drop};
ghost use Rattle.measure.specs.Measure.{reading as reading_of};
ghost use Rattle.search.specs.Forwards.{stop};
ghost use Rattle.seek.specs.Passes.{Passes};
ghost use Rattle.questions.specs.Under.{text_under, KeptUnder};

use crate::forward::Forward;
use crate::seek_bytes::seek_bytes;
use crate::stops::{further, ran_through};
use questions::subtree::Subtree;
use search::stop::Stop;

// Where the search comes to in a chunk, from a place in it on: by the chunk's reading, where all of it is asked for.
fn seek_chunk<S: Forward>(
    search: &S,
    chunk: &[u8],
    kept: &S::Reading,
    place: usize,
    at: S::At,
) -> Stop<S::At>
    ensures within { result.passed ≤ length (drop place chunk.now) }
    ensures finds { kept.now ≡ reading_of (S.scale search.now) chunk.now → result ≡ stop (S.goes search.now) at (drop place chunk.now) }
{
    if place == 0
        && let Some(behind) = search.pass(at, kept)
    {
        return ran_through(chunk.len(), behind);
    }
    let from = place.min(chunk.len());
    seek_bytes(search, at, &chunk[from..])
}

// What one look at the reading kept of all of a tree says, where the search begins with its first byte.
fn pass_tree<S: Forward>(
    search: &S,
    tree: Subtree<'_, '_, S::Reading>,
    place: usize,
    at: S::At,
) -> Option<S::At>
    ensures { KeptUnder tree.entry (S.scale search.now) → Passes (S.goes search.now) at (drop place (text_under tree.entry)) result }
{
    if place > 0 {
        return None;
    }
    search.pass(at, tree.kept()?)
}

// Where the search comes to in the text of a tree, from a place on.
pub fn seek<S: Forward>(
    search: &S,
    tree: Subtree<'_, '_, S::Reading>,
    place: usize,
    at: S::At,
) -> Stop<S::At>
    ensures within { result.passed ≤ length (drop place (text_under tree.entry)) }
    ensures finds { KeptUnder tree.entry (S.scale search.now) → result ≡ stop (S.goes search.now) at (drop place (text_under tree.entry)) }
{
    let bytes = tree.bytes();
    if place >= bytes {
        return ran_through(0, at);
    }
    if let Some(behind) = pass_tree(search, tree, place, at) {
        return ran_through(bytes - place, behind);
    }
    let Some(parts) = tree.parts() else {
        return ran_through(0, at);
    };
    let first = seek(search, parts.left, place, at);
    if first.stopped {
        return first;
    }
    let within = place.saturating_sub(parts.left.bytes());
    let inside = seek_chunk(search, parts.chunk, parts.reading, within, first.at);
    let own = further(first.passed, inside);
    if own.stopped {
        return own;
    }
    let beyond = within.saturating_sub(parts.chunk.len());
    let rest = seek(search, parts.right, beyond, own.at);
    further(own.passed, rest)
}
