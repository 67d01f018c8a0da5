// A search from right to left through the text of a tree, over whole subtrees by their readings.
// One function with `seek` would ask on every line which way it goes: here each part needs the state that the parts before it leave.
ghost use Rattle.std.specs.Prelude.{◌≡◌, ◌≤◌, length, take};
ghost use Rattle.measure.specs.Measure.{reading as reading_of};
ghost use Rattle.search.specs.Backwards.{forwards, back_stop};
ghost use Rattle.questions.specs.Under.{text_under, KeptUnder};

use crate::backward::Backward;
use crate::seek_bytes_back::seek_bytes_back;
use crate::stops::{further, ran_through};
use questions::subtree::Subtree;
use search::stop::Stop;

// The forward state behind a tree.
fn ahead_of_tree<S: Backward>(
    search: &S,
    tree: Subtree<'_, '_, S::Reading>,
    state: S::Fore,
) -> S::Fore
    ensures { KeptUnder tree.entry (S.scale search.now) → result ≡ forwards (S.fore search.now) state (text_under tree.entry) }
{
    match tree.kept() {
        None => state,
        Some(kept) => search.ahead_over(state, kept),
    }
}

// Where the search comes to in a chunk, from a place in it back: by its kept reading where all of it is asked for.
fn seek_chunk_back<S: Backward>(
    search: &S,
    chunk: &[u8],
    kept: &S::Reading,
    state: S::Fore,
    place: usize,
    at: S::At,
) -> Stop<S::At>
    ensures within { result.passed ≤ length (take place chunk.now) }
    ensures finds { kept.now ≡ reading_of (S.scale search.now) chunk.now → result ≡ back_stop (S.fore search.now) (S.back search.now) state (take place chunk.now) at }
{
    if place >= chunk.len()
        && let Some(before) = search.pass_back(state, kept, at)
    {
        return ran_through(chunk.len(), before);
    }
    let to = place.min(chunk.len());
    seek_bytes_back(search, state, &chunk[..to], at)
}

// Where the search comes to in the text of a tree, from a place back; `state` is the forward state before the tree.
pub fn seek_back<S: Backward>(
    search: &S,
    tree: Subtree<'_, '_, S::Reading>,
    state: S::Fore,
    place: usize,
    at: S::At,
) -> Stop<S::At>
    ensures within { result.passed ≤ length (take place (text_under tree.entry)) }
    ensures finds { KeptUnder tree.entry (S.scale search.now) → result ≡ back_stop (S.fore search.now) (S.back search.now) state (take place (text_under tree.entry)) at }
{
    if place == 0 {
        return ran_through(0, at);
    }
    let bytes = tree.bytes();
    if place >= bytes
        && let Some(kept) = tree.kept()
        && let Some(before) = search.pass_back(state, kept, at)
    {
        return ran_through(bytes, before);
    }
    let Some(parts) = tree.parts() else {
        return ran_through(0, at);
    };
    let inner = ahead_of_tree(search, parts.left, state);
    let within = place.saturating_sub(parts.left.bytes());
    let beyond = within.saturating_sub(parts.chunk.len());
    let rest = if beyond > 0 {
        let outer = search.ahead_over(inner, parts.reading);
        seek_back(search, parts.right, outer, beyond, at)
    } else {
        ran_through(0, at)
    };
    if rest.stopped {
        return rest;
    }
    let inside = seek_chunk_back(search, parts.chunk, parts.reading, inner, within, rest.at);
    let own = further(rest.passed, inside);
    if own.stopped {
        return own;
    }
    let first = seek_back(search, parts.left, state, place, own.at);
    further(own.passed, first)
}
