// Which chunks an edit replaces, and whether it can be done.
ghost use Rattle.std.specs.Prelude.{◌≡◌, ℕ, ◌+◌, ◌-◌, ◌<◌, ◌≤◌, List, length, IfOk, None, OnOk};
ghost use Rattle.chunks.specs.SizedSpot.{sized_spot_in};
ghost use Rattle.model.specs.Edit.{run_of, touched as touched_by, middle_length, with_neighbour as neighbour_taken, affected as affected_by};
ghost use Rattle.model.specs.Calls.{answered, change_refusal};
ghost use Rattle.tree.specs.Public.{chunks_now};
ghost use Rattle.editing.specs.Content.{text_in, model_in};

use crate::range::in_text;
use model::{Refusal, Run};
use tree::ChunkTree;

// The most bytes that one edit may put in.
const MOST_NEW: usize = 1024;

// Fewer bytes than these, where there are any, take a neighbour along.
const ENOUGH: usize = 32;

// The chunks from that of byte `low` to that of byte `high`.
#[tactic(auto, using(crate::proofs::Planning::spots_tell, crate::proofs::Planning::spot_inside, crate::proofs::Short::text_short))]
fn run_between<R: Copy>(tree: &ChunkTree<R>, low: u32, high: u32) -> Run
    requires ordered { low ≤ high }
    requires within { high < length (text_in tree.now) }
    ensures { result ≡ run_of (chunks_now tree.now) (sized_spot_in (chunks_now tree.now) low).chunk ((sized_spot_in (chunks_now tree.now) high).chunk + 1) }
{
    let first = tree.sized_spot(low);
    let last = tree.sized_spot(high);
    Run {
        first: first.chunk,
        last: last.chunk + 1,
        start: low - first.inside,
        end: high - last.inside + last.size as u32,
    }
}

// The chunks that an edit touches.
#[tactic(auto, unfolding(model::specs::Edit::touched))]
fn touched<R: Copy>(tree: &ChunkTree<R>, from: u32, to: u32) -> Run
    requires forward { from ≤ to }
    requires inside { to ≤ length (text_in tree.now) }
    ensures { result ≡ touched_by (chunks_now tree.now) from to }
{
    if tree.bytes() == 0 {
        return Run {
            first: 0,
            last: 0,
            start: 0,
            end: 0,
        };
    }
    if from < to {
        return run_between(tree, from, to - 1);
    }
    let byte = from.saturating_sub(1);
    run_between(tree, byte, byte)
}

// A run with the chunk on its right, else with that on its left, if there is one.
fn with_neighbour<R: Copy>(tree: &ChunkTree<R>, run: Run) -> Run
    requires is { run ≡ run_of (chunks_now tree.now) run.first run.last }
    requires ordered { run.first ≤ run.last }
    requires known { run.last ≤ length (chunks_now tree.now) }
    ensures { result ≡ neighbour_taken (chunks_now tree.now) run }
{
    if run.last < tree.chunks() {
        let next = tree.sized_spot(run.end);
        return Run {
            last: run.last + 1,
            end: run.end + next.size as u32,
            ..run
        };
    }
    if run.first > 0 {
        let before = tree.sized_spot(run.start - 1);
        return Run {
            first: run.first - 1,
            start: run.start - before.size as u32,
            ..run
        };
    }
    run
}

// How many bytes come in the place of a run.
fn middle_length_of(run: Run, from: u32, to: u32, count: usize) -> usize
    requires before { run.start ≤ from }
    requires behind { to ≤ run.end }
    requires few { count ≤ 1024 }
    ensures { result ≡ middle_length run from to count }
{
    (from - run.start) as usize + (count + (run.end - to) as usize)
}

// The chunks that an edit replaces.
#[tactic(auto, using(model::proofs::Runs::covers_touched), unfolding(model::specs::Edit::affected))]
fn affected<R: Copy>(tree: &ChunkTree<R>, from: u32, to: u32, count: usize) -> Run
    requires forward { from ≤ to }
    requires inside { to ≤ length (text_in tree.now) }
    requires few { count ≤ 1024 }
    ensures { result ≡ affected_by (chunks_now tree.now) from to count }
{
    let run = touched(tree, from, to);
    let bytes = middle_length_of(run, from, to, count);
    if (1..ENOUGH).contains(&bytes) {
        with_neighbour(tree, run)
    } else {
        run
    }
}

// The chunks that an edit replaces, or why the tree refuses it.
#[tactic(auto, using(model::proofs::Runs::covers_affected, crate::proofs::Short::text_short))]
pub fn plan<R: Copy>(tree: &ChunkTree<R>, from: u32, to: u32, bytes: &[u8]) -> Result<Run, Refusal>
    ensures is { result ≡ answered (change_refusal (model_in tree.now None) from to bytes.now) (affected_by (chunks_now tree.now) from to (length bytes.now)) }
    ensures short { IfOk result (λ run. middle_length run from to (length bytes.now) ≤ 1152) }
    ensures few { OnOk result (length (text_in tree.now) ≤ 262144) }
{
    in_text(tree, from, to)?;
    if bytes.len() > MOST_NEW {
        return Err(Refusal::TooManyBytes(bytes.len() as u64));
    }
    let run = affected(tree, from, to, bytes.len());
    let kept = (tree.chunks() - (run.last - run.first)) as usize;
    let chunks = kept + middle_length_of(run, from, to, bytes.len()).div_ceil(64);
    if chunks > tree.usable() as usize {
        return Err(Refusal::TooManyChunks(chunks as u64));
    }
    Ok(run)
}
