// An edit carried out on the tree.
ghost use Rattle.std.specs.Prelude.{◌≡◌, ℕ, ◌+◌, ◌-◌, ◌<◌, ◌≤◌, length, take, IfOk, None, OnErr};
ghost use Rattle.std.specs.List.{between};
ghost use Rattle.measure.specs.Place.{line_ends};
ghost use Rattle.model.specs.Edit.{middle as middle_of, middle_length, affected, edited_chunks};
ghost use Rattle.tree.specs.Public.{chunks_now, usable_of, lent_to, KeptBy};
ghost use Rattle.editing.specs.Content.{text_in, model_in, scale_of};
ghost use Rattle.editing.specs.Applied.{Applied};
ghost use Rattle.model.specs.Calls.{change_refusal, refusal_in};
ghost use Rattle.model.specs.End.{edit_change};

use crate::lines::line_ends_between;
use crate::plan::plan;
use crate::states::{apart_from, state_before};
use grammar::{Grammar, walk};
use locate::two_states::TwoStates;
use meter::Meter;
use model::{Change, Refusal, Run};
use tree::ChunkTree;
use walks::{DocumentMeter, Readings};

// The most bytes that come in the place of a run: 1,024 new ones and what is left of two chunks.
const MOST_MIDDLE: usize = 1152;

// Puts together what comes in the place of a run, at the front of `out`; says how many bytes it is.
fn fill_middle<R: Copy>(
    tree: &ChunkTree<R>,
    run: Run,
    from: u32,
    to: u32,
    bytes: &[u8],
    out: &mut [u8],
) -> usize
    requires before { run.start ≤ from }
    requires forward { from ≤ to }
    requires behind { to ≤ run.end }
    requires within { run.end ≤ length (text_in tree.now) }
    requires room { middle_length run from to (length bytes.now) ≤ length out.old }
    ensures long { result ≡ middle_length run from to (length bytes.now) }
    ensures is { take result out.new ≡ middle_of (text_in tree.now) run from to bytes.now }
{
    let head = (from - run.start) as usize;
    let tail = head + bytes.len();
    let _ = tree.copy(run.start, from, out);
    out[head..tail].copy_from_slice(bytes);
    let _ = tree.copy(to, run.end, &mut out[tail..]);
    tail + (run.end - to) as usize
}

// Puts the new bytes, with what is left of the run's chunks, in the place of the run.
fn replace_run<R: Copy, M: Meter<Reading = R>>(
    tree: &mut ChunkTree<R>,
    meter: &M,
    run: Run,
    from: u32,
    to: u32,
    bytes: &[u8],
)
    requires allowed { change_refusal (model_in tree.old None) from to bytes.now ≡ None }
    requires is { run ≡ affected (chunks_now tree.old) from to (length bytes.now) }
    requires short { middle_length run from to (length bytes.now) ≤ 1152 }
    ensures chunks { chunks_now tree.new ≡ edited_chunks (chunks_now tree.old) from to bytes.now }
    ensures usable { usable_of tree.new ≡ usable_of tree.old }
    ensures lent { lent_to tree.new ≡ lent_to tree.old }
    ensures keeps { KeptBy tree.old (M.scale meter.now) → KeptBy tree.new (M.scale meter.now) }
{
    // Memory is lent and fixed: below the host there is no heap.
    let mut middle = [0; MOST_MIDDLE];
    let length = fill_middle(tree, run, from, to, bytes, &mut middle);
    let _ = tree.replace(meter, run.first, run.last, &middle[0..length]);
}

// What an edit did: its change, and how many line ends it took out.
pub struct Edited {
    pub change: Change,
    pub lost: u32,
}

// Puts new bytes in the place of a range, and says up to where colours have changed; or why the tree refuses it.
pub fn apply_edit<X: Copy, G: Grammar, H: Meter<Reading = X>>(
    tree: &mut ChunkTree<Readings<X>>,
    meter: &DocumentMeter<G, H>,
    from: u32,
    to: u32,
    bytes: &[u8],
) -> Result<Edited, Refusal>
    ensures decides { refusal_in result ≡ change_refusal (model_in tree.old None) from to bytes.now }
    ensures applied { IfOk result (λ e. Applied tree.old from to bytes.now tree.new e.change) }
    ensures lost { IfOk result (λ e. e.lost ≡ line_ends (between from to (text_in tree.old))) }
    ensures ends { IfOk result (λ e. KeptBy tree.old (scale_of G.meaning H.scale meter.now) → e.change ≡ edit_change (G.meaning meter.now.first.grammar) (text_in tree.old) from to bytes.now) }
    ensures keeps { let μ = scale_of G.meaning H.scale meter.now in KeptBy tree.old μ → KeptBy tree.new μ }
    ensures same { OnErr result (tree.new ≡ tree.old) }
{
    let run = plan(tree, from, to, bytes)?;
    let states = TwoStates {
        old: state_before(tree, meter, to),
        new: walk(&meter.first.grammar, state_before(tree, meter, from), bytes),
    };
    let lost = line_ends_between(tree, from, to);
    replace_run(tree, meter, run, from, to, bytes);
    let behind = from + bytes.len() as u32;
    let change = Change {
        place: from,
        removed: to - from,
        inserted: bytes.len() as u32,
        end: behind + apart_from(tree, meter, behind, states) as u32,
    };
    Ok(Edited { change, lost })
}
