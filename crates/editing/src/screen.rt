// What the calls write into a screen or a buffer: a range of the text, its colours, and a change painted.
ghost use Rattle.std.specs.Prelude.{◌≡◌, ◌+◌, ◌-◌, ◌≤◌, length, is_ok, if◌then◌else◌, None, OnErr, OnOk};
ghost use Rattle.std.specs.List.{between};
ghost use Rattle.automaton.specs.Walk.{colours};
ghost use Rattle.model.specs.Calls.{answered, range_refusal as range_refused, fitting_refusal, fits as fits_in, with_front};
ghost use Rattle.model.specs.Paint.{painted};
ghost use Rattle.model.specs.SomeWalk.{FrontColoured, ChangeColoured};
ghost use Rattle.tree.specs.Public.{KeptBy};
ghost use Rattle.editing.specs.Content.{text_in, model_in, scale_of};

use crate::moving::move_cells;
use crate::states::state_before;
use grammar::Grammar;
use meter::Meter;
use model::{Change, Refusal};
use tree::{ChunkTree, CopyRefusal};
use walks::{DocumentMeter, Readings};

// Copies the bytes of a range to the front of a buffer.
pub fn copy_text<R: Copy>(
    tree: &ChunkTree<R>,
    from: u32,
    to: u32,
    out: &mut [u8],
) -> Result<(), Refusal>
    ensures answer { result ≡ answered (range_refused (model_in tree.now None) from to (length out.old)) tt }
    ensures written { out.new ≡ (if is_ok result then with_front (between from to (text_in tree.now)) out.old else out.old) }
{
    let cells = out.len() as u64;
    tree.copy(from, to, out).map_err(|refusal| match refusal {
        CopyRefusal::OutsideText => Refusal::OutsideText(to as u64),
        CopyRefusal::ShortBuffer => Refusal::ShortBuffer(cells),
    })
}

// Writes the colours of a range to the front of a buffer.
pub fn copy_colours<X: Copy, G: Grammar, H: Meter<Reading = X>>(
    tree: &ChunkTree<Readings<X>>,
    meter: &DocumentMeter<G, H>,
    from: u32,
    to: u32,
    out: &mut [u8],
) -> Result<(), Refusal>
    ensures answer { result ≡ answered (range_refused (model_in tree.now None) from to (length out.old)) tt }
    ensures anyway { OnOk result (FrontColoured (G.meaning meter.now.first.grammar) (text_in tree.now) from to out.old out.new) }
    ensures written { OnOk result (KeptBy tree.now (scale_of G.meaning H.scale meter.now) → out.new ≡ with_front (between from to (colours (G.meaning meter.now.first.grammar) (text_in tree.now))) out.old) }
    ensures same { OnErr result (out.new ≡ out.old) }
{
    copy_text(tree, from, to, out)?;
    let state = state_before(tree, meter, from);
    meter
        .first
        .grammar
        .colour_cells(state, &mut out[0..(to - from) as usize]);
    Ok(())
}

// Whether the numbers of a change fit a text of so many bytes.
fn fits(change: Change, bytes: u32) -> bool
    ensures { result ≡ fits_in change bytes }
{
    change.place as u64 + change.inserted as u64 <= change.end as u64 && change.end <= bytes
}

// Paints a change on a screen that shows the text before it.
pub fn paint_change<X: Copy, G: Grammar, H: Meter<Reading = X>>(
    tree: &ChunkTree<Readings<X>>,
    meter: &DocumentMeter<G, H>,
    change: Change,
    screen: &mut [u8],
) -> Result<(), Refusal>
    ensures answer { result ≡ answered (fitting_refusal (model_in tree.now None) change (length screen.old)) tt }
    ensures anyway { OnOk result (ChangeColoured (G.meaning meter.now.first.grammar) (text_in tree.now) change screen.old screen.new) }
    ensures painted { OnOk result (KeptBy tree.now (scale_of G.meaning H.scale meter.now) → screen.new ≡ painted (G.meaning meter.now.first.grammar) (text_in tree.now) change screen.old) }
    ensures same { OnErr result (screen.new ≡ screen.old) }
{
    let bytes = tree.bytes();
    if !fits(change, bytes) {
        return Err(Refusal::UnknownDue(change.place as u64));
    }
    let old = bytes as usize + change.removed as usize - change.inserted as usize;
    if bytes as usize > screen.len() || old > screen.len() {
        return Err(Refusal::ShortScreen(screen.len() as u64));
    }
    let end = change.end as usize;
    let old_end = end + change.removed as usize - change.inserted as usize;
    move_cells(screen, old_end, old, end);
    let place = change.place as usize;
    let _ = copy_colours(
        tree,
        meter,
        change.place,
        change.end,
        &mut screen[place..end],
    );
    Ok(())
}
