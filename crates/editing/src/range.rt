// Whether a range lies in the text.
ghost use Rattle.std.specs.Prelude.{◌≡◌, ◌≤◌, length, None, OnOk};
ghost use Rattle.model.specs.Calls.{answered, extent_refusal};
ghost use Rattle.editing.specs.Content.{text_in, model_in};

use model::Refusal;
use tree::ChunkTree;

// Refuses what is no range of the text.
pub fn in_text<R: Copy>(tree: &ChunkTree<R>, from: u32, to: u32) -> Result<(), Refusal>
    ensures is { result ≡ answered (extent_refusal (model_in tree.now None) from to) tt }
    ensures forward { OnOk result (from ≤ to) }
    ensures inside { OnOk result (to ≤ length (text_in tree.now)) }
{
    if from > to || to > tree.bytes() {
        return Err(Refusal::OutsideText(to as u64));
    }
    Ok(())
}
