// The line and the column of a place, and the place of a line and a column, sought in the tree by the readings of Place.
ghost use Rattle.std.specs.Prelude.{◌≡◌, ◌≤◌, length, None, IfOk};
ghost use Rattle.measure.specs.Place.{line_ends};
ghost use Rattle.positions.specs.Position.{position, spot};
ghost use Rattle.model.specs.Calls.{refusal_in, place_refusal};
ghost use Rattle.tree.specs.Public.{KeptBy};
ghost use Rattle.editing.specs.Content.{text_in, model_in, scale_of};

use editing::Readings;
use grammar::Grammar;
use locate::lined::Lined;
use locate::placed::Placed;
use locate::{AtPlace, First, InLine, On, Second};
use meter::Meter;
use model::Refusal;
use tree::ChunkTree;
use walks::DocumentMeter;

// The line and the column of a place of the text, or of its end.
#[tactic(auto, using(locate::proofs::Counting::count_comes_to_position))]
pub fn place_of<X: Copy, G: Grammar, H: Meter<Reading = X>>(
    tree: &ChunkTree<Readings<X>>,
    meter: &DocumentMeter<G, H>,
    place: u32,
) -> Result<(u32, u32), Refusal>
    ensures decides { refusal_in result ≡ place_refusal (model_in tree.now None) place }
    ensures finds { IfOk result (λ r. KeptBy tree.now (scale_of G.meaning H.scale meter.now) → r ≡ position (text_in tree.now) place) }
{
    if place > tree.bytes() {
        return Err(Refusal::OutsidePlace(place as u64));
    }
    let search = On {
        side: Second(&meter.first),
        search: On {
            side: First(&meter.second.second),
            search: AtPlace,
        },
    };
    let start = Placed {
        left: place as usize,
        lines: 0,
        units: 0,
    };
    let reached = tree.seek(&search, 0, start).at;
    Ok((reached.lines, reached.units))
}

// The last place of a line that is not past a column, where the text has the line.
#[tactic(auto, using(locate::proofs::Spots::column_comes_to_spot, editing::proofs::Short::text_short))]
pub fn spot_at<X: Copy, G: Grammar, H: Meter<Reading = X>>(
    tree: &ChunkTree<Readings<X>>,
    meter: &DocumentMeter<G, H>,
    line: u32,
    column: u32,
) -> u32
    ensures within { result ≤ length (text_in tree.now) }
    ensures finds { KeptBy tree.now (scale_of G.meaning H.scale meter.now) → line ≤ line_ends (text_in tree.now) → result ≡ spot (text_in tree.now) line column }
{
    let search = On {
        side: Second(&meter.first),
        search: On {
            side: First(&meter.second.second),
            search: InLine { column },
        },
    };
    let start = Lined {
        lines: line,
        units: 0,
    };
    tree.seek(&search, 0, start).passed as u32
}
