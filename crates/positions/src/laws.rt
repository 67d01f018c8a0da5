// The laws of positions: each is what a function here ensures, so that its proof is asked for.
ghost use Rattle.positions.specs.Laws.{PositionsAscend, SpotIsLargest, SpotUndoesPosition, ColumnsAreUtf16};

pub fn positions_ascend()
    ensures { PositionsAscend }
{}

#[tactic(auto, using(crate::proofs::Spots::spot_is_largest))]
pub fn spot_is_largest()
    ensures { SpotIsLargest }
{}

#[tactic(auto, using(crate::proofs::Spots::spot_undoes_position))]
pub fn spot_undoes_position()
    ensures { SpotUndoesPosition }
{}

#[tactic(auto, using(crate::proofs::Characters::columns_are_utf16))]
pub fn columns_are_utf16()
    ensures { ColumnsAreUtf16 }
{}
