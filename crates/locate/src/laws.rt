// What the searches come to: each law is what a function here ensures, so that its proof is asked for.
ghost use Rattle.locate.specs.StateBefore.{WalkComesToPlace};
ghost use Rattle.locate.specs.ComesToPartner.{AheadComesToPartner, BehindComesToPartner};
ghost use Rattle.locate.specs.InLine.{ColumnComesToSpot};
ghost use Rattle.locate.specs.AtPlace.{CountComesToPosition};

#[tactic(auto, using(crate::proofs::Walking::walk_comes_to_place))]
pub fn walk_comes_to_place()
    ensures { WalkComesToPlace }
{}

pub fn ahead_comes_to_partner()
    ensures { AheadComesToPartner }
{}

pub fn behind_comes_to_partner()
    ensures { BehindComesToPartner }
{}

#[tactic(auto, using(crate::proofs::Spots::column_comes_to_spot))]
pub fn column_comes_to_spot()
    ensures { ColumnComesToSpot }
{}

#[tactic(auto, using(crate::proofs::Counting::count_comes_to_position))]
pub fn count_comes_to_position()
    ensures { CountComesToPosition }
{}
