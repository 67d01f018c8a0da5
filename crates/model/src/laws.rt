// The laws of a document's calls: each is what a function here ensures, so that its proof is asked for.
ghost use Rattle.std.specs.Prelude.{ℕ, List};
ghost use Rattle.model.specs.Laws.{EditLeavesText, EditEndsFirst, PaintingShowsText, CallsAreRefusedInOrder, CallsTakeTurns, ChangesFit, SameCompares, FrontIsWritten, ScriptsStopAtRefused};

#[tactic(auto, using(crate::proofs::Editing::edit_leaves_text))]
pub fn edit_leaves_text()
    ensures { EditLeavesText }
{}

#[tactic(auto, using(crate::proofs::Ending::edit_ends_first))]
pub fn edit_ends_first()
    ensures { EditEndsFirst }
{}

#[tactic(auto, using(crate::proofs::Painting::painting_shows_text))]
pub fn painting_shows_text()
    ensures { PaintingShowsText }
{}

#[tactic(auto, using(crate::proofs::Refusing::calls_are_refused_in_order))]
pub fn calls_are_refused_in_order()
    ensures { CallsAreRefusedInOrder }
{}

#[tactic(auto, using(crate::proofs::Turns::calls_take_turns))]
pub fn calls_take_turns()
    ensures { CallsTakeTurns }
{}

#[tactic(auto, using(crate::proofs::Ending::changes_fit))]
pub fn changes_fit()
    ensures { ChangesFit }
{}

#[tactic(auto, using(crate::proofs::Buffers::same_compares))]
pub fn same_compares()
    ensures { SameCompares }
{}

#[tactic(auto, using(crate::proofs::Buffers::front_is_written))]
pub fn front_is_written()
    ensures { (part buffer : List ℕ) → FrontIsWritten part buffer }
{}

#[tactic(auto, using(crate::proofs::Scripts::scripts_stop_at_refused))]
pub fn scripts_stop_at_refused()
    ensures { ScriptsStopAtRefused }
{}
