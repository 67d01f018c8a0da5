// The table of worked examples, on the contract of a function so that it is proved: each computes.
ghost use Rattle.examples.specs.Table.{WorkedExamples};

#[tactic(auto, unfolding(chunks::specs::Cut::cut, chunks::specs::Cut::share, model::specs::Edit::touched, model::specs::Edit::affected, model::specs::Edit::edited_chunks, model::specs::End::edit_end))]
pub fn worked_examples_hold()
    ensures { WorkedExamples }
{}
