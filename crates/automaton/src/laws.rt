// The laws of walks, colours and layers: each is what a function here ensures, so that its proof is asked for.
ghost use Rattle.automaton.specs.Examples.{SmallTextsAreColoured};
ghost use Rattle.automaton.specs.Laws.{WalkTakesEachStep, ColoursAloneShow, WalkCanBeCut, WalkStaysBelow, PilesAreLawful};

pub fn walk_takes_each_step()
    ensures { WalkTakesEachStep }
{}

pub fn colours_alone_show()
    ensures { ColoursAloneShow }
{}

pub fn walk_can_be_cut()
    ensures { WalkCanBeCut }
{}

pub fn walk_stays_below()
    ensures { WalkStaysBelow }
{}

pub fn piles_are_lawful()
    ensures { PilesAreLawful }
{}

#[tactic(auto, using(crate::proofs::SmallTexts::small_texts_are_coloured))]
pub fn small_texts_are_coloured()
    ensures { SmallTextsAreColoured }
{}
