// The laws of trees and of cutting: each is what a function here ensures, so that its proof is asked for.
ghost use Rattle.chunks.specs.Laws.{CutIsFewAndEven};
ghost use Rattle.chunks.specs.Tree.{BalancedTreesAreLow};

#[tactic(auto, using(crate::proofs::Balance::low_if_balanced))]
pub fn balanced_trees_are_low()
    ensures { BalancedTreesAreLow }
{}

#[tactic(auto, using(crate::proofs::Evenly::cut_is_few_and_even))]
pub fn cut_is_few_and_even()
    ensures { CutIsFewAndEven }
{}
