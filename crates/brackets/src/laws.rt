// The laws of partners: each is what a function here ensures, so that its proof is asked for.
ghost use Rattle.brackets.specs.Laws.{PartnersAreNearest, PartnersArePaired, BracketsAgreeByKind, LiveBracketsHaveRoles};

#[tactic(auto, using(crate::proofs::Nearest::partners_are_nearest))]
pub fn partners_are_nearest()
    ensures { PartnersAreNearest }
{}

#[tactic(auto, using(crate::proofs::Paired::partners_are_paired))]
pub fn partners_are_paired()
    ensures { PartnersArePaired }
{}

#[tactic(auto, using(crate::proofs::Agreement::brackets_agree_by_kind))]
pub fn brackets_agree_by_kind()
    ensures { BracketsAgreeByKind }
{}

#[tactic(auto, using(crate::proofs::Agreement::live_brackets_have_roles))]
pub fn live_brackets_have_roles()
    ensures { LiveBracketsHaveRoles }
{}
