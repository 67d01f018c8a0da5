// The partner of a bracket, by the readings of the document's meter.
// Here and in position.rt the tree and its meter stay two parameters: in a struct each clause would read `self.now.tree.now` for `tree.now`.
// `KeptBy tree μ` is a premise and no ghost field: a call may be given another meter than the tree was kept by, and what holds then is promised without it.
ghost use Rattle.std.specs.Prelude.{◌≡◌, ℕ, ◌<◌, ◌≤◌, length, take, drop, IfOk, if◌then◌else◌, Some, None, nat_lt, slice_index};
ghost use Rattle.automaton.specs.declared.role.BracketKind.{BracketKind};
ghost use Rattle.automaton.specs.declared.role.Role.TheVariants.{Opening, Closing};
ghost use Rattle.search.specs.Forwards.{stop};
ghost use Rattle.search.specs.Backwards.{back_stop};
ghost use Rattle.brackets.specs.Partner.{kind_of, role_at, partner_ahead, partner_behind, told, partner};
ghost use Rattle.locate.specs.PartnerAhead.{nested, ahead_on};
ghost use Rattle.locate.specs.PartnerBehind.{traced, trace_on, behind_on};
ghost use Rattle.model.specs.Calls.{refusal_in, partner_refusal};
ghost use Rattle.tree.specs.Public.{KeptBy};
ghost use Rattle.editing.specs.Content.{text_in, model_in, scale_of};
ghost use Rattle.lookup.specs.Partner.{RefusedAnyway};

use automaton::role::{BracketKind, Role};
use brackets::Partner;
use editing::{Readings, state_before};
use grammar::Grammar;
use locate::nested::Nested;
use locate::traced::Traced;
use locate::{First, On, PartnerAhead, PartnerBehind};
use meter::Meter;
use model::refusal::Refusal;
use search::stop::Stop;
use tree::ChunkTree;
use walks::DocumentMeter;

// The byte at a place of the text.
fn byte_at<R: Copy>(tree: &ChunkTree<R>, place: u32) -> Option<u8>
    ensures { result ≡ (if nat_lt place (length (text_in tree.now)) then Some (slice_index (text_in tree.now) place) else None) }
{
    if place >= tree.bytes() {
        return None;
    }
    // Memory is lent and fixed: below the host there is no heap.
    let mut byte = [0u8; 1];
    let _ = tree.copy(place, place + 1, &mut byte);
    Some(byte[0])
}

// The role of the byte at a place, read from the state before it.
fn role_at<X: Copy, G: Grammar, H: Meter<Reading = X>>(
    tree: &ChunkTree<Readings<X>>,
    meter: &DocumentMeter<G, H>,
    place: u32,
) -> Role
    ensures { KeptBy tree.now (scale_of G.meaning H.scale meter.now) → result ≡ role_at (G.meaning meter.now.first.grammar) (text_in tree.now) place }
{
    let Some(byte) = byte_at(tree, place) else {
        return Role::Plain;
    };
    let state = state_before(tree, meter, place);
    meter.first.grammar.role(state, byte)
}

// The search from a place on, with one opening unmatched before it.
fn search_ahead<X: Copy, G: Grammar, H: Meter<Reading = X>>(
    tree: &ChunkTree<Readings<X>>,
    meter: &DocumentMeter<G, H>,
    place: u32,
    state: u8,
) -> Stop<Nested>
    ensures within { result.passed ≤ length (drop place (text_in tree.now)) }
    ensures finds { KeptBy tree.now (scale_of G.meaning H.scale meter.now) → result ≡ stop (ahead_on (G.meaning meter.now.first.grammar)) (nested state 1) (drop place (text_in tree.now)) }
{
    let search = On {
        side: First(&meter.second),
        search: PartnerAhead {
            grammar: &meter.first.grammar,
        },
    };
    tree.seek(&search, place, Nested { state, depth: 1 })
}

// The search from a place back, with one closing unmatched behind it.
fn search_behind<X: Copy, G: Grammar, H: Meter<Reading = X>>(
    tree: &ChunkTree<Readings<X>>,
    meter: &DocumentMeter<G, H>,
    place: u32,
) -> Stop<u32>
    ensures within { result.passed ≤ length (take place (text_in tree.now)) }
    ensures finds { KeptBy tree.now (scale_of G.meaning H.scale meter.now) → result ≡ back_stop (trace_on (G.meaning meter.now.first.grammar)) (behind_on (G.meaning meter.now.first.grammar)) (Some (traced 0 0)) (take place (text_in tree.now)) 1 }
{
    let search = On {
        side: First(&meter.second),
        search: PartnerBehind {
            grammar: &meter.first.grammar,
        },
    };
    let start = Some(Traced { read: 0, state: 0 });
    tree.seek_back(&search, start, place, 1)
}

// The partner of an opening: where the search from behind it stops.
#[tactic(auto, using(editing::proofs::Short::text_short))]
fn partner_ahead<X: Copy, G: Grammar, H: Meter<Reading = X>>(
    tree: &ChunkTree<Readings<X>>,
    meter: &DocumentMeter<G, H>,
    place: u32,
) -> Option<u32>
    requires within { place < length (text_in tree.now) }
    ensures { KeptBy tree.now (scale_of G.meaning H.scale meter.now) → (kind : BracketKind) → role_at (G.meaning meter.now.first.grammar) (text_in tree.now) place ≡ Opening kind → result ≡ partner_ahead (G.meaning meter.now.first.grammar) (text_in tree.now) place }
{
    let behind = place + 1;
    let state = state_before(tree, meter, behind);
    let found = search_ahead(tree, meter, behind, state);
    found.stopped.then_some(behind + found.passed as u32)
}

// The partner of a closing: where the search back from before it stops.
fn partner_behind<X: Copy, G: Grammar, H: Meter<Reading = X>>(
    tree: &ChunkTree<Readings<X>>,
    meter: &DocumentMeter<G, H>,
    place: u32,
) -> Option<u32>
    ensures { KeptBy tree.now (scale_of G.meaning H.scale meter.now) → (kind : BracketKind) → role_at (G.meaning meter.now.first.grammar) (text_in tree.now) place ≡ Closing kind → result ≡ partner_behind (G.meaning meter.now.first.grammar) (text_in tree.now) place }
{
    let found = search_behind(tree, meter, place);
    found
        .stopped
        .then_some((place - found.passed as u32).saturating_sub(1))
}

// The kind of a bracket, where there is one.
fn kind_of(role: Role) -> Option<BracketKind>
    ensures { result ≡ kind_of role }
{
    match role {
        Role::Plain => None,
        Role::Opening(kind) | Role::Closing(kind) => Some(kind),
    }
}

// What is told of a bracket's partner, from the bracket's role and the partner's place.
fn told<X: Copy, G: Grammar, H: Meter<Reading = X>>(
    tree: &ChunkTree<Readings<X>>,
    meter: &DocumentMeter<G, H>,
    role: Role,
    found: Option<u32>,
) -> Option<Partner>
    ensures { KeptBy tree.now (scale_of G.meaning H.scale meter.now) → (place : ℕ) → role_at (G.meaning meter.now.first.grammar) (text_in tree.now) place ≡ role → result ≡ told (G.meaning meter.now.first.grammar) (text_in tree.now) place found }
{
    let place = found?;
    let other = role_at(tree, meter, place);
    Some(Partner {
        place,
        agree: kind_of(role) == kind_of(other),
    })
}

// The partner of the bracket at a place, if it has one.
pub fn partner_of<X: Copy, G: Grammar, H: Meter<Reading = X>>(
    tree: &ChunkTree<Readings<X>>,
    meter: &DocumentMeter<G, H>,
    place: u32,
) -> Result<Option<Partner>, Refusal>
    ensures decides { KeptBy tree.now (scale_of G.meaning H.scale meter.now) → refusal_in result ≡ partner_refusal (G.meaning meter.now.first.grammar) (model_in tree.now None) place }
    ensures anyway { RefusedAnyway (text_in tree.now) place result }
    ensures finds { KeptBy tree.now (scale_of G.meaning H.scale meter.now) → IfOk result (λ p. p ≡ partner (G.meaning meter.now.first.grammar) (text_in tree.now) place) }
{
    if place >= tree.bytes() {
        return Err(Refusal::OutsidePlace(place as u64));
    }
    let role = role_at(tree, meter, place);
    let found = match role {
        Role::Plain => return Err(Refusal::NoBracket(place as u64)),
        Role::Opening(_) => partner_ahead(tree, meter, place),
        Role::Closing(_) => partner_behind(tree, meter, place),
    };
    Ok(told(tree, meter, role, found))
}
