// The states of the text's walk, sought in the tree: before a place, and where two walks meet.
// Here, in screen.rt and in apply.rt the tree and its meter stay two parameters: in a struct each clause would read `self.now.tree.now` for `tree.now`.
// `KeptBy tree μ` is a premise and no ghost field: a call may be given another meter than the tree was kept by, and what holds then is promised without it.
ghost use Rattle.std.specs.Prelude.{◌≡◌, ◌≤◌, length, drop};
ghost use Rattle.automaton.specs.Walk.{state_before};
ghost use Rattle.model.specs.End.{apart};
ghost use Rattle.tree.specs.Public.{KeptBy};
ghost use Rattle.editing.specs.Content.{text_in, scale_of};

use grammar::Grammar;
use locate::two_states::TwoStates;
use locate::walked::Walked;
use locate::{First, Meeting, On, StateBefore};
use meter::Meter;
use tree::ChunkTree;
use walks::{DocumentMeter, Readings};

// The state before a place of the text, in a walk begun at its first byte.
#[tactic(auto, using(locate::proofs::Walking::walk_comes_to_place))]
pub fn state_before<X: Copy, G: Grammar, H: Meter<Reading = X>>(
    tree: &ChunkTree<Readings<X>>,
    meter: &DocumentMeter<G, H>,
    place: u32,
) -> u8
    ensures { KeptBy tree.now (scale_of G.meaning H.scale meter.now) → result ≡ state_before (G.meaning meter.now.first.grammar) (text_in tree.now) place }
{
    let search = On {
        side: First(&meter.second),
        search: StateBefore {
            grammar: &meter.first.grammar,
        },
    };
    let start = Walked {
        left: place as usize,
        state: 0,
    };
    tree.seek(&search, 0, start).at.state
}

// How far two walks go on from a place, one in each of the states, before they are in one state.
#[tactic(auto, using(crate::proofs::Apart::stop_apart))]
pub fn apart_from<X: Copy, G: Grammar, H: Meter<Reading = X>>(
    tree: &ChunkTree<Readings<X>>,
    meter: &DocumentMeter<G, H>,
    place: u32,
    states: TwoStates,
) -> usize
    ensures within { result ≤ length (drop place (text_in tree.now)) }
    ensures meets { KeptBy tree.now (scale_of G.meaning H.scale meter.now) → result ≡ apart (G.meaning meter.now.first.grammar) states.old states.new (drop place (text_in tree.now)) }
{
    let search = On {
        side: First(&meter.second),
        search: Meeting {
            grammar: &meter.first.grammar,
        },
    };
    tree.seek(&search, place, states).passed
}
