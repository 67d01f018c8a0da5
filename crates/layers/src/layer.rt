// What the layers share: the count that a layer may have, and where one begins.
ghost use Rattle.std.specs.Prelude.{◌≡◌};
ghost use Rattle.automaton.specs.Layer.{fitted as fitted_to, begins as begins_at};

use grammar::Grammar;

pub(crate) const LINE_FEED: u8 = b'\n';

// The most states that a grammar may have.
const MOST_STATES: u16 = 64;

// The count of a layer that would have `states` states: 0, which is unusable, past the most.
pub(crate) fn fitted(states: u16) -> u8
    ensures { result ≡ fitted_to states }
{
    if states <= MOST_STATES {
        states as u8
    } else {
        0
    }
}

// Whether `byte` is the begin byte of a layer and is read where the grammar is open.
pub(crate) fn begins<G: Grammar>(begin: u8, grammar: &G, state: u8, byte: u8) -> bool
    ensures { result ≡ begins_at begin (G.meaning grammar.now) state byte }
{
    byte == begin && grammar.is_open(state)
}
