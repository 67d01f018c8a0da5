// Colouring and walking a run of bytes from a state: the leaves that every call uses.
// Grammar and state stay two parameters: the one never changes, the other with each byte.
ghost use Rattle.std.specs.Prelude.{◌≡◌, ◌++◌, length, take, drop};
ghost use Rattle.automaton.specs.Walk.{walk as walk_from, colours_from};

use crate::interface::Grammar;

// The state behind `bytes`, read from `state` on.
pub fn walk<G: Grammar>(grammar: &G, state: u8, bytes: &[u8]) -> u8
    ensures { result ≡ walk_from (G.meaning grammar.now) state bytes.now }
{
    bytes
        .iter()
        .fold(state, |behind, byte| grammar.step(behind, *byte))
}

// Colours the bytes, read from `state` on, into the front of `out`, and gives the state behind them.
// Where `out` is the shorter, only the bytes that it has room for are read; where it is longer, its rest stays.
pub fn colour<G: Grammar>(grammar: &G, state: u8, bytes: &[u8], out: &mut [u8]) -> u8
    ensures behind { result ≡ walk_from (G.meaning grammar.now) state (take (length out.old) bytes.now) }
    ensures coloured { out.new ≡ colours_from (G.meaning grammar.now) state (take (length out.old) bytes.now) ++ drop (length bytes.now) out.old }
{
    let room = bytes.len().min(out.len());
    let front = &mut out[..room];
    front.copy_from_slice(&bytes[..room]);
    grammar.colour_cells(state, front)
}
