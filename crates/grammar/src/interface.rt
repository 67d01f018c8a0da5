// The interface of a grammar: four answers, each from the grammar's own value alone, and what follows from them of a byte.
ghost use Rattle.std.specs.Prelude.{◌≡◌};
ghost use Rattle.automaton.specs.Automaton.{Automaton, Lawful};
ghost use Rattle.automaton.specs.Bracket.{role as role_in};
ghost use Rattle.automaton.specs.Walk.{walk as walk_from, colours_from};

use crate::step::{Step, role_of};
use automaton::role::Role;

// States are numbers below the count, since each grammar has its own and a reading keeps an entry for each number.
pub trait Grammar {
    // The four answers as values, and the proof of their laws.
    ghost meaning: { Self → Automaton };

    ghost lawful: { (g : Self) → Lawful (meaning g) };

    // How many states there are, at most 64; 0 says that the grammar cannot be used.
    fn count(&self) -> u8
        ensures { result ≡ (meaning self.now).count };

    // The state after `byte`.
    fn step(&self, state: u8, byte: u8) -> u8
        ensures { result ≡ (meaning self.now).step state byte };

    // The class, which is the colour, of `byte` read from `state`.
    fn class(&self, state: u8, byte: u8) -> u8
        ensures { result ≡ (meaning self.now).class state byte };

    // Whether a layer above may begin at `state`.
    fn is_open(&self, state: u8) -> bool
        ensures { result ≡ (meaning self.now).is_open state };

    // The class of `byte` read from `state`, and the state behind it, together.
    fn read(&self, state: u8, byte: u8) -> Step
        ensures class { result.class ≡ (meaning self.now).class state byte }
        ensures behind { result.behind ≡ (meaning self.now).step state byte }
    {
        Step {
            class: self.class(state, byte),
            behind: self.step(state, byte),
        }
    }

    // Each cell holds a byte; read from `state` on, it gives way to its class. Gives the state behind the bytes.
    fn colour_cells(&self, state: u8, cells: &mut [u8]) -> u8
        ensures behind { result ≡ walk_from (meaning self.now) state cells.old }
        ensures coloured { cells.new ≡ colours_from (meaning self.now) state cells.old }
    {
        let mut now_in = state;
        for cell in cells.iter_mut() {
            let read = self.read(now_in, *cell);
            *cell = read.class;
            now_in = read.behind;
        }
        now_in
    }

    // The role of `byte` read from `state`: a bracket that is a mark, or nothing.
    fn role(&self, state: u8, byte: u8) -> Role
        ensures { result ≡ role_in (meaning self.now) state byte }
    {
        role_of(self.class(state, byte), byte)
    }
}
