// A grammar that is lent answers as the grammar itself does.
use crate::interface::Grammar;
use crate::step::Step;
use automaton::role::Role;

impl<G: Grammar> Grammar for &G {
    ghost meaning = { λ g. G.meaning g.now };

    ghost lawful = { λ g. G.lawful g.now };

    fn count(&self) -> u8 {
        (**self).count()
    }

    fn step(&self, state: u8, byte: u8) -> u8 {
        (**self).step(state, byte)
    }

    fn class(&self, state: u8, byte: u8) -> u8 {
        (**self).class(state, byte)
    }

    fn is_open(&self, state: u8) -> bool {
        (**self).is_open(state)
    }

    #[inline(always)]
    fn read(&self, state: u8, byte: u8) -> Step {
        (**self).read(state, byte)
    }

    fn colour_cells(&self, state: u8, cells: &mut [u8]) -> u8 {
        (**self).colour_cells(state, cells)
    }

    fn role(&self, state: u8, byte: u8) -> Role {
        (**self).role(state, byte)
    }
}
