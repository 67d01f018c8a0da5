// Scene words: blanks, words, numbers and marks, the grammar at the bottom of every pile.
ghost use Rattle.std.specs.Prelude.{◌≡◌};
ghost use Rattle.automaton.specs.Words.{words};
ghost use Rattle.automaton.proofs.Words.{words_lawful};

use crate::interface::Grammar;
use crate::step::Step;
use crate::words_table::{COUNT, steps_of};

#[derive(Clone, Copy)]
pub struct Words;

impl Grammar for Words {
    ghost meaning = { λ _. words };

    ghost lawful = { λ _. words_lawful };

    fn count(&self) -> u8 {
        COUNT
    }

    fn step(&self, state: u8, byte: u8) -> u8 {
        self.read(state, byte).behind
    }

    fn class(&self, state: u8, byte: u8) -> u8 {
        self.read(state, byte).class
    }

    fn is_open(&self, state: u8) -> bool {
        state < COUNT
    }

    #[inline(always)]
    fn read(&self, state: u8, byte: u8) -> Step {
        match steps_of(byte).get(state as usize) {
            Some(step) => *step,
            None => Step::outside(state),
        }
    }
}
