// What scene words makes of each byte from each of its states, as a table, since every byte that is read is looked up here.
ghost use Rattle.std.specs.Prelude.{◌≡◌};
ghost use Rattle.grammar.specs.WordSteps.{word_steps};

use crate::class;
use crate::step::Step;
use automaton::word_state::WordState;

pub(crate) const COUNT: u8 = 3;

const BLANK: Step = Step {
    class: class::BLANK,
    behind: WordState::Ground as u8,
};

const WORD: Step = Step {
    class: class::WORD,
    behind: WordState::InWord as u8,
};

const NUMBER: Step = Step {
    class: class::NUMBER,
    behind: WordState::InNumber as u8,
};

const MARK: Step = Step {
    class: class::MARK,
    behind: WordState::Ground as u8,
};

// What each kind of byte comes to on the ground, in a word and in a number.
const B: [Step; 3] = [BLANK, BLANK, BLANK];

const L: [Step; 3] = [WORD, WORD, WORD];

const D: [Step; 3] = [NUMBER, WORD, NUMBER];

const P: [Step; 3] = [MARK, MARK, NUMBER];

const O: [Step; 3] = [MARK, MARK, MARK];

// Blanks, letters, digits, the point and other bytes, 32 a row.
static STEPS: [[Step; 3]; 256] = [
    O, O, O, O, O, O, O, O, O, B, B, O, O, B, O, O, O, O, O, O, O, O, O, O, O, O, O, O, O, O, O, O,
    B, O, O, O, O, O, O, O, O, O, O, O, O, O, P, O, D, D, D, D, D, D, D, D, D, D, O, O, O, O, O, O,
    O, L, L, L, L, L, L, L, L, L, L, L, L, L, L, L, L, L, L, L, L, L, L, L, L, L, L, O, O, O, O, L,
    O, L, L, L, L, L, L, L, L, L, L, L, L, L, L, L, L, L, L, L, L, L, L, L, L, L, L, O, O, O, O, O,
    L, L, L, L, L, L, L, L, L, L, L, L, L, L, L, L, L, L, L, L, L, L, L, L, L, L, L, L, L, L, L, L,
    L, L, L, L, L, L, L, L, L, L, L, L, L, L, L, L, L, L, L, L, L, L, L, L, L, L, L, L, L, L, L, L,
    L, L, L, L, L, L, L, L, L, L, L, L, L, L, L, L, L, L, L, L, L, L, L, L, L, L, L, L, L, L, L, L,
    L, L, L, L, L, L, L, L, L, L, L, L, L, L, L, L, L, L, L, L, L, L, L, L, L, L, L, L, L, L, L, L,
];

#[inline(always)]
pub(crate) fn steps_of(byte: u8) -> &'static [Step; 3]
    ensures { result.now ≡ word_steps byte }
{
    &STEPS[byte as usize]
}
