// What reading one byte comes to, and the role that a byte plays by its class.
// Class and state stay numbers: the one is what a screen shows, the other is counted by each grammar on its own.
ghost use Rattle.std.specs.Prelude.{◌≡◌};
ghost use Rattle.automaton.specs.Class.{blank};
ghost use Rattle.automaton.specs.Bracket.{role_of as role_by};

use crate::class;
use automaton::role::{BracketKind, Role};

#[derive(Clone, Copy, PartialEq, Eq, Debug)]
pub struct Step {
    // The class of the byte.
    pub class: u8,
    // The state behind it.
    pub behind: u8,
}

impl Step {
    // Outside a grammar's states nothing is coloured, and the state stays.
    pub fn outside(state: u8) -> Step
        ensures { result ≡ record { class = blank; behind = state } }
    {
        Step {
            class: class::BLANK,
            behind: state,
        }
    }
}

// The role of a byte of a class: a bracket that is a mark, or nothing.
pub fn role_of(class: u8, byte: u8) -> Role
    ensures { result ≡ role_by class byte }
{
    if class != class::MARK {
        return Role::Plain;
    }
    match byte {
        b'(' => Role::Opening(BracketKind::Round),
        b')' => Role::Closing(BracketKind::Round),
        b'[' => Role::Opening(BracketKind::Square),
        b']' => Role::Closing(BracketKind::Square),
        b'{' => Role::Opening(BracketKind::Curly),
        b'}' => Role::Closing(BracketKind::Curly),
        _ => Role::Plain,
    }
}
