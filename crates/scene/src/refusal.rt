// Why the program cannot do what it is asked for.
use hosting::{Misread, MisreadAt};
use load::MOST;
use report::NAMES;
use std::fmt;

#[derive(Clone, Copy)]
pub enum Refusal<'w> {
    Misread { word: &'w str, misread: Misread },
    CutOff,
    UnknownPile(&'w str),
    SecondPile,
    UnusablePile,
    TreeSize(&'w str),
    // The text needs more than so many slots.
    TooLong(u16),
}

impl<'w> From<MisreadAt<'w>> for Refusal<'w> {
    fn from(at: MisreadAt<'w>) -> Refusal<'w> {
        match at.word {
            Some(word) => Refusal::Misread {
                word,
                misread: at.misread,
            },
            None => Refusal::CutOff,
        }
    }
}

impl fmt::Display for Refusal<'_> {
    fn fmt<W: fmt::Write>(&self, f: &mut fmt::Formatter<W>) -> fmt::Result {
        match *self {
            Refusal::Misread { word, misread } => {
                write!(f, "{word}: {misread}; the piles are {NAMES}")
            }
            Refusal::CutOff => write!(f, "a number is missing at the end"),
            Refusal::UnknownPile(word) => {
                write!(f, "no pile is called {word}; the piles are {NAMES}")
            }
            Refusal::SecondPile => write!(f, "one pile at a time; the piles are {NAMES}"),
            Refusal::UnusablePile => write!(
                f,
                "this pile needs more than 64 states and cannot be used; the piles are {NAMES}"
            ),
            Refusal::TreeSize(word) => write!(f, "a tree has 1 to {MOST} slots, and not {word}"),
            Refusal::TooLong(slots) => {
                write!(f, "the text needs more than {slots} slots of 64 bytes each")
            }
        }
    }
}

impl Refusal<'_> {
    // The last line on standard error: it names the kind alone, since the line before has told the rest.
    fn in_short(&self) -> &'static str {
        match self {
            Refusal::Misread { .. } | Refusal::CutOff => "words that cannot be followed",
            Refusal::UnknownPile(_) => "an unknown pile",
            Refusal::SecondPile => "more than one pile",
            Refusal::UnusablePile => "a pile that cannot be used",
            Refusal::TreeSize(_) => "a tree of another size",
            Refusal::TooLong(_) => "a text that does not fit",
        }
    }
}

// What was asked for; a refusal is told on the standard error, and ends the program.
pub fn told<T>(rt: &HostRuntime, asked: Result<T, Refusal>) -> anyhow::Result<T> {
    match asked {
        Ok(value) => Ok(value),
        Err(refusal) => {
            eprintln!(rt; "scene: {refusal}")?;
            Err(anyhow::Error::msg(refusal.in_short()))
        }
    }
}
