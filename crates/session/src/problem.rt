// Why a line cannot be read.
ghost use Rattle.std.specs.Prelude.{◌≡◌, Some};
ghost use Rattle.session.specs.Asked.{problem_text};

use std::fmt;

#[derive(Clone, Copy, PartialEq, Eq, Debug)]
pub enum Problem {
    UnknownCall,
    // A number that is missing, or is none from 0 to 4294967295.
    Number,
    // Bytes that are missing, or are not written as wanted.
    Bytes,
    // A word behind a script's text that is none of its records.
    Record,
    // Words behind the call.
    LeftOver,
}

impl Problem {
    // The text by itself, which takes no memory and no formatter; what is displayed is this.
    pub fn text(self) -> &'static str
        ensures { result.now ≡ problem_text self }
    {
        match self {
            Problem::UnknownCall => "unknown call",
            Problem::Number => "a number from 0 to 4294967295 is wanted",
            Problem::Bytes =>
                "bytes are wanted, as x and pairs of hexadecimal digits or as text in quotes",
            Problem::Record =>
                "records are wanted as four numbers with commas between, FROM,TO,START,END",
            Problem::LeftOver => "words are left over behind the call",
        }
    }
}

impl fmt::Display for Problem {
    ghost output = { λ problem. Some (problem_text problem) };

    fn fmt<W: fmt::Write>(&self, f: &mut fmt::Formatter<W>) -> fmt::Result {
        f.write_str(self.text())
    }
}
