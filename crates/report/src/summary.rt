// The extent of a text, as the document's meter reads it from state 0.
ghost use Rattle.std.specs.Prelude.{Some};
ghost use Rattle.report.specs.Summary.{summary_line};

use std::fmt;

#[derive(Clone, Copy)]
pub struct Summary {
    pub length: u32,
    pub lines: u32,
    pub units: u32,
    pub state: u8,
    pub closings: u32,
    pub openings: u32,
}

// The line that the program writes of it.
impl fmt::Display for Summary {
    ghost output = { λ summary. Some (summary_line (Some summary)) };

    fn fmt<W: fmt::Write>(&self, f: &mut fmt::Formatter<W>) -> fmt::Result {
        let Summary {
            length,
            lines,
            units,
            state,
            closings,
            openings,
        } = *self;
        write!(
            f,
            "length {length} lines {lines} units {units} state {state} closings {closings} openings {openings}"
        )
    }
}

// That line, or what is written in its place of a text that has no summary.
#[derive(Clone, Copy)]
pub struct SummaryLine(pub Option<Summary>);

impl fmt::Display for SummaryLine {
    ghost output = { λ line. Some (summary_line line.0) };

    fn fmt<W: fmt::Write>(&self, f: &mut fmt::Formatter<W>) -> fmt::Result {
        match self.0 {
            Some(summary) => write!(f, "{summary}"),
            None => f.write_str("overlong"),
        }
    }
}
