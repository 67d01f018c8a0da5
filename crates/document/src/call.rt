// A call as a value, with all that it is given, and what it answers: what a log of calls is made of.
use crate::document::script::RecordRefusal;
use brackets::Partner;
use model::{Change, Refusal, Replacement};

#[derive(Clone, Copy)]
pub enum Call<'a> {
    Size,
    // OPEN with a grammar of so many states.
    Open {
        states: u8,
    },
    Edit {
        from: u32,
        to: u32,
        bytes: &'a [u8],
    },
    // PAINT with a due of any four numbers.
    Paint {
        change: Change,
    },
    // SCRIPT with the records and the text that they take their new bytes from.
    Script {
        records: &'a [Replacement],
        text: &'a [u8],
    },
    Close,
    // TEXT and COLOURS write to the front of the buffer, of which they may use so many cells.
    Text {
        from: u32,
        to: u32,
        room: usize,
    },
    Colours {
        from: u32,
        to: u32,
        room: usize,
    },
    // RANGE writes to the lent reading.
    Range {
        from: u32,
        to: u32,
    },
    Same {
        place: u32,
        bytes: &'a [u8],
    },
    Place {
        place: u32,
    },
    Spot {
        line: u32,
        column: u32,
    },
    Partner {
        place: u32,
    },
}

#[derive(Clone, Copy)]
pub enum Answer {
    Closed,
    Pass,
    Due(Change),
    // SCRIPT: how many records were done, or the one that was refused.
    Done(usize),
    RecordRefused(RecordRefusal),
    // TEXT, COLOURS and RANGE: what was asked for was written.
    Written,
    Size { bytes: u32, chunks: u16, height: u8 },
    // SAME
    Begins(bool),
    // PLACE: line and column.
    Position { line: u32, column: u32 },
    // SPOT
    Spot(u32),
    Partner(Option<Partner>),
    Refused(Refusal),
}
