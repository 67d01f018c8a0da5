// What a line asks.
use model::{Change, Replacement};

#[derive(Drop)]
pub enum Request {
    // An empty line or a comment.
    PassedOver,
    Open,
    Edit {
        from: u32,
        to: u32,
        bytes: Vec<u8>,
    },
    // With the due that stands, or with one that is given in four numbers.
    Paint(Option<Change>),
    Close,
    // With a room of so many cells, or as much as there is.
    Text {
        from: u32,
        to: u32,
        room: Option<u32>,
    },
    Colours {
        from: u32,
        to: u32,
        room: Option<u32>,
    },
    Size,
    // A screen of so many cells, or the one that is there.
    Screen(Option<u32>),
    // Records that take their new bytes from one text.
    Script {
        text: Vec<u8>,
        records: Vec<Replacement>,
    },
    Range {
        from: u32,
        to: u32,
    },
    Same {
        place: u32,
        bytes: Vec<u8>,
    },
    Place(u32),
    Spot {
        line: u32,
        column: u32,
    },
    Partner(u32),
}
