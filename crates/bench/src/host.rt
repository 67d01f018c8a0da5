// A document with what its calls are lent, and the calls that the measurements make.
use document::{Answer, Call, Desk, Document};
use grammar::Grammar;
use meter::Blank;
use model::Change;
use walks::{DocumentMeter, Readings};

pub const SLOTS: u16 = 4096;

// As many cells as the longest text has bytes.
pub const CELLS: usize = 262144;

// The most bytes that an edit puts in.
const PIECE: usize = 1024;

#[derive(Drop)]
pub struct Host<'d, G> {
    pub document: Document<'d, Readings<()>>,
    pub meter: DocumentMeter<G, Blank>,
    pub desk: Desk<'d, Readings<()>>,
}

impl<G: Grammar> Host<'_, G> {
    pub fn perform(&mut self, call: Call) -> Answer {
        self.document.perform(&self.meter, &mut self.desk, call)
    }

    // An edit, and the change that waits to be painted.
    pub fn edit(&mut self, from: u32, to: u32, bytes: &[u8]) -> Option<Change> {
        match self.perform(Call::Edit { from, to, bytes }) {
            Answer::Due(change) => Some(change),
            _ => None,
        }
    }

    pub fn paint(&mut self, change: Option<Change>) {
        if let Some(change) = change {
            self.perform(Call::Paint { change });
        }
    }

    pub fn put(&mut self, place: u32, bytes: &[u8]) {
        let change = self.edit(place, place, bytes);
        self.paint(change);
    }

    pub fn bytes(&self) -> u32 {
        let (bytes, _, _) = self.document.size();
        bytes
    }

    // Puts a text behind what is there, piece by piece.
    pub fn load(&mut self, text: &[u8]) {
        for piece in text.chunks(PIECE) {
            self.put(self.bytes(), piece);
        }
    }
}
