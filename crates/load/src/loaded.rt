// What a tree says of the text in it: how large it is, and what the document's meter reads of all its bytes from state 0.
use report::summary::Summary;

#[derive(Clone, Copy)]
pub struct Loaded {
    pub bytes: u32,
    pub chunks: u16,
    pub height: u8,
    pub summary: Option<Summary>,
}
