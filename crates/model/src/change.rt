// What an edit did to the text: the four numbers of a due.

#[derive(Clone, Copy, PartialEq, Eq, Debug)]
pub struct Change {
    // Where the edit begins.
    pub place: u32,
    // How many bytes it took out there, and how many it put in.
    pub removed: u32,
    pub inserted: u32,
    // Up to where the text has to be coloured anew: behind it old and new colours are the same.
    pub end: u32,
}
