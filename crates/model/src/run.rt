// Consecutive chunks, from `first` up to `last`, and the places where they begin and end.

#[derive(Clone, Copy, PartialEq, Eq)]
pub struct Run {
    pub first: u16,
    pub last: u16,
    pub start: u32,
    pub end: u32,
}
