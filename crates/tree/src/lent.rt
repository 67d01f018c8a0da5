// How much memory is lent to a tree: its slots, the bytes of its store, its readings.

#[derive(Clone, Copy, PartialEq, Eq)]
pub struct Lent {
    pub slots: usize,
    pub store: usize,
    pub readings: usize,
}
