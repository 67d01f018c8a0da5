// What the search for a place keeps: how many bytes are left to it, and the lines and the units so far.

#[derive(Clone, Copy, PartialEq, Eq)]
pub struct Placed {
    pub left: usize,
    pub lines: u32,
    pub units: u32,
}
