// What the search for a column in a line keeps: how many line ends are still before the line, and its units so far.

#[derive(Clone, Copy, PartialEq, Eq)]
pub struct Lined {
    pub lines: u32,
    pub units: u32,
}
