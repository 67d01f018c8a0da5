// What the meter of places says of a text: how far it reaches, in bytes, in lines and in units.

#[derive(Clone, Copy, PartialEq, Eq)]
pub struct Extent {
    // The bytes.
    pub length: u32,
    // The line ends.
    pub lines: u32,
    // The UTF-16 units of the last line, the one that no line end closes.
    pub units: u32,
}
