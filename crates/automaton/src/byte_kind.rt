// What scene words sees in a byte, whatever the state.

#[derive(Clone, Copy)]
pub enum ByteKind {
    Blank,
    Letter,
    Digit,
    Point,
    Other,
}
