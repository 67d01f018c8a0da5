// A place in a list of chunks: how many chunks lie before it, and how many bytes of the next one.

#[derive(Clone, Copy, PartialEq, Eq, Debug)]
pub struct Spot {
    pub chunk: u16,
    pub inside: u32,
}
