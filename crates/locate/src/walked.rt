// What a walk to a place keeps: how many bytes are left to it, and the state so far.

#[derive(Clone, Copy, PartialEq, Eq)]
pub struct Walked {
    pub left: usize,
    pub state: u8,
}
