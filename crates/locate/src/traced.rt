// How far a walk is traced: how many bytes it has read, and the state behind them.

#[derive(Clone, Copy, PartialEq, Eq)]
pub struct Traced {
    pub read: u32,
    pub state: u8,
}
