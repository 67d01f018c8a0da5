// What two meters say of one text, side by side.

#[derive(Clone, Copy, PartialEq, Eq)]
pub struct PairReading<A, B> {
    pub first: A,
    pub second: B,
}
