// Where a search came to.

#[derive(Clone, Copy, PartialEq, Eq)]
pub struct Stop<A> {
    // How many bytes it ran through.
    pub passed: usize,
    // What it kept behind them.
    pub at: A,
    // Whether it stopped there, before a byte, or ran out of bytes. No enum of the two: what is above is told in both cases.
    pub stopped: bool,
}
