// Where the reading of an edit's bytes stands, and what a byte of the line does there.

#[derive(Clone, Copy)]
pub enum Spot {
    // In front of the bytes.
    Start,
    // Behind an x: in front of a pair of digits, or behind the last.
    Pairs,
    // Behind the first digit of a pair, of this value.
    Pair(u8),
    // In quotes, in front of a byte.
    Text,
    // Behind a backslash.
    Backslash,
    // Behind \x, and behind its first digit, of this value.
    Code,
    CodeDigit(u8),
    // Behind the bytes.
    Behind,
}

#[derive(Clone, Copy)]
pub enum Step {
    // No Option around the other two: each arm of a step would say `Some(Step::..)`.
    Wrong,
    To(Spot),
    // A byte is read.
    Gives(u8, Spot),
}
