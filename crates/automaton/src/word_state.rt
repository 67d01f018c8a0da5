// Where a walk through scene words is. A state's number is that of its variant.

#[derive(Clone, Copy)]
pub enum WordState {
    // Between words.
    Ground,
    InWord,
    InNumber,
}
