// What the search for a meeting keeps: the states of the two walks.

#[derive(Clone, Copy, PartialEq, Eq)]
pub struct TwoStates {
    pub old: u8,
    pub new: u8,
}
