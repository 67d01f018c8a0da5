// What the search for an opening's partner keeps: the state, and how many openings are still unmatched.

#[derive(Clone, Copy, PartialEq, Eq)]
pub struct Nested {
    pub state: u8,
    pub depth: u32,
}
