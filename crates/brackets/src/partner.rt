// What is told of a bracket's partner: where it is, and whether the two are of one kind.

#[derive(Clone, Copy, PartialEq, Eq, Debug)]
pub struct Partner {
    pub place: u32,
    pub agree: bool,
}
