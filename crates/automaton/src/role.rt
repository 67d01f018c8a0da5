// The part that a byte plays in the pairing of brackets.

#[derive(Clone, Copy, PartialEq, Eq, Debug)]
pub enum BracketKind {
    // ( and )
    Round,
    // [ and ]
    Square,
    // { and }
    Curly,
}

// Its kind is another type where no grammar gives it: how deep a bracket leads does not depend on its kind.
#[derive(Clone, Copy, PartialEq, Eq, Debug)]
pub enum Role<K = BracketKind> {
    // No bracket, or one that is not live, as in a comment.
    Plain,
    // A live opening bracket of a kind.
    Opening(K),
    // A live closing bracket of a kind.
    Closing(K),
}
