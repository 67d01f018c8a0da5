// What the number of a layer's state stands for, layer by layer.
// A state of the grammar below is called s while that grammar reads, and t while it waits.

#[derive(Clone, Copy)]
pub enum CommentState {
    // The grammar below is in s.
    Below(u8),
    // In a comment; the grammar below waits in t.
    Inside(u8),
}

#[derive(Clone, Copy)]
pub enum QuotedState {
    // The grammar below is in s.
    Below(u8),
    // In a string; the grammar below waits in t.
    Inside(u8),
    // Behind a backslash in a string; the grammar below waits in t.
    Escaped(u8),
}

#[derive(Clone, Copy)]
pub enum RegionState {
    // The grammar below is in s.
    Below(u8),
    // In a region: the grammar below waits in the first, the region's own grammar is in the second.
    Inside(u8, u8),
}
