// What a lent slot holds: its place in the tree, the length and the reading of its own chunk, and its link among the free slots.

// How large a tree is: its height, its bytes and its chunks.
#[derive(Clone, Copy)]
pub struct Extent {
    pub height: u8,
    pub bytes: u32,
    pub chunks: u16,
}

impl Extent {
    // How large no tree is.
    pub const NONE: Extent = Extent {
        height: 0,
        bytes: 0,
        chunks: 0,
    };
}

// A slot's place in the tree: what is on its two sides, and how large the tree under it is, itself included.
#[derive(Clone, Copy)]
pub struct Node {
    pub left: Option<u16>,
    pub right: Option<u16>,
    pub extent: Extent,
}

impl Node {
    // The place of a slot that is in no tree.
    pub const ALONE: Node = Node {
        left: None,
        right: None,
        extent: Extent::NONE,
    };
}

#[derive(Clone, Copy)]
pub struct Slot<R> {
    pub node: Node,
    // The length of the slot's own chunk, whose bytes are in the store: memory of a fixed size is lent for each.
    pub size: u8,
    // The next free slot, where this one is free.
    pub next: Option<u16>,
    // The reading of the slot's own chunk.
    pub own: R,
}
