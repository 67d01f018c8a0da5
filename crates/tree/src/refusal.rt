// Why a chunk tree refuses to copy, to be prepared or to replace chunks.

#[derive(Clone, Copy, PartialEq, Eq, Debug)]
pub enum CopyRefusal {
    // The range is none of the text.
    OutsideText,
    // The buffer has no room for it.
    ShortBuffer,
}

#[derive(Clone, Copy, PartialEq, Eq, Debug)]
pub enum PrepareRefusal {
    // Slots are usable already.
    Prepared,
    // No tree has so many slots: it is 0, or above 4,096.
    UnfitNumber,
    // Less is lent than so many slots need.
    ShortMemory,
}

#[derive(Clone, Copy, PartialEq, Eq, Debug)]
pub enum ReplaceRefusal {
    // The chunks named are no run of the tree's.
    NoRun,
    // There are not slots enough.
    NoRoom,
}
