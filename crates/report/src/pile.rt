// The piles that the program knows by name: scene words with layers on it.

#[derive(Clone, Copy)]
pub enum Pile {
    Words,
    Comment,
    String,
    Region,
    StringComment,
    CommentString,
    CommentRegion,
    StringRegion,
    Comment4,
    Comment5,
}

// All of them, in the order in which a message lists them.
pub const PILES: [Pile; 10] = [
    Pile::Words,
    Pile::Comment,
    Pile::String,
    Pile::Region,
    Pile::StringComment,
    Pile::CommentString,
    Pile::CommentRegion,
    Pile::StringRegion,
    Pile::Comment4,
    Pile::Comment5,
];

// Their names in that order. A text and not written from them, as it is a constant; that it lists them is proved.
pub const NAMES: &str =
    "words, comment, string, region, string-comment, comment-string, comment-region, string-region, comment4, comment5";
