// The names of the piles: of each its own, and the pile that has a name.
ghost use Rattle.std.specs.Prelude.{◌≡◌};
ghost use Rattle.report.specs.Piles.{pile_name, listed, FindsByName};

use crate::pile::{NAMES, PILES, Pile};

impl Pile {
    // A text and no Display, since `named` compares it.
    pub fn name(self) -> &'static str
        ensures { result.now ≡ pile_name self }
    {
        match self {
            Pile::Words => "words",
            Pile::Comment => "comment",
            Pile::String => "string",
            Pile::Region => "region",
            Pile::StringComment => "string-comment",
            Pile::CommentString => "comment-string",
            Pile::CommentRegion => "comment-region",
            Pile::StringRegion => "string-region",
            Pile::Comment4 => "comment4",
            Pile::Comment5 => "comment5",
        }
    }

    // An Option and no FromStr: whoever looks for a pile has an error of its own for a name that none has.
    pub fn named(name: &str) -> Option<Pile>
        ensures { FindsByName name.now result }
    {
        PILES.iter().copied().find(|pile| pile.name() == name)
    }
}

// The list of names has the name of every pile.
pub fn names_list_all_piles()
    ensures { NAMES.now ≡ listed PILES }
{}
