// The grammar of each pile, built in one place for whatever is to be done with it.
ghost use Rattle.automaton.specs.Automaton.{Automaton};
ghost use Rattle.hosting.specs.Piles.{automaton_of};

use grammar::{Grammar, Words};
use layers::{Comment, Quoted, Region};
use report::Pile;

// What is to be done with a grammar, whichever it is. No closure: none is generic over the grammar, and a bound on one that takes
// a `&dyn Grammar` cannot be stated. In this trait a `&dyn Grammar` would be no plainer, and each byte would be read through a table.
pub trait Work {
    type Output;

    // What is true of what it leaves and gives, under a grammar of that meaning.
    ghost done: { Self → Automaton → Self → Self.Output → Type 0 };

    fn run<G: Grammar + Copy>(&mut self, grammar: &G) -> Self::Output
        ensures { done self.old (G.meaning grammar.now) self.new result };
}

// Does the work with the pile's grammar.
pub fn with_pile<W: Work>(pile: Pile, work: &mut W) -> W::Output
    ensures { W.done work.old (automaton_of pile) work.new result }
{
    let comment = Comment { below: Words };
    let string = Quoted { below: Words };
    let region = Region {
        below: Words,
        inner: Words,
    };
    let comment4 = Comment {
        below: Comment {
            below: Comment { below: comment },
        },
    };
    match pile {
        Pile::Words => work.run(&Words),
        Pile::Comment => work.run(&comment),
        Pile::String => work.run(&string),
        Pile::Region => work.run(&region),
        Pile::StringComment => work.run(&Quoted { below: comment }),
        Pile::CommentString => work.run(&Comment { below: string }),
        Pile::CommentRegion => work.run(&Comment { below: region }),
        Pile::StringRegion => work.run(&Quoted { below: region }),
        Pile::Comment4 => work.run(&comment4),
        Pile::Comment5 => work.run(&Comment { below: comment4 }),
    }
}
