// A document: the tree of its text's chunks, how many line ends the text has, and the change that waits to be painted.
// The line ends are counted apart from the readings, so that a line is known to exist or not whatever meter a call is given.
ghost use Rattle.std.specs.Prelude.{◌≡◌, true, length};
ghost use Rattle.measure.specs.Place.{line_ends};
ghost use Rattle.model.specs.Calls.{due_fits};
ghost use Rattle.editing.specs.Content.{text_in};

use model::Change;
use tree::ChunkTree;

pub mod calls;
pub mod log;
pub mod queries;
pub mod script;
pub mod untyped;

// It holds no meter: each call is given one, and may be given another. A range is two numbers, as in the rules: what is no range of
// the text is given too, and refused with its second number, and in a struct each clause would read `span.from span.to`.
#[derive(Drop)]
pub struct Document<'a, R> {
    tree: ChunkTree<'a, R>,
    lines: u32,
    due: Option<Change>,
    ghost counted: { lines ≡ line_ends (text_in tree) },
    ghost fitting: { due_fits due (length (text_in tree)) ≡ true },
}
