// The colours of a whole text, in memory of their own.
ghost use Rattle.std.specs.Prelude.{◌≡◌, IfOk};
ghost use Rattle.automaton.specs.Walk.{colours};
ghost use Rattle.report.specs.Rendered.{rendered};

use crate::render::render;
use crate::view::View;
use grammar::{Grammar, colour};
use std::alloc::{AllocError, Global};

// The colour of each byte of `text`, in a walk that begins at the first byte.
pub fn colours_of<G: Grammar>(heap: Global, grammar: &G, text: &[u8]) -> Result<Vec<u8>, AllocError>
    ensures { IfOk result (λ v. v.items ≡ colours (G.meaning grammar.now) text.now) }
{
    let mut cells = vec![in heap; 0; text.len()]?;
    colour(grammar, 0, text, &mut cells);
    Ok(cells)
}

// What the program writes for `text` under a grammar, in a view.
pub fn report_of<G: Grammar>(
    heap: Global,
    grammar: &G,
    view: View,
    text: &[u8],
) -> Result<Vec<u8>, AllocError>
    ensures { IfOk result (λ v. v.items ≡ rendered view text.now (colours (G.meaning grammar.now) text.now)) }
{
    let cells = colours_of(heap, grammar, text)?;
    render(heap, view, text, &cells)
}
