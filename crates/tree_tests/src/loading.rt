// A text of several pieces, loaded into as many slots as it needs, and into one slot fewer.
use crate::dice::Dice;
use grammar::Words;
use layers::{Comment, Quoted};
use load::{load_text, loaded_text};
use report::{summary_of, summary_text};
use std::test::Fail;

#[test]
fn several_pieces_are_loaded(rt: HostRuntime) -> Result<(), Fail> {
    let heap = rt.alloc();
    let grammar = Quoted {
        below: Comment { below: Words },
    };
    let mut dice = Dice { state: 2 };
    let text: Vec<u8> = (0..3000).map(|_| dice.letter()).collect(heap)?;
    assert!(rt; load_text(heap, &grammar, 46, &text)?.is_none());
    let loaded = load_text(heap, &grammar, 47, &text)?.ok_or("no room")?;
    let height = loaded.height;
    let line = summary_text(heap, summary_of(&grammar, &text))?;
    let expected = format!(in heap; "bytes 3000 chunks 47 height {height}\n{line}")?;
    assert!(rt; loaded_text(heap, loaded)?.as_str() == expected.as_str());
    Ok(())
}
