// The line ends of a part of the text, counted in its bytes: right whatever the readings are.
ghost use Rattle.std.specs.Prelude.{◌≡◌};
ghost use Rattle.std.specs.List.{between};
ghost use Rattle.measure.specs.Place.{line_ends};
ghost use Rattle.editing.specs.Content.{text_in};

use meter::ends_line;
use tree::ChunkTree;

// How many of the bytes end a line.
pub fn line_ends_of(bytes: &[u8]) -> usize
    ensures { result ≡ line_ends bytes.now }
{
    // A loop: a filter that is counted takes more than one and a half times as long.
    let mut count = 0;
    for byte in bytes {
        if ends_line(*byte) {
            count += 1;
        }
    }
    count
}

// How many of the bytes from `from` up to `to`, or to the end of the text, end a line. They are copied in blocks of 64.
pub fn line_ends_between<R: Copy>(tree: &ChunkTree<R>, from: u32, to: u32) -> u32
    ensures { result ≡ line_ends (between from to (text_in tree.now)) }
{
    let end = to.min(tree.bytes());
    // Memory is lent and fixed: below the host there is no heap.
    let mut block = [0u8; 64];
    let mut count = 0;
    for at in (from..end).step_by(64) {
        let next = (at + 64).min(end);
        let _ = tree.copy(at, next, &mut block);
        count += line_ends_of(&block[..(next - at) as usize]) as u32;
    }
    count
}
