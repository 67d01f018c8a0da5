// Hundreds of replacements, some of them refused, in a tree of few slots and in plain lists.
use crate::dice::Dice;
use crate::plain::Plain;
use grammar::Words;
use layers::{Comment, Quoted};
use load::Room;
use load::loading::Reading;
use meter::{Blank, Meter};
use std::alloc::{AllocError, Global};
use std::test::Fail;
use tree::{ChunkTree, ReplaceRefusal};
use walks::{DocumentMeter, document_meter};

const SLOTS: u16 = 32;

fn meter() -> DocumentMeter<Quoted<Comment<Words>>, Blank> {
    let grammar = Quoted {
        below: Comment { below: Words },
    };
    document_meter(grammar, Blank)
}

// Some bytes: a few, or up to four chunks of them.
fn some_bytes(heap: Global, dice: &mut Dice) -> Result<Vec<u8>, AllocError> {
    let most = if dice.roll(1) == 0 { 200 } else { 9 };
    let count = dice.roll(most);
    (0..count).map(|_| dice.letter()).collect(heap)
}

// On what the tree and the plain lists do not agree.
#[derive(Clone, Copy, Debug)]
enum On {
    Bytes,
    Chunks,
    Text,
    FirstPlace,
    LastPlace,
    WholeReading,
    PartReading,
    Outcome,
}

fn agreed(holds: bool, on: On) -> Result<(), On> {
    holds.then_some(()).ok_or(on)
}

// A tree and plain lists, to which the same is done.
#[derive(Drop)]
struct Both<'t> {
    dice: Dice,
    tree: ChunkTree<'t, Reading>,
    plain: Plain,
}

impl Both<'_> {
    // The tree has the bytes and the chunks of the plain lists, and the meter's readings of them.
    fn agree(&mut self) -> Result<(), Fail> {
        let Both { dice, tree, plain } = self;
        agreed(tree.bytes() as usize == plain.text.len(), On::Bytes)?;
        agreed(tree.chunks() as usize == plain.lengths.len(), On::Chunks)?;
        agreed(tree.same(0, &plain.text), On::Text)?;
        let mut place = 0u32;
        for (k, length) in plain.lengths.iter().enumerate() {
            let first = tree.spot(place);
            agreed(
                first.chunk as usize == k && first.inside == 0,
                On::FirstPlace,
            )?;
            place = place.saturating_add(u32::try_from(*length)?);
            let last = tree.spot(place.saturating_sub(1));
            agreed(
                last.chunk as usize == k && last.inside as usize == length.saturating_sub(1),
                On::LastPlace,
            )?;
        }
        agreed(
            tree.reading(&meter(), 0, tree.bytes()) == meter().measure(&plain.text),
            On::WholeReading,
        )?;
        let end = (dice.roll(2000) as usize).min(plain.text.len());
        let begin = (dice.roll(2000) as usize).min(end);
        let part = tree.reading(&meter(), u32::try_from(begin)?, u32::try_from(end)?);
        agreed(
            part == meter().measure(&plain.text[begin..end]),
            On::PartReading,
        )?;
        Ok(())
    }

    // One replacement: it is done, or refused with nothing changed, as the plain lists foresee.
    fn replace(&mut self, heap: Global) -> Result<Result<(), ReplaceRefusal>, Fail> {
        let Both { dice, tree, plain } = self;
        let bytes = some_bytes(heap, dice)?;
        let from = dice.roll(tree.chunks());
        let to = from
            .saturating_add(dice.roll(3))
            .saturating_sub(dice.roll(1));
        let outcome = plain.outcome(SLOTS as usize, from as usize, to as usize, bytes.len());
        agreed(
            tree.replace(&meter(), from, to, &bytes) == outcome,
            On::Outcome,
        )?;
        if outcome.is_ok() {
            *plain = plain.replaced(heap, from as usize, to as usize, &bytes)?;
        }
        self.agree()?;
        Ok(outcome)
    }
}

#[test]
fn tree_follows_plain_lists(rt: HostRuntime) -> Result<(), Fail> {
    let heap = rt.alloc();
    let mut room = Room::for_slots(heap, SLOTS)?;
    let mut tree = ChunkTree::new(&mut room.slots, &mut room.store, &mut room.readings);
    assert!(rt; tree.prepare(SLOTS).is_ok());
    let mut both = Both {
        dice: Dice { state: 1 },
        tree,
        plain: Plain::new(heap),
    };
    let mut outcomes = Vec::new(heap);
    for _ in 0..600 {
        outcomes.push(both.replace(heap)?)?;
    }
    let count = |wanted| outcomes
        .iter()
        .filter(|outcome| **outcome == wanted)
        .count();
    assert!(rt; count(Ok(())) > 400);
    assert!(rt; count(Err(ReplaceRefusal::NoRun)) > 40);
    assert!(rt; count(Err(ReplaceRefusal::NoRoom)) > 40);
    Ok(())
}
