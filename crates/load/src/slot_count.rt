// How many slots a tree is given: what a word says, and the most.
ghost use Rattle.load.specs.Loading.{SlotsNamed};

pub const MOST: u16 = 4096;

// The number that a word says, if a tree can have as many slots.
pub fn slots_named(word: &str) -> Option<u16>
    ensures { SlotsNamed word.now result }
{
    let count = word.parse::<u16>().ok()?;
    (1..=MOST).contains(&count).then_some(count)
}
