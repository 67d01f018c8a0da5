// Numbers that look random and are the same in every run: a linear congruential generator.
ghost use Rattle.std.specs.Prelude.{◌≤◌};

// Bytes that mean something to a grammar, and parts of characters.
const LETTERS: &[u8] = b"ab1. \n()[]{}\"\\#\xC3\xA9\xF0\x9F\x98\x80";

#[derive(Drop)]
pub struct Dice {
    pub state: u64,
}

impl Dice {
    // A number from 0 to `most`.
    pub fn roll(&mut self, most: u16) -> u16
        ensures { result ≤ most }
    {
        self.state = self
            .state
            .wrapping_mul(6_364_136_223_846_793_005)
            .wrapping_add(1_442_695_040_888_963_407);
        ((self.state >> 33) % (most as u64 + 1)) as u16
    }

    // One of the letters.
    pub fn letter(&mut self) -> u8 {
        LETTERS.get(self.roll(20) as usize).copied().unwrap_or(b'x')
    }
}
