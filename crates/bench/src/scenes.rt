// The texts that are measured: lines of scenes that look random and are the same in every run.
// bench/scenes.rs makes the same texts; both programs print each one's checksum.
ghost use Rattle.std.specs.Prelude.{◌<◌};

use std::alloc::{AllocError, Global};

const LINES: u64 = 12;

#[derive(Drop)]
struct Dice {
    state: u64,
}

impl Dice {
    // A number below `count`.
    fn roll(&mut self, count: u64) -> u64
        requires { 0 < count }
        ensures { result < count }
    {
        self.state = self
            .state
            .wrapping_mul(6_364_136_223_846_793_005)
            .wrapping_add(1_442_695_040_888_963_407);
        (self.state >> 33) % count
    }

    // Each 0 gives way to a digit.
    fn digit_for(&mut self, byte: u8) -> u8 {
        match byte {
            b'0' => b'0' + self.roll(10) as u8,
            _ => byte,
        }
    }
}

// One of the lines. In each the brackets outside comments and strings are balanced.
fn line(number: u64) -> &'static [u8] {
    match number {
        0 => b"wall 0.0 \"oak [0]\" # note\n",
        1 => b"move a0 to (b0, [c0])\n",
        2 => b"light (\"key [0]\", 0.0m, {fill}) # ) warm\n",
        3 => b"# the room behind (wall 00\n",
        4 => b"floor {tile: [00, 00], gap: 0.00}\n",
        5 => b"\n",
        6 => b"door d0 at (0.0, 0.00)\n",
        7 => b"say \"a \\\"loud\\\" clap (00\" to [w0, w0]\n",
        8 => b"absorb wall0 0.00 0.00 0.00\n",
        9 => b"source s0 (0.0, 0.0, 0.0) # [left\n",
        10 => b"paint \xC3\xA9tage00 \"gr\xC3\xBCn\"\n",
        _ => b"group {a0, b0, (c0)} 0000\n",
    }
}

// A text of so many bytes: as many lines as there is room for between two brackets, the first and the last byte.
pub fn scene(heap: Global, size: usize) -> Result<Vec<u8>, AllocError> {
    let mut dice = Dice { state: 20 };
    let mut text = Vec::with_capacity(heap, size)?;
    text.push(b'(')?;
    // More rolls than there are lines.
    for _ in 0..size {
        let line = line(dice.roll(LINES));
        if text.len().saturating_add(line.len()).saturating_add(2) > size {
            break;
        }
        for byte in line {
            text.push(dice.digit_for(*byte))?;
        }
    }
    for _ in text.len()..size.saturating_sub(2) {
        text.push(b' ')?;
    }
    text.extend_from_slice(b"\n)")?;
    Ok(text)
}

pub fn checksum(text: &[u8]) -> u32 {
    text.iter().fold(2_166_136_261u32, |sum, byte| {
        (sum ^ *byte as u32).wrapping_mul(16_777_619)
    })
}
