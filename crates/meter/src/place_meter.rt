// Place: a meter of bytes, line ends and UTF-16 units, by which places become lines and columns.
ghost use Rattle.std.specs.Prelude.{◌≡◌, ◌+◌};
ghost use Rattle.measure.specs.Place.{ends_line, width as width_of, place_measure, join_extents};
ghost use Rattle.measure.proofs.Place.{place_lawful};

use crate::interface::Meter;
use crate::limit::length_within;
use measure::place_reading::Extent;

#[derive(Clone, Copy)]
pub struct Place;

// Whether a line ends at this byte.
pub fn ends_line(byte: u8) -> bool
    ensures { result ≡ ends_line byte }
{
    byte == b'\n'
}

// The UTF-16 units that a byte stands for.
pub fn width(byte: u8) -> u32
    ensures { result ≡ width_of byte }
{
    match byte {
        0x80..=0xBF => 0,
        0xF0..=0xFF => 2,
        _ if ends_line(byte) => 0,
        _ => 1,
    }
}

impl Meter for Place {
    type Reading = Option<Extent>;

    ghost scale = { λ _. place_measure };

    ghost lawful = { λ _. place_lawful };

    fn empty(&self) -> Option<Extent> {
        Some(Extent {
            length: 0,
            lines: 0,
            units: 0,
        })
    }

    fn single(&self, byte: u8) -> Option<Extent> {
        Some(Extent {
            length: 1,
            lines: u32::from(ends_line(byte)),
            units: width(byte),
        })
    }

    fn join(&self, left: &Option<Extent>, right: &Option<Extent>) -> Option<Extent> {
        let (left, right) = (left.as_ref()?, right.as_ref()?);
        Some(Extent {
            length: length_within(left.length, right.length)?,
            lines: left.lines.saturating_add(right.lines),
            units: if right.lines == 0 {
                left.units.saturating_add(right.units)
            } else {
                right.units
            },
        })
    }
}
