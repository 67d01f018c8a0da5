// The search for a column of a line, by the readings of Place.
ghost use Rattle.std.specs.Prelude.{◌≡◌};
ghost use Rattle.measure.specs.Place.{place_measure};
ghost use Rattle.locate.specs.InLine.{column_on};

use crate::carried::carried;
use crate::lined::Lined;
use measure::place_reading::Extent;
use meter::{ends_line, width};
use seek::forward::Forward;

#[derive(Clone, Copy)]
pub struct InLine {
    pub column: u32,
}

impl Forward for InLine {
    type Reading = Option<Extent>;

    type At = Lined;

    ghost scale = { λ _. place_measure };

    ghost goes = { λ s. column_on s.column };

    fn next(&self, at: Lined, byte: u8) -> Option<Lined> {
        if at.lines > 0 {
            return Some(if ends_line(byte) {
                Lined {
                    lines: at.lines - 1,
                    units: 0,
                }
            } else {
                at
            });
        }
        let units = at.units as u64 + width(byte) as u64;
        if ends_line(byte) || units > self.column as u64 {
            return None;
        }
        Some(Lined {
            lines: 0,
            units: units as u32,
        })
    }

    // A text that ends before the column's place is passed over by one look at its extent.
    #[tactic(auto, using(crate::proofs::Columns::over_lines, crate::proofs::Columns::over_units))]
    fn pass(&self, at: Lined, reading: &Option<Extent>) -> Option<Lined> {
        let extent = reading.as_ref()?;
        let start = carried(at.units, extent);
        if extent.lines < at.lines {
            return Some(Lined {
                lines: at.lines - extent.lines,
                units: start,
            });
        }
        let units = start as u64 + extent.units as u64;
        if extent.lines > at.lines || units > self.column as u64 {
            return None;
        }
        Some(Lined {
            lines: 0,
            units: units as u32,
        })
    }
}
