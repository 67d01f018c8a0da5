// The search for a place by its bytes, which counts lines and units up to it, by the readings of Place.
ghost use Rattle.std.specs.Prelude.{◌≡◌};
ghost use Rattle.measure.specs.Place.{place_measure};
ghost use Rattle.locate.specs.AtPlace.{place_on};

use crate::carried::carried;
use crate::placed::Placed;
use measure::place_reading::Extent;
use meter::{ends_line, width};
use seek::forward::Forward;

#[derive(Clone, Copy)]
pub struct AtPlace;

impl Forward for AtPlace {
    type Reading = Option<Extent>;

    type At = Placed;

    ghost scale = { λ _. place_measure };

    ghost goes = { λ _. place_on };

    fn next(&self, at: Placed, byte: u8) -> Option<Placed> {
        let left = at.left.checked_sub(1)?;
        Some(if ends_line(byte) {
            Placed {
                left,
                lines: at.lines.saturating_add(1),
                units: 0,
            }
        } else {
            Placed {
                left,
                units: at.units.saturating_add(width(byte)),
                ..at
            }
        })
    }

    // A text that ends before the place is counted by one look at its extent.
    #[tactic(auto, using(crate::proofs::Counting::over_counted))]
    fn pass(&self, at: Placed, reading: &Option<Extent>) -> Option<Placed> {
        let extent = reading.as_ref()?;
        Some(Placed {
            left: at.left.checked_sub(extent.length as usize)?,
            lines: at.lines.saturating_add(extent.lines),
            units: carried(at.units, extent).saturating_add(extent.units),
        })
    }
}
