// What is promised of readings, of all texts at once. Each function states one promise and does nothing.
ghost use Rattle.measure.specs.Measure.{JoinsTexts};
ghost use Rattle.measure.specs.Place.{PlaceReadsPosition};

use crate::interface::Meter;

// Every meter reads two texts, one behind the other, as the join of what it reads of each.
pub fn meter_joins_texts<M: Meter>(meter: &M)
    ensures { JoinsTexts (M.Meter.scale meter.now) }
{}

// Place reads the length, the line ends and the units of the last line.
pub fn place_reads_position()
    ensures { PlaceReadsPosition }
{}
