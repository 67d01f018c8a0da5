// What the units of a line come to behind a text, before the text's own.
ghost use Rattle.std.specs.Prelude.{◌≡◌};
ghost use Rattle.locate.specs.Carried.{carried};

use measure::place_reading::Extent;

// The units so far, unless a line ends in the text.
pub fn carried(units: u32, extent: &Extent) -> u32
    ensures { result ≡ carried units extent.now.lines }
{
    if extent.lines == 0 { units } else { 0 }
}
