// The interface of a search from left to right: a small value, taken over a byte, or over a whole text by its reading.
ghost use Rattle.std.specs.Prelude.{◌≡◌, ℕ, List, Option};
ghost use Rattle.measure.specs.Measure.{Measure, reading as reading_of};
ghost use Rattle.seek.specs.Passes.{Passes};

pub trait Forward {
    // What the search looks into, and what it keeps.
    type Reading: Copy;

    type At: Copy;

    // The meter whose readings it looks into, and one byte's step as a value.
    ghost scale: { Self → Measure Self.Reading };

    ghost goes: { Self → Self.At → ℕ → Option Self.At };

    // The value behind a byte, or nothing where the search stops before it.
    fn next(&self, at: Self::At, byte: u8) -> Option<Self::At>
        ensures { result ≡ goes self.now at byte };

    // The value behind a text, from its reading; nothing where one has to look inside.
    fn pass(&self, at: Self::At, reading: &Self::Reading) -> Option<Self::At>
        ensures { (text : List ℕ) → reading.now ≡ reading_of (scale self.now) text → Passes (goes self.now) at text result };
}
