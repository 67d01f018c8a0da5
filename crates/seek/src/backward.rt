// The interface of a search from right to left. Each byte is seen with a state that runs forwards before it,
// while a small value is taken over bytes, or over whole texts by their readings, from behind.
ghost use Rattle.std.specs.Prelude.{◌≡◌, ℕ, List, Option};
ghost use Rattle.measure.specs.Measure.{Measure, reading as reading_of};
ghost use Rattle.search.specs.Backwards.{forwards};
ghost use Rattle.seek.specs.Passes.{PassesBack};

pub trait Backward {
    // What the search looks into, the state that runs forwards, and what it keeps.
    type Reading: Copy;

    type Fore: Copy;

    type At: Copy;

    // The meter whose readings it looks into, and one byte's step in either direction as a value.
    ghost scale: { Self → Measure Self.Reading };

    ghost fore: { Self → Self.Fore → ℕ → Self.Fore };

    ghost back: { Self → Self.Fore → ℕ → Self.At → Option Self.At };

    // The forward state behind a byte, and behind a text by its reading.
    fn ahead(&self, state: Self::Fore, byte: u8) -> Self::Fore
        ensures { result ≡ fore self.now state byte };

    fn ahead_over(&self, state: Self::Fore, reading: &Self::Reading) -> Self::Fore
        ensures { (text : List ℕ) → reading.now ≡ reading_of (scale self.now) text → result ≡ forwards (fore self.now) state text };

    // The value before a byte, or nothing where the search stops behind it.
    fn prev(&self, state: Self::Fore, byte: u8, at: Self::At) -> Option<Self::At>
        ensures { result ≡ back self.now state byte at };

    // The value before a text, from its reading; nothing where one has to look inside.
    fn pass_back(
        &self,
        state: Self::Fore,
        reading: &Self::Reading,
        at: Self::At,
    ) -> Option<Self::At>
        ensures { (text : List ℕ) → reading.now ≡ reading_of (scale self.now) text → PassesBack (fore self.now) (back self.now) state text at result };
}
