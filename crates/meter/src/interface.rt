// The interface of a meter: readings of nothing, of one byte and of a run of bytes, and how two of them join.
ghost use Rattle.std.specs.Prelude.{◌≡◌};
ghost use Rattle.measure.specs.Measure.{Measure, Lawful, reading};

pub trait Meter {
    type Reading: Copy;

    // The three functions as values, and the proof of their laws.
    ghost scale: { Self → Measure Self.Reading };

    ghost lawful: { (m : Self) → Lawful (scale m) };

    // The reading of an empty text.
    fn empty(&self) -> Self::Reading
        ensures { result ≡ (scale self.now).empty };

    // The reading of one byte.
    fn single(&self, byte: u8) -> Self::Reading
        ensures { result ≡ (scale self.now).single byte };

    // The reading of two texts, one behind the other, from theirs; any two values are taken.
    fn join(&self, left: &Self::Reading, right: &Self::Reading) -> Self::Reading
        ensures { result ≡ (scale self.now).join left.now right.now };

    // The reading of a run of bytes.
    fn measure(&self, bytes: &[u8]) -> Self::Reading
        ensures { result ≡ reading (scale self.now) bytes.now }
    {
        bytes.iter().fold(
            self.empty(),
            |sum, byte| self.join(&sum, &self.single(*byte)),
        )
    }
}
