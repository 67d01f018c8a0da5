// A range of places in a text.
ghost use Rattle.std.specs.Prelude.{◌≡◌, ℕ};
ghost use Rattle.questions.specs.Spans.{behind, within};

#[derive(Clone, Copy)]
pub struct Span {
    pub from: usize,
    pub to: usize,
}

impl Span {
    // The same places, counted from behind `bytes` bytes.
    pub fn behind(self, bytes: usize) -> Span
        ensures { result ≡ behind bytes self }
    {
        Span {
            from: self.from.saturating_sub(bytes),
            to: self.to.saturating_sub(bytes),
        }
    }

    // What it takes of some bytes, as far as they have it.
    pub fn within(self, bytes: &[u8]) -> &[u8]
        ensures { result.now ≡ within self bytes.now }
    {
        let to = self.to.min(bytes.len());
        let from = self.from.min(to);
        &bytes[from..to]
    }
}
