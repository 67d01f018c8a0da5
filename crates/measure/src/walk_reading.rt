// What the meter of walks says of a text: where a walk through it ends and which brackets it leaves unmatched.
ghost use Rattle.std.specs.Prelude.{◌≡◌};

#[derive(Clone, Copy, PartialEq, Eq)]
pub struct Entry {
    // The state behind the text.
    pub end: u8,
    // The live closing brackets that no opening in the text matches.
    pub closings: u32,
    // The live opening brackets that no closing in the text matches.
    pub openings: u32,
}

impl Entry {
    ghost use Rattle.measure.specs.Walk.{still};

    // A walk through nothing.
    pub fn still(state: u8) -> Entry
        ensures { result ≡ still state }
    {
        Entry {
            end: state,
            closings: 0,
            openings: 0,
        }
    }
}

#[derive(Clone, Copy, PartialEq, Eq)]
pub struct Passage {
    // The bytes.
    pub length: u32,
    // One entry for each state in which a walk may begin.
    pub entries: [Entry; 64],
}

impl Passage {
    ghost use Rattle.measure.specs.Walk.{entry_at};

    // The entry of a state; a state without an entry stays.
    pub fn entry(&self, state: u8) -> Entry
        ensures { result ≡ entry_at self.now.entries state }
    {
        self.entries
            .get(state as usize)
            .copied()
            .unwrap_or(Entry::still(state))
    }
}
