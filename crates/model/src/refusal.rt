// Why a call is refused, and the number, the layer and the place that the refusal carries.
ghost use Rattle.std.specs.Prelude.{◌≡◌};
ghost use Rattle.model.specs.Refusal.{number as number_of, layer as layer_of, place as place_of};

#[derive(Clone, Copy, PartialEq, Eq, Debug)]
pub enum Refusal {
    // OPEN: the document was opened before.
    OpenedBefore,
    // OPEN: the lent slots are not 1 to 4,096; how many they are.
    SlotCount(u64),
    // OPEN: the store is not 64 bytes a slot, or the readings are not one a slot; the length that is wrong.
    LentLength(u64),
    // OPEN: the grammar has no state.
    UnusableGrammar,
    // A due stands; where its edit began.
    DueStands(u64),
    // A range that is none of the text; its upper end.
    OutsideText(u64),
    // EDIT: more new bytes than one edit takes; how many they are.
    TooManyBytes(u64),
    // EDIT: more chunks than slots; how many chunks there would be.
    TooManyChunks(u64),
    // PAINT: no such due stands; the place of the one that was given.
    UnknownDue(u64),
    // PAINT: the screen is too short for the text; its length.
    ShortScreen(u64),
    // TEXT, COLOURS: the buffer is too short for the range; its length.
    ShortBuffer(u64),
    // PLACE, SAME: a place above the text's length; PARTNER: one that is not below it.
    OutsidePlace(u64),
    // SPOT: a line above the number of line ends.
    NoLine(u64),
    // PARTNER: no live bracket stands at the place.
    NoBracket(u64),
    // SCRIPT: a part that is none of the text given; its upper end.
    OutsidePart(u64),
}

// The layer of the server that refuses.
#[derive(Clone, Copy, PartialEq, Eq, Debug)]
pub enum Layer {
    Tree,
    Document,
    Script,
}

impl Refusal {
    // The number under which the rules list the reason. It is told to hosts; here nothing goes by it.
    pub fn number(self) -> u8
        ensures { result ≡ number_of self }
    {
        match self {
            Refusal::OpenedBefore => 1,
            Refusal::SlotCount(_) => 2,
            Refusal::LentLength(_) => 3,
            Refusal::UnusableGrammar => 4,
            Refusal::DueStands(_) => 5,
            Refusal::OutsideText(_) => 6,
            Refusal::TooManyBytes(_) => 7,
            Refusal::TooManyChunks(_) => 8,
            Refusal::UnknownDue(_) => 9,
            Refusal::ShortScreen(_) => 10,
            Refusal::ShortBuffer(_) => 11,
            Refusal::OutsidePlace(_) => 12,
            Refusal::NoLine(_) => 13,
            Refusal::NoBracket(_) => 14,
            Refusal::OutsidePart(_) => 15,
        }
    }

    // The layer that refuses.
    pub fn layer(self) -> Layer
        ensures { result ≡ layer_of self }
    {
        match self {
            Refusal::SlotCount(_)
            | Refusal::LentLength(_)
            | Refusal::OutsideText(_)
            | Refusal::TooManyBytes(_)
            | Refusal::TooManyChunks(_) => Layer::Tree,
            Refusal::OpenedBefore
            | Refusal::UnusableGrammar
            | Refusal::DueStands(_)
            | Refusal::UnknownDue(_)
            | Refusal::ShortScreen(_)
            | Refusal::ShortBuffer(_)
            | Refusal::OutsidePlace(_)
            | Refusal::NoLine(_)
            | Refusal::NoBracket(_) => Layer::Document,
            Refusal::OutsidePart(_) => Layer::Script,
        }
    }

    // The place that the refusal carries. No Option: the rules write 0 where there is none to tell.
    pub fn place(self) -> u64
        ensures { result ≡ place_of self }
    {
        match self {
            Refusal::OpenedBefore | Refusal::UnusableGrammar => 0,
            Refusal::SlotCount(count)
            | Refusal::LentLength(count)
            | Refusal::DueStands(count)
            | Refusal::OutsideText(count)
            | Refusal::TooManyBytes(count)
            | Refusal::TooManyChunks(count)
            | Refusal::UnknownDue(count)
            | Refusal::ShortScreen(count)
            | Refusal::ShortBuffer(count)
            | Refusal::OutsidePlace(count)
            | Refusal::NoLine(count)
            | Refusal::NoBracket(count)
            | Refusal::OutsidePart(count) => count,
        }
    }
}
