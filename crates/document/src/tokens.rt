// What a host holds between its calls. Neither can be copied or let go: a pass is spent by an edit or a close, a due by a paint.
ghost use Rattle.std.specs.Prelude.{◌≡◌};

use crate::document::script::RecordRefusal;
use model::{Change, Refusal};

// Leave to edit.
pub struct Pass {
    pub(crate) granted: (),
}

// An edit that has still to be painted.
pub struct Due {
    pub(crate) change: Change,
}

impl Due {
    // The four numbers of the edit.
    pub fn change(&self) -> Change
        ensures { result ≡ self.now.change }
    {
        self.change
    }
}

// A refused call gives back what it was given.
pub struct Refused<T, E = Refusal> {
    pub back: T,
    pub refusal: E,
}

// A script that was refused at one of its records: the records before it are done, and the pass comes back.
pub type ScriptRefused = Refused<Pass, RecordRefusal>;
