// A host: the heap that it writes its answers on, and the meter that it works by.
use meter::Blank;
use std::alloc::Global;
use walks::DocumentMeter;

// Document and desk stay beside it, two of them: each call changes both, and in one value each clause would say
// `self.new.document` for `document.new`.
#[derive(Drop)]
pub struct Host<'a, G> {
    pub heap: Global,
    pub meter: &'a DocumentMeter<G, Blank>,
}
