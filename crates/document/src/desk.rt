// What a host lends to the calls of a document.

// A screen for PAINT and SCRIPT, a buffer for TEXT and COLOURS, and a reading for RANGE.
#[derive(Drop)]
pub struct Desk<'a, R> {
    pub screen: &'a mut [u8],
    pub buffer: &'a mut [u8],
    pub reading: &'a mut R,
}
