// A record of a SCRIPT: the bytes from `from` up to `to` give way to a part of the text that is given with the script.

#[derive(Clone, Copy, PartialEq, Eq, Debug)]
pub struct Replacement {
    pub from: u32,
    pub to: u32,
    // The part of the given text, from its start up to its end.
    pub start: u32,
    pub end: u32,
}
