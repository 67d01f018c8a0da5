// The classes that scene words and the layers give; 8 to 15 are left to table grammars.
// A class is the colour of a byte, and what a screen shows: plain numbers, since screens are lent as bytes.

pub const BLANK: u8 = 0;

pub const WORD: u8 = 1;

pub const NUMBER: u8 = 2;

pub const MARK: u8 = 3;

pub const COMMENT: u8 = 4;

pub const STRING: u8 = 5;

pub const ESCAPE: u8 = 6;

pub const BORDER: u8 = 7;
