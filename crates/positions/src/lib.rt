// The theory of positions: the line and the column of each place of a text.
// The definitions are in specs/, in the order of specs/Lib.antt; the laws are what the functions of `laws` ensure.

#![tactic(auto)]

pub mod laws;
