// The ways in which the program writes a coloured text.

#[derive(Clone, Copy)]
pub enum View {
    // The class of each byte as a hexadecimal digit.
    Digits,
    // The text itself in the terminal's colours.
    Terminal,
}
