// Reads a number that is written in decimal digits.
ghost use Rattle.std.specs.Prelude.{◌≡◌};
ghost use Rattle.notation.specs.Number.{longer_within, number_of};

// The value with one more digit, if it is one and the value stays below 2^32.
fn longer(value: u32, byte: u8) -> Option<u32>
    ensures { result ≡ longer_within value byte }
{
    let digit = char::from(byte).to_digit(10)?;
    value.checked_mul(10)?.checked_add(digit)
}

// The number that a word is, if it is one.
pub fn number(word: &[u8]) -> Option<u32>
    ensures { result ≡ number_of word.now }
{
    if word.is_empty() {
        return None;
    }
    word.iter().try_fold(0, |value, byte| longer(value, *byte))
}
