// Hexadecimal digits: their values, and the digits of a value.
ghost use Rattle.std.specs.Prelude.{◌≡◌, ◌<◌, ◌%◌, IfOk, IfSome, map};
ghost use Rattle.notation.specs.Digits.{digit_value, lower_digit as lower_digit_of, upper_digit as upper_digit_of};

use std::alloc::{AllocError, Global};

// The value of a digit of either case.
pub(crate) fn value_of(digit: u8) -> Option<u8>
    ensures value { result ≡ digit_value digit }
    ensures small { IfSome result (λ n. n < 16) }
{
    let value = char::from(digit).to_digit(16)?;
    u8::try_from(value).ok()
}

// The digit of a cell, for its value mod 16, with a small letter from ten on.
pub fn cell_digit(cell: u8) -> u8
    ensures { result ≡ lower_digit_of (cell % 16) }
{
    char::from_digit(u32::from(cell % 16), 16).unwrap() as u8
}

// The digit of a value with a capital letter from ten on.
pub(crate) fn upper_digit(value: u8) -> u8
    requires { value < 16 }
    ensures { result ≡ upper_digit_of value }
{
    cell_digit(value).to_ascii_uppercase()
}

// One digit a cell, for its value mod 16.
pub fn digits_text(heap: Global, cells: &[u8]) -> Result<Vec<u8>, AllocError>
    ensures { IfOk result (λ v. v.items ≡ map (λ cell. lower_digit_of (cell % 16)) cells.now) }
{
    cells.iter().map(|cell| cell_digit(*cell)).collect(heap)
}
