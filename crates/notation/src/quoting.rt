// Writes bytes as text in quotes.
ghost use Rattle.std.specs.Prelude.{◌≡◌, ◌++◌, IfOk, OnOk};
ghost use Rattle.notation.specs.Quoted.{written, quoted};

use crate::digits::upper_digit;
use std::alloc::{AllocError, Global};

fn put_byte(out: &mut Vec<u8>, byte: u8) -> Result<(), AllocError>
    ensures { OnOk result (out.new.items ≡ out.old.items ++ written byte) }
{
    match byte {
        b'"' | b'\\' => out.extend_from_slice(&[b'\\', byte]),
        b'\n' => out.extend_from_slice(b"\\n"),
        b'\r' => out.extend_from_slice(b"\\r"),
        b'\t' => out.extend_from_slice(b"\\t"),
        0x20..=0x7E => out.extend_from_slice(&[byte]),
        _ => {
            let digits = [upper_digit(byte / 16), upper_digit(byte % 16)];
            out.extend_from_slice(&[b'\\', b'x', digits[0], digits[1]])
        }
    }
}

pub fn quoted_text(heap: Global, bytes: &[u8]) -> Result<Vec<u8>, AllocError>
    ensures { IfOk result (λ v. v.items ≡ quoted bytes.now) }
{
    let mut out = Vec::from_slice(heap, b"\"")?;
    for byte in bytes {
        put_byte(&mut out, *byte)?;
    }
    out.extend_from_slice(b"\"")?;
    Ok(out)
}
