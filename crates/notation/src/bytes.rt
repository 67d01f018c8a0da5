// Reads the bytes of an edit or a script: in pairs of hexadecimal digits behind an x, or as text in quotes.
ghost use Rattle.std.specs.Prelude.{◌≡◌, ◌<◌, IfOk, option_map};
ghost use Rattle.notation.specs.Bytes.{unescaped as unescaped_step, next as next_step, can_end as can_end_at, digit_next, bytes_then as bytes_then_of, bytes_of, digit_kept, digit_kept_after};

use crate::digits::value_of;
use crate::spot::{Spot, Step};
use crate::words::{is_blank, is_over};
use std::alloc::{AllocError, Global};

// What a byte does behind a backslash.
fn unescaped(byte: u8) -> Step
    ensures { result ≡ unescaped_step byte }
{
    match byte {
        b'n' => Step::Gives(b'\n', Spot::Text),
        b'r' => Step::Gives(b'\r', Spot::Text),
        b't' => Step::Gives(b'\t', Spot::Text),
        b'"' | b'\\' => Step::Gives(byte, Spot::Text),
        b'x' => Step::To(Spot::Code),
        _ => Step::Wrong,
    }
}

// What a byte does that should be a digit.
fn digit_step(spot: Spot, byte: u8) -> Step
    requires { digit_kept spot < 16 }
    ensures is { result ≡ digit_next spot byte }
    ensures small { digit_kept_after result < 16 }
{
    let Some(digit) = value_of(byte) else {
        return Step::Wrong;
    };
    match spot {
        Spot::Pairs => Step::To(Spot::Pair(digit)),
        Spot::Pair(high) => Step::Gives(16 * high + digit, Spot::Pairs),
        Spot::Code => Step::To(Spot::CodeDigit(digit)),
        Spot::CodeDigit(high) => Step::Gives(16 * high + digit, Spot::Text),
        _ => Step::Wrong,
    }
}

fn start_step(byte: u8) -> Step
    ensures { result ≡ next_step Spot.Start byte }
{
    match byte {
        b' ' | b'\t' | b'\r' => Step::To(Spot::Start),
        b'x' => Step::To(Spot::Pairs),
        b'"' => Step::To(Spot::Text),
        _ => Step::Wrong,
    }
}

fn text_step(byte: u8) -> Step
    ensures { result ≡ next_step Spot.Text byte }
{
    match byte {
        b'"' => Step::To(Spot::Behind),
        b'\\' => Step::To(Spot::Backslash),
        _ => Step::Gives(byte, Spot::Text),
    }
}

// What a byte of the line does at a spot.
fn step(spot: Spot, byte: u8) -> Step
    requires { digit_kept spot < 16 }
    ensures is { result ≡ next_step spot byte }
    ensures small { digit_kept_after result < 16 }
{
    match spot {
        Spot::Start => start_step(byte),
        Spot::Text => text_step(byte),
        Spot::Backslash => unescaped(byte),
        Spot::Behind => Step::Wrong,
        Spot::Pairs | Spot::Pair(_) | Spot::Code | Spot::CodeDigit(_) => digit_step(spot, byte),
    }
}

// The bytes may end at the spot.
fn can_end(spot: Spot) -> bool
    ensures { result ≡ can_end_at spot }
{
    matches!(spot, Spot::Pairs | Spot::Behind)
}

// The bytes at the front of a line, if it writes them rightly, and what is left behind them.
pub fn bytes_then(heap: Global, line: &[u8]) -> Result<Option<(Vec<u8>, &[u8])>, AllocError>
    ensures { IfOk result (λ read. option_map (λ r. (r.0.items, r.1.now)) read ≡ bytes_then_of line.now) }
{
    let mut out = Vec::new(heap);
    let mut spot = Spot::Start;
    for (i, byte) in line.iter().enumerate() {
        if can_end(spot) && is_blank(*byte) {
            return Ok(Some((out, &line[i..])));
        }
        match step(spot, *byte) {
            Step::Wrong => return Ok(None),
            Step::To(next) => spot = next,
            Step::Gives(value, next) => {
                out.push(value)?;
                spot = next;
            }
        }
    }
    if can_end(spot) {
        Ok(Some((out, &[])))
    } else {
        Ok(None)
    }
}

// The bytes that all of a line writes, if it does so rightly.
pub fn bytes(heap: Global, line: &[u8]) -> Result<Option<Vec<u8>>, AllocError>
    ensures { IfOk result (λ read. option_map (λ v. v.items) read ≡ bytes_of line.now) }
{
    match bytes_then(heap, line)? {
        Some((bytes, left)) if is_over(left) => Ok(Some(bytes)),
        _ => Ok(None),
    }
}
