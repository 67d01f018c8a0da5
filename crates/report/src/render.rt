// Writes a text and its colours in a view: digits, or the text in a terminal's colours.
// Output, view and the class shown stay parameters: in a struct each clause would say `self.new.out.items` for `out.new.items`.
ghost use Rattle.std.specs.Prelude.{◌≡◌, ◌%◌, ◌<◌, ◌++◌, IfOk, OnOk};
ghost use Rattle.report.specs.Rendered.{hex_digit, digit_of, switch_to, switch, visible as visible_of, escape_sequence, opening as opening_of, piece, next_shown, closing as closing_of, rendered};

use crate::view::View;
use notation::cell_digit;
use std::alloc::{AllocError, Global};

// The foreground colour of each class, as terminals number it.
const PALETTE: [u8; 16] = [
    90, 37, 36, 33, 32, 31, 35, 34, 91, 92, 93, 94, 95, 96, 97, 39,
];

fn put_digit(out: &mut Vec<u8>, byte: u8, class: u8) -> Result<(), AllocError>
    ensures { OnOk result (out.new.items ≡ out.old.items ++ digit_of byte class) }
{
    let digit = cell_digit(class);
    match byte {
        b'\n' => out.extend_from_slice(&[digit, b'\n']),
        _ => out.extend_from_slice(&[digit]),
    }
}

// ESC [ and a number of two digits and m. Written as bytes: `write!` would fail with an io::Error, and this fails by memory alone.
fn put_escape(out: &mut Vec<u8>, number: u8) -> Result<(), AllocError>
    requires { number < 100 }
    ensures { OnOk result (out.new.items ≡ out.old.items ++ escape_sequence number) }
{
    let sequence = [0x1B, b'[', b'0' + number / 10, b'0' + number % 10, b'm'];
    out.extend_from_slice(&sequence)
}

fn put_switch(out: &mut Vec<u8>, class: u8) -> Result<(), AllocError>
    ensures { OnOk result (out.new.items ≡ out.old.items ++ switch_to class) }
{
    put_escape(out, PALETTE[class as usize % 16])
}

fn put_visible(out: &mut Vec<u8>, byte: u8) -> Result<(), AllocError>
    ensures { OnOk result (out.new.items ≡ out.old.items ++ visible_of byte) }
{
    match byte {
        0x7F => out.extend_from_slice(b"^?"),
        b'\n' => out.extend_from_slice(b"\n"),
        0..=0x1F => out.extend_from_slice(&[b'^', b'@' + byte]),
        _ => out.extend_from_slice(&[byte]),
    }
}

// The switch from one class to another, nothing where they are the same.
fn put_change(out: &mut Vec<u8>, last: u8, class: u8) -> Result<(), AllocError>
    ensures { OnOk result (out.new.items ≡ out.old.items ++ switch last class) }
{
    if last != class {
        put_switch(out, class)?;
    }
    Ok(())
}

// A byte in the class `shown`, where `last` was shown before it.
fn put_coloured(out: &mut Vec<u8>, last: u8, shown: u8, byte: u8) -> Result<(), AllocError>
    ensures { OnOk result (out.new.items ≡ out.old.items ++ (switch last shown ++ visible_of byte)) }
{
    put_change(out, last, shown)?;
    put_visible(out, byte)
}

// One byte in its class; gives the class that is shown behind it.
fn put_piece(out: &mut Vec<u8>, view: View, last: u8, byte: u8, class: u8) -> Result<u8, AllocError>
    ensures { IfOk result (λ n. (n ≡ next_shown view last byte class) × (out.new.items ≡ out.old.items ++ piece view last byte class)) }
{
    match view {
        View::Digits => {
            put_digit(out, byte, class)?;
            Ok(last)
        }
        View::Terminal => {
            let shown = match byte {
                0x80..=0xBF => last,
                _ => class,
            };
            put_coloured(out, last, shown, byte)?;
            Ok(shown)
        }
    }
}

fn put_opening(out: &mut Vec<u8>, view: View) -> Result<(), AllocError>
    ensures { OnOk result (out.new.items ≡ out.old.items ++ opening_of view) }
{
    match view {
        View::Digits => Ok(()),
        View::Terminal => put_switch(out, 0),
    }
}

fn put_closing(out: &mut Vec<u8>, view: View) -> Result<(), AllocError>
    ensures { OnOk result (out.new.items ≡ out.old.items ++ closing_of view) }
{
    match view {
        View::Digits => out.extend_from_slice(b"\n"),
        View::Terminal => put_escape(out, 0),
    }
}

// All that is written for `text` in the colours `cells`, as far as both go.
pub fn render(heap: Global, view: View, text: &[u8], cells: &[u8]) -> Result<Vec<u8>, AllocError>
    ensures { IfOk result (λ v. v.items ≡ rendered view text.now cells.now) }
{
    let mut out = Vec::new(heap);
    put_opening(&mut out, view)?;
    let mut last = 0;
    for (byte, class) in text.iter().zip(cells) {
        last = put_piece(&mut out, view, last, *byte, *class)?;
    }
    put_closing(&mut out, view)?;
    Ok(out)
}
