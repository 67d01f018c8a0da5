// Reads what a line asks.
ghost use Rattle.std.specs.Prelude.{◌≡◌, IfOk};
ghost use Rattle.session.specs.Asked.{meaning};
ghost use Rattle.session.specs.Reads.{Reads};
ghost use Rattle.session.specs.Request.{if_over, number_in as number_of_next, range_in as range_of_next, last_number as last_number_of, due_in as due_of_next, only_number as only_number_of, only_range as only_range_of, range_and_room as range_and_room_of, call_in, request_of};

use crate::call_name::CallName;
use crate::problem::Problem;
use crate::records::records;
use crate::request::Request;
use crate::unread::Unread;
use model::Change;
use notation::bytes::{bytes, bytes_then};
use notation::number::number;
use notation::words::{behind, is_over, word};
use std::alloc::{AllocError, Global};

// What was read, if no word is left.
fn alone<T>(read: T, left: &[u8]) -> Result<T, Problem>
where
    T: Drop,
    ensures { result ≡ if_over left.now read }
{
    if is_over(left) {
        Ok(read)
    } else {
        Err(Problem::LeftOver)
    }
}

// A number as the next word.
fn number_in(left: &[u8]) -> Result<u32, Problem>
    ensures { result ≡ number_of_next left.now }
{
    number(word(left)).ok_or(Problem::Number)
}

fn range_in(left: &[u8]) -> Result<(u32, u32), Problem>
    ensures { result ≡ range_of_next left.now }
{
    let from = number_in(left)?;
    let to = number_in(behind(left))?;
    Ok((from, to))
}

// One number and no more, and two.
fn only_number(left: &[u8]) -> Result<u32, Problem>
    ensures { result ≡ only_number_of left.now }
{
    let number = number_in(left)?;
    alone(number, behind(left))
}

fn only_range(left: &[u8]) -> Result<(u32, u32), Problem>
    ensures { result ≡ only_range_of left.now }
{
    let range = range_in(left)?;
    alone(range, behind(behind(left)))
}

// A number as the last word, if there is a word.
fn last_number(left: &[u8]) -> Result<Option<u32>, Problem>
    ensures { result ≡ last_number_of left.now }
{
    if is_over(left) {
        return Ok(None);
    }
    Ok(Some(only_number(left)?))
}

// A range and the room for it, if it is told.
fn range_and_room(left: &[u8]) -> Result<(u32, u32, Option<u32>), Problem>
    ensures { result ≡ range_and_room_of left.now }
{
    let (from, to) = range_in(left)?;
    let room = last_number(behind(behind(left)))?;
    Ok((from, to, room))
}

// The four numbers of a due as the last words, if there is a word.
fn due_in(left: &[u8]) -> Result<Option<Change>, Problem>
    ensures { result ≡ due_of_next left.now }
{
    if is_over(left) {
        return Ok(None);
    }
    let (place, removed) = range_in(left)?;
    let (inserted, end) = only_range(behind(behind(left)))?;
    Ok(Some(Change {
        place,
        removed,
        inserted,
        end,
    }))
}

fn edit_in(heap: Global, left: &[u8]) -> Result<Request, Unread>
    ensures { Reads result (call_in CallName.Edit left.now) }
{
    let (from, to) = range_in(left)?;
    let bytes = bytes(heap, behind(behind(left)))?.ok_or(Problem::Bytes)?;
    Ok(Request::Edit { from, to, bytes })
}

fn script_in(heap: Global, left: &[u8]) -> Result<Request, Unread>
    ensures { Reads result (call_in CallName.Script left.now) }
{
    let (text, left) = bytes_then(heap, left)?.ok_or(Problem::Bytes)?;
    let records = records(heap, left)?.ok_or(Problem::Record)?;
    Ok(Request::Script { text, records })
}

fn same_in(heap: Global, left: &[u8]) -> Result<Request, Unread>
    ensures { Reads result (call_in CallName.Same left.now) }
{
    let place = number_in(left)?;
    let bytes = bytes(heap, behind(left))?.ok_or(Problem::Bytes)?;
    Ok(Request::Same { place, bytes })
}

// What belongs to a call.
fn read_call(heap: Global, call: CallName, left: &[u8]) -> Result<Request, Unread>
    ensures { Reads result (call_in call left.now) }
{
    match call {
        CallName::Open => Ok(alone(Request::Open, left)?),
        CallName::Edit => edit_in(heap, left),
        CallName::Paint => Ok(Request::Paint(due_in(left)?)),
        CallName::Close => Ok(alone(Request::Close, left)?),
        CallName::Text => {
            let (from, to, room) = range_and_room(left)?;
            Ok(Request::Text { from, to, room })
        }
        CallName::Colours => {
            let (from, to, room) = range_and_room(left)?;
            Ok(Request::Colours { from, to, room })
        }
        CallName::Size => Ok(alone(Request::Size, left)?),
        CallName::Screen => Ok(Request::Screen(last_number(left)?)),
        CallName::Script => script_in(heap, left),
        CallName::Range => {
            let (from, to) = only_range(left)?;
            Ok(Request::Range { from, to })
        }
        CallName::Same => same_in(heap, left),
        CallName::Place => Ok(Request::Place(only_number(left)?)),
        CallName::Spot => {
            let (line, column) = only_range(left)?;
            Ok(Request::Spot { line, column })
        }
        CallName::Partner => Ok(Request::Partner(only_number(left)?)),
    }
}

fn request_in(heap: Global, line: &[u8]) -> Result<Request, Unread>
    ensures { Reads result (request_of line.now) }
{
    let first = word(line);
    if let [] | [b'#', ..] = first {
        return Ok(Request::PassedOver);
    }
    let call = CallName::try_from(first)?;
    read_call(heap, call, behind(line))
}

// A line is given without its line feed.
pub fn read_request(heap: Global, line: &[u8]) -> Result<Result<Request, Problem>, AllocError>
    ensures { IfOk result (λ r. meaning r ≡ request_of line.now) }
{
    match request_in(heap, line) {
        Ok(request) => Ok(Ok(request)),
        Err(Unread::Problem(problem)) => Ok(Err(problem)),
        Err(Unread::Memory(error)) => Err(error),
    }
}
