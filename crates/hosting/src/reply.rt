// What a host does about a request, and what it writes as the answer.
ghost use Rattle.std.specs.Prelude.{◌≡◌, ◌-◌, min, take, length, unwrap_or, option_map, IfOk, MatchOption, IsTrue};
ghost use Rattle.document.specs.Content.{Keeps};
ghost use Rattle.document.specs.Snapshot.{seen, SameDesk};
ghost use Rattle.session.specs.Asked.{asked as asked_by};
ghost use Rattle.hosting.specs.Replies.{host_scale, IsCall, IsNoCall, digits, written_of, Replies};

use crate::host::Host;
use document::{Answer, Call, Desk, Document};
use editing::Readings;
use grammar::Grammar;
use model::Change;
use notation::{digits_text, quoted_text};
use report::{summarize, summary_text};
use session::{Request, answer_text};
use std::alloc::{AllocError, Global};

// What PAINT is given where no due stands and none is told: it takes four numbers, and any four are refused there. Without
// them that refusal would have to be written here, beside the one of the document.
const NO_CHANGE: Change = Change {
    place: 0,
    removed: 0,
    inserted: 0,
    end: 0,
};

// The front of some cells, as many as a range has or as there are.
fn front(cells: &[u8], from: u32, to: u32) -> &[u8]
    ensures { result.now ≡ take (to - from) cells.now }
{
    let count = (to.saturating_sub(from) as usize).min(cells.len());
    &cells[..count]
}

// The answer of a call, which may have written to the front of the buffer or to the reading.
fn answer_of(
    heap: Global,
    call: Call,
    answer: Answer,
    desk: &Desk<Readings<()>>,
) -> Result<Vec<u8>, AllocError>
    ensures { IfOk result (λ v. v.items ≡ written_of call.entry answer desk.now.buffer.now desk.now.reading.now) }
{
    match (call, answer) {
        (Call::Text { from, to, .. }, Answer::Written) => {
            quoted_text(heap, front(desk.buffer, from, to))
        }
        (Call::Colours { from, to, .. }, Answer::Written) => {
            digits_text(heap, front(desk.buffer, from, to))
        }
        (Call::Range { .. }, Answer::Written) => {
            let summary = summarize(&desk.reading.first, &desk.reading.second.first);
            Ok(summary_text(heap, summary)?.into_bytes())
        }
        _ => Ok(answer_text(heap, answer)?.into_bytes()),
    }
}

// How many cells a call may use.
fn room_of(asked: Option<u32>, cells: usize) -> usize
    ensures { result ≡ unwrap_or asked cells }
{
    asked.map_or(cells, |room| room as usize)
}

// The call that a request is, with a grammar of so many states; nothing where it is none.
fn call_of<'a>(
    states: u8,
    standing: Option<Change>,
    cells: usize,
    request: &'a Request,
) -> Option<Call<'a>>
    ensures { MatchOption result (IsNoCall (asked_by request.now)) (λ k. IsCall states standing cells (asked_by request.now) k) }
{
    match *request {
        Request::PassedOver | Request::Screen(_) => None,
        Request::Open => Some(Call::Open { states }),
        Request::Edit {
            from,
            to,
            ref bytes,
        } => Some(Call::Edit { from, to, bytes }),
        Request::Paint(change) => {
            let change = change.or(standing).unwrap_or(NO_CHANGE);
            Some(Call::Paint { change })
        }
        Request::Close => Some(Call::Close),
        Request::Text { from, to, room } => {
            let room = room_of(room, cells);
            Some(Call::Text { from, to, room })
        }
        Request::Colours { from, to, room } => {
            let room = room_of(room, cells);
            Some(Call::Colours { from, to, room })
        }
        Request::Size => Some(Call::Size),
        Request::Script {
            ref text,
            ref records,
        } => Some(Call::Script { records, text }),
        Request::Range { from, to } => Some(Call::Range { from, to }),
        Request::Same { place, ref bytes } => Some(Call::Same { place, bytes }),
        Request::Place(place) => Some(Call::Place { place }),
        Request::Spot { line, column } => Some(Call::Spot { line, column }),
        Request::Partner(place) => Some(Call::Partner { place }),
    }
}

// The first cells of the screen: as many as are asked for, or as the text has bytes; never more than there are.
fn shown(
    heap: Global,
    desk: &Desk<Readings<()>>,
    asked: Option<u32>,
    text: u32,
) -> Result<Vec<u8>, AllocError>
    ensures { let screen = desk.now.screen.now in IfOk result (λ v. v.items ≡ digits (take (min (unwrap_or asked text) (length screen)) screen)) }
{
    let count = (asked.unwrap_or(text) as usize).min(desk.screen.len());
    digits_text(heap, &desk.screen[..count])
}

impl<G: Grammar> Host<'_, G> {
    // Carries a request out on a document that is lent; gives what is to be written, nothing for a line that is passed over.
    pub fn reply(
        &self,
        document: &mut Document<Readings<()>>,
        desk: &mut Desk<Readings<()>>,
        request: &Request,
    ) -> Result<Option<Vec<u8>>, AllocError>
        ensures replies { let μ = host_scale G.meaning self.now.meter.now in Keeps document.old μ → IfOk result (λ out. Replies (G.meaning self.now.meter.now.first.grammar) μ (asked_by request.now) (seen document.old desk.old) (seen document.new desk.new) (option_map (λ v. v.items) out)) }
        ensures keeps { let μ = host_scale G.meaning self.now.meter.now in Keeps document.old μ → Keeps document.new μ }
        ensures lent { SameDesk desk.old desk.new }
    {
        let states = self.meter.first.grammar.count();
        let standing = document.standing();
        match call_of(states, standing, desk.buffer.len(), request) {
            Some(call) => {
                let answer = document.perform(self.meter, desk, call);
                Ok(Some(answer_of(self.heap, call, answer, desk)?))
            }
            None => match request {
                Request::Screen(asked) => {
                    let (bytes, _, _) = document.size();
                    Ok(Some(shown(self.heap, desk, *asked, bytes)?))
                }
                _ => Ok(None),
            },
        }
    }
}
