// Writes an answer as a line.
ghost use Rattle.std.specs.Prelude.{◌≡◌, IfOk, Some, string_bytes};
ghost use Rattle.session.specs.Answered.{answer_line, refusal_words, layer_name as name_of_layer, yes_or_no};

use brackets::Partner;
use document::{Answer, RecordRefusal};
use model::{Change, Layer, Refusal};
use std::alloc::{AllocError, Global};
use std::fmt;

// One word in one format string, where a `&'static str` is displayed as it is: a wrapper with a Display would be this match and more.
fn layer_name(layer: Layer) -> &'static str
    ensures { result.now ≡ name_of_layer layer }
{
    match layer {
        Layer::Tree => "tree",
        Layer::Document => "document",
        Layer::Script => "script",
    }
}

// The number of a refusal, its layer and its place.
#[derive(Clone, Copy)]
struct RefusalWords(Refusal);

impl fmt::Display for RefusalWords {
    ghost output = { λ words. Some (refusal_words words.0) };

    fn fmt<W: fmt::Write>(&self, f: &mut fmt::Formatter<W>) -> fmt::Result {
        let number = self.0.number();
        let layer = layer_name(self.0.layer());
        let place = self.0.place();
        write!(f, "{number} {layer} {place}")
    }
}

// A bool has a Display of its own, which says other words.
fn yes_no(is: bool) -> &'static str
    ensures { result.now ≡ yes_or_no is }
{
    if is { "yes" } else { "no" }
}

// An answer as a line without its line feed; empty where it was written to the buffer or to the lent reading.
#[derive(Clone, Copy)]
struct AnswerLine(Answer);

impl fmt::Display for AnswerLine {
    ghost output = { λ line. Some (answer_line line.0) };

    fn fmt<W: fmt::Write>(&self, f: &mut fmt::Formatter<W>) -> fmt::Result {
        match self.0 {
            Answer::Closed => f.write_str("closed"),
            Answer::Pass => f.write_str("pass"),
            Answer::Due(
                Change {
                    place,
                    removed,
                    inserted,
                    end,
                },
            ) => write!(f, "due {place} {removed} {inserted} {end}"),
            Answer::Done(records) => write!(f, "done {records}"),
            Answer::RecordRefused(RecordRefusal { index, refusal }) => {
                let words = RefusalWords(refusal);
                write!(f, "refused {index} {words}")
            }
            Answer::Written => Ok(()),
            Answer::Size {
                bytes,
                chunks,
                height,
            } => write!(f, "{bytes} {chunks} {height}"),
            Answer::Begins(begins) => f.write_str(yes_no(begins)),
            Answer::Position { line, column } => write!(f, "{line} {column}"),
            Answer::Spot(place) => write!(f, "{place}"),
            Answer::Partner(None) => f.write_str("none"),
            Answer::Partner(Some(Partner { place, agree })) => {
                let kinds = if agree { "agree" } else { "differ" };
                write!(f, "{place} {kinds}")
            }
            Answer::Refused(refusal) => {
                let words = RefusalWords(refusal);
                write!(f, "refused {words}")
            }
        }
    }
}

// That line.
pub fn answer_text(heap: Global, answer: Answer) -> Result<String, AllocError>
    ensures { IfOk result (λ s. string_bytes s ≡ answer_line answer) }
{
    let line = AnswerLine(answer);
    format!(in heap; "{line}")
}
