// Reads the records of a script, one a word: four numbers with commas between.
ghost use Rattle.std.specs.Prelude.{◌≡◌, IfOk, option_map};
ghost use Rattle.session.specs.Records.{number_then as number_then_of, record_of, records_of};

use model::Replacement;
use notation::number::number;
use notation::words::{behind, is_over, word};
use std::alloc::{AllocError, Global};

// A number up to a comma, and what is behind the comma.
fn number_then(word: &[u8]) -> Option<(u32, &[u8])>
    ensures { option_map (λ r. (r.0, r.1.now)) result ≡ number_then_of word.now }
{
    let comma = word.iter().position(|byte| *byte == b',')?;
    Some((number(&word[..comma])?, &word[comma + 1..]))
}

// The record that a word is, if it is one.
fn record(word: &[u8]) -> Option<Replacement>
    ensures { result ≡ record_of word.now }
{
    let (from, left) = number_then(word)?;
    let (to, left) = number_then(left)?;
    let (start, left) = number_then(left)?;
    let end = number(left)?;
    Some(Replacement {
        from,
        to,
        start,
        end,
    })
}

// The records that the words left are, if each is one.
#[tactic(auto, using(crate::proofs::Splitting::behind_shorter, crate::proofs::Splitting::records_more, crate::proofs::Splitting::records_none))]
pub(crate) fn records(heap: Global, left: &[u8]) -> Result<Option<Vec<Replacement>>, AllocError>
    ensures { IfOk result (λ read. option_map (λ v. v.items) read ≡ records_of left.now) }
{
    let mut out = Vec::new(heap);
    let mut left = left;
    // From word to word: an iterator of words would be a type whose contract says the same.
    while !is_over(left) {
        let Some(next) = record(word(left)) else {
            return Ok(None);
        };
        out.push(next)?;
        left = behind(left);
    }
    Ok(Some(out))
}
