// Measures a text by the document's meter and says what it reads from state 0.
ghost use Rattle.std.specs.Prelude.{◌≡◌, IfOk, string_bytes};
ghost use Rattle.report.specs.Summary.{summary as text_summary, summarized, summary_line};

use crate::summary::{Summary, SummaryLine};
use grammar::Grammar;
use measure::place_reading::Extent;
use measure::walk_reading::Passage;
use meter::{Blank, Meter};
use std::alloc::{AllocError, Global};
use walks::document_meter;

// The readings of Walk and of Place as one summary, from state 0.
pub fn summarize(walk: &Option<Passage>, place: &Option<Extent>) -> Option<Summary>
    ensures { result ≡ summarized walk.now place.now }
{
    let (passage, extent) = (walk.as_ref()?, place.as_ref()?);
    let start = passage.entry(0);
    // No From: a summary is the two side by side, in the order in which its line has them, and is made here alone.
    Some(Summary {
        length: extent.length,
        lines: extent.lines,
        units: extent.units,
        state: start.end,
        closings: start.closings,
        openings: start.openings,
    })
}

// What is read of the whole text; nothing where it is overlong.
pub fn summary_of<G: Grammar + Copy>(grammar: &G, text: &[u8]) -> Option<Summary>
    ensures { result ≡ text_summary (G.Grammar.meaning grammar.now) text.now }
{
    let meter = document_meter(*grammar, Blank);
    let reading = meter.measure(text);
    summarize(&reading.first, &reading.second.first)
}

// The line that the program writes of it.
pub fn summary_text(heap: Global, summary: Option<Summary>) -> Result<String, AllocError>
    ensures { IfOk result (λ s. string_bytes s ≡ summary_line summary) }
{
    let line = SummaryLine(summary);
    format!(in heap; "{line}")
}
