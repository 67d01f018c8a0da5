// What is promised of the readings of Walk, of all texts at once. Each function states one promise and does nothing.
ghost use Rattle.measure.specs.Unmatched.{CountedByDepth};
ghost use Rattle.measure.specs.Walk.{WalkReadsText, EntriesTell};

use grammar::Grammar;

// Walk reads where a walk ends from each state and which brackets it leaves unmatched.
pub fn walk_reads_text<G: Grammar>(grammar: &G)
    ensures { WalkReadsText (G.Grammar.meaning grammar.now) }
{}

// Each entry in a reading of Walk is true of the text, by depth, and keeps its bounds.
pub fn walk_entries_tell<G: Grammar>(grammar: &G)
    ensures { EntriesTell (G.Grammar.meaning grammar.now) }
{}

// The unmatched brackets are those that the depth of the brackets tells.
pub fn unmatched_counts_depth<G: Grammar>(grammar: &G)
    ensures { CountedByDepth (G.Grammar.meaning grammar.now) }
{}
