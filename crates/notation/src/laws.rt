// The laws of what is written and read: each is what a function here ensures, so that its proof is asked for.
ghost use Rattle.notation.specs.Laws.{QuotedReadsBack, PairsReadBack};

pub fn quoted_text_reads_back()
    ensures { QuotedReadsBack }
{}

pub fn pairs_read_back()
    ensures { PairsReadBack }
{}
