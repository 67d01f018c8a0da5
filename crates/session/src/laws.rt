// The laws of what is written and read: each is what a function here ensures, so that its proof is asked for.
ghost use Rattle.session.specs.Laws.{EditReadsBack, ScriptReadsBack};

pub fn edit_line_reads_back()
    ensures { EditReadsBack }
{}

pub fn script_line_reads_back()
    ensures { ScriptReadsBack }
{}
