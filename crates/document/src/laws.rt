// What follows from the rules of a document's calls: the law is what the function ensures, so that its proof is asked for.
ghost use Rattle.model.specs.Script.{RecordsArePaintedEdits};

pub fn records_are_painted_edits()
    ensures { RecordsArePaintedEdits }
{}
