// The laws of what a session tells: each is what a function here ensures, so that its proof is asked for.
ghost use Rattle.hosting.specs.Laws.{RangeTellsItsText};

pub fn range_tells_its_text()
    ensures { RangeTellsItsText }
{}
