// What `scene --help` writes: how the program is called, and the calls of a session, a line each.
ghost use Rattle.scene.specs.Help.{TellsEveryCall};

use report::NAMES;
use std::io;

const WORDS: &str = "\
usage: scene [PILE] [SLOTS] [--screen N] [--store N] [--readings N]
         a session: the calls on standard input, one a line, are answered on standard output
       scene [PILE] [--colour] [--show] [--measure] [--tree [SLOTS]]
         reports on the text on standard input, one for each option, in their order
       scene --help
         this text

  PILE            the grammar that colours the text; string-comment if none is named
  SLOTS           how many slots are lent, each for up to 64 bytes; 4096 if no number is given
  --screen N      the screen has N cells, in place of 262144
  --store N       the store has N bytes, in place of 64 for each slot
  --readings N    N readings are lent, in place of one for each slot
  --colour        the class of each byte, as a hexadecimal digit
  --show          the text in the terminal's colours
  --measure       length, line ends, units of the last line, end state, brackets left unmatched
  --tree [SLOTS]  bytes, chunks and height in a tree of so many slots, and what that measures";

const CALLS: &str = "\
The calls of a session, and what is answered:

  open                     makes the lent slots usable: pass
  edit FROM TO BYTES       puts the bytes in the place of the range: due A R K E
  paint [A R K E]          paints the due that stands, or the one with these numbers: pass
  close                    takes the pass: closed
  script TEXT F,T,S,E ...  for each F,T,S,E the range F to T becomes part S to E of TEXT: done COUNT
  text FROM TO [ROOM]      the range's bytes in quotes, by way of a buffer of ROOM cells
  colours FROM TO [ROOM]   the class of each of its bytes, as a hexadecimal digit
  size                     BYTES CHUNKS HEIGHT
  range FROM TO            what --measure says, of the range
  same PLACE BYTES         whether these bytes stand at the place: yes or no
  place PLACE              LINE COLUMN
  spot LINE COLUMN         the last place of the line that is not past the column: PLACE
  partner PLACE            the bracket that belongs to the one there: PLACE agree, PLACE differ or none
  screen [N]               the first N cells of the screen, as hexadecimal digits

BYTES and TEXT are written in quotes, with \\n \\r \\t \\\" \\\\ and \\xHH, or as x and two hexadecimal digits
for each byte. A due A R K E says that from place A on R bytes were taken out and K put in, and that from
place E on the colours are what they were. A call that is refused is answered: refused NUMBER LAYER PLACE,
and a script: refused INDEX NUMBER LAYER PLACE (docs/RULES.md has the numbers). Places, lines, columns and
records are counted from 0. A line that begins with # is passed over.";

// The lines about the calls.
fn calls() -> &'static str
    ensures { TellsEveryCall result.now }
{
    CALLS
}

pub fn write_help(rt: &HostRuntime) -> io::Result<()> {
    let calls = calls();
    println!(rt; "{WORDS}\n\nThe piles are {NAMES}.\n\n{calls}")
}
