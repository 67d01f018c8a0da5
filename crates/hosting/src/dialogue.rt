// A session from its first line to its last: the answer of each line is written before the next is read.
ghost use Rattle.std.specs.Prelude.{◌≡◌, IfOk, OnOk, option_map, string_bytes};
ghost use Rattle.std.specs.Io.KnownBytes.{Appends};
ghost use Rattle.document.specs.Content.{Keeps};
ghost use Rattle.document.specs.Snapshot.{seen, SameDesk};
ghost use Rattle.session.specs.Asked.{meaning};
ghost use Rattle.hosting.specs.Replies.{host_scale};
ghost use Rattle.hosting.specs.Conversing.{problem_line, answer_line as line_of_answer, AnswersLine, ReadsNext, Conversation};

use crate::host::Host;
use document::{Desk, Document};
use editing::Readings;
use grammar::Grammar;
use session::{Problem, Request, read_request};
use std::alloc::Global;
use std::io::{self, BufRead, Write};

// What is written of a line that cannot be read.
fn problem_text(heap: Global, number: u64, problem: Problem) -> io::Result<String>
    ensures { IfOk result (λ s. string_bytes s ≡ problem_line number problem) }
{
    Ok(format!(in heap; "error: {number}: {problem}\n")?)
}

// Writes an answer as a line, if there is one.
fn write_answer<W: Write>(answer: Option<Vec<u8>>, out: &mut W) -> io::Result<()>
    ensures { OnOk result (Appends (W.contents out.old) (W.contents out.new) (line_of_answer (option_map (λ v. v.items) answer))) }
{
    if let Some(mut line) = answer {
        line.push(b'\n')?;
        out.write_all(&line)?;
    }
    Ok(())
}

// Reads the next line in the place of another, without its line feed; says whether there is one.
// All lines of a session are read into one place: `split` makes each of them on the heap and lets it go.
#[tactic(auto, using(crate::proofs::Conversing::reads_line, crate::proofs::Conversing::reads_last))]
fn read_line<R: BufRead>(lines: &mut R, line: &mut Vec<u8>) -> io::Result<bool>
    ensures { IfOk result (λ some. ReadsNext some (R.remaining lines.old) (R.remaining lines.new) line.new.items) }
{
    line.clear();
    let count = lines.read_until(b'\n', line)?;
    if count == 0 {
        return Ok(false);
    }
    if line[count - 1] == b'\n' {
        line.pop();
    }
    Ok(true)
}

impl<G: Grammar> Host<'_, G> {
    // Carries out one line, by what was read of it.
    fn answer_line<W: Write>(
        &self,
        document: &mut Document<Readings<()>>,
        desk: &mut Desk<Readings<()>>,
        number: u64,
        read: Result<Request, Problem>,
        out: &mut W,
    ) -> io::Result<()>
        ensures answers { let μ = host_scale G.meaning self.now.meter.now in Keeps document.old μ → OnOk result (AnswersLine (G.meaning self.now.meter.now.first.grammar) μ number (meaning read) (seen document.old desk.old) (seen document.new desk.new) (W.contents out.old) (W.contents out.new)) }
        ensures keeps { let μ = host_scale G.meaning self.now.meter.now in Keeps document.old μ → Keeps document.new μ }
        ensures lent { SameDesk desk.old desk.new }
    {
        match read {
            Ok(request) => {
                let answer = self.reply(document, desk, &request)?;
                write_answer(answer, out)
            }
            Err(problem) => out.write_all(problem_text(self.heap, number, problem)?.as_bytes()),
        }
    }

    // Answers all lines, and says whether every one could be read.
    pub fn converse<R: BufRead, W: Write>(
        &self,
        document: &mut Document<Readings<()>>,
        desk: &mut Desk<Readings<()>>,
        lines: &mut R,
        out: &mut W,
    ) -> io::Result<bool>
        ensures conversed { let μ = host_scale G.meaning self.now.meter.now in Keeps document.old μ → IfOk result (λ readable. Conversation (G.meaning self.now.meter.now.first.grammar) μ (R.remaining lines.old) (W.contents out.old) (W.contents out.new) (seen document.old desk.old) (seen document.new desk.new) readable) }
        ensures keeps { let μ = host_scale G.meaning self.now.meter.now in Keeps document.old μ → Keeps document.new μ }
        ensures lent { SameDesk desk.old desk.new }
    {
        // A yes or no that is only joined and tested: an enum of two would be turned into a bool at both places.
        let mut readable = true;
        let mut line = Vec::new(self.heap);
        for number in 1..u64::MAX {
            if !read_line(lines, &mut line)? {
                break;
            }
            let read = read_request(self.heap, &line)?;
            readable &= read.is_ok();
            self.answer_line(document, desk, number, read, out)?;
        }
        Ok(readable)
    }
}
