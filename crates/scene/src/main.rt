// The scene text server at a terminal or a pipe: a session, one call a line; with an option that names a report, one on a text;
// or the help.

#![tactic(auto)]

use anyhow::ensure;
use help::write_help;
use hosting::{Options, run_session};
use one_shot::{Task, report_on_input};
use refusal::{Refusal, told};
use std::env;

mod help;
mod one_shot;
mod refusal;

fn main(rt: HostRuntime) -> anyhow::Result<()> {
    let words: Vec<String> = env::args(&rt)?.skip(1).collect(rt.alloc())?;
    let words: Vec<&str> = words.iter().map(|word| word.as_str()).collect(rt.alloc())?;
    if words.iter().any(|word| *word == "--help") {
        return Ok(write_help(&rt)?);
    }
    if words.iter().any(|word| Task::named(word).is_some()) {
        return report_on_input(&rt, &words);
    }
    // `[PILE] [SLOTS] [--screen N] [--store N] [--readings N]`
    let options = told(&rt, Options::read(&words).map_err(Refusal::from))?;
    let all_read = run_session(rt.alloc(), &options, &mut rt.reader(), &mut rt.stdout())?;
    ensure!(all_read, "lines that cannot be read");
    Ok(())
}
