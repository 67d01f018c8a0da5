// Carries out the sessions that are written down on standard input, one after another, so that a gate can compare their answers.
// Each begins with a line `$ scene WORDS`, as at a prompt, and goes on to the next such line.

#![tactic(auto)]

ghost use Rattle.std.specs.Prelude.{◌<◌, ◌≤◌, length};

use anyhow::anyhow;
use hosting::{MisreadAt, Options, run_session};
use std::io::{Read, Write};
use std::str;

// How many bytes a session has here: up to the next prompt behind a line end, or all.
fn session_length(text: &[u8]) -> usize
    requires { 0 < length text.now }
    ensures some { 0 < result }
    ensures within { result ≤ length text.now }
{
    let line_end = text
        .windows(2)
        .position(|pair| matches!(pair, [b'\n', b'$']));
    match line_end {
        Some(end) => end + 1,
        None => text.len(),
    }
}

// The first line without its line end, and the rest.
fn first_line(text: &[u8]) -> (&[u8], &[u8]) {
    match text.iter().position(|byte| *byte == b'\n') {
        Some(end) => (&text[..end], &text[end + 1..]),
        None => (text, &[]),
    }
}

fn run(rt: &HostRuntime, session: &[u8]) -> anyhow::Result<()> {
    let (prompt, mut lines) = first_line(session);
    let Ok(prompt) = str::from_utf8(prompt) else {
        return Err(anyhow!("a prompt that is no text"));
    };
    println!(rt; "{prompt}")?;
    // The words behind `$ scene`.
    let words: Vec<&str> = prompt.split_whitespace().skip(2).collect(rt.alloc())?;
    let options = match Options::read(&words) {
        Ok(options) => options,
        Err(MisreadAt { misread, .. }) => return Ok(println!(rt; "{misread}")?),
    };
    if !run_session(rt.alloc(), &options, &mut lines, &mut rt.stdout())? {
        println!(rt; "some lines could not be read")?;
    }
    Ok(())
}

fn main(rt: HostRuntime) -> anyhow::Result<()> {
    let mut text = Vec::new(rt.alloc());
    rt.stdin().read_to_end(&mut text)?;
    let mut left = text.as_slice();
    // From session to session: each ends where the next begins, and no byte between them could be split at.
    while !left.is_empty() {
        let end = session_length(left);
        run(&rt, &left[..end])?;
        left = &left[end..];
    }
    Ok(())
}
