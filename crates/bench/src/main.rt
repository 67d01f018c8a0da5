// Times the meter of walks beside a plain walk of the same bytes, and calls on documents with texts of several sizes, when it is
// given the word `run`. Without that word it writes nothing, so that a gate can run it.

#![tactic(auto)]

use grammar::Words;
use layers::{Comment, Quoted};
use measure::walk_reading::Passage;
use meter::Meter;
use std::{env, io};
use timing::{Timed, time};
use walks::Walk;

mod calls;
mod host;
mod scenes;
mod sizes;
mod timing;

type Pile = Quoted<Comment<Words>>;

const ROUNDS: u32 = 200_000;

static TEXT: [u8; 64] = *b"light (\"key [1]\", 2.5m, {fill}) # ) warm\nmove a1 to (b2, [c3])\n\n";

fn pile() -> Pile {
    Quoted {
        below: Comment { below: Words },
    }
}

// A text that differs from round to round, so that no round can be left out.
fn text_of(round: u32) -> [u8; 64] {
    let mut text = TEXT;
    text[round as usize % 64] = (round % 256) as u8;
    text
}

// The end of a walk in a reading, so that the reading is used.
fn end_of(reading: &Option<Passage>, round: u32) -> u8 {
    reading
        .as_ref()
        .map_or(0, |passage| passage.entries[round as usize % 18].end)
}

// Each round makes a value out of the last one, so that none can be left out.
fn time_rounds<F: Fn(u8, u32) -> u8 + Drop>(rt: &HostRuntime, step: F) -> io::Result<Timed<u8>>
    requires { F.IsAlwaysCallable step }
{
    time(rt, || {
        (0..ROUNDS).fold(0u8, |used, round| used ^ step(used, round))
    })
}

fn time_walk(rt: &HostRuntime) -> io::Result<Timed<u8>> {
    let grammar = pile();
    time_rounds(rt, |used, round| {
        grammar::walk(&grammar, used % 18, &text_of(round))
    })
}

fn time_measure(rt: &HostRuntime) -> io::Result<Timed<u8>> {
    let meter = Walk { grammar: pile() };
    time_rounds(
        rt,
        |_, round| end_of(&meter.measure(&text_of(round)), round),
    )
}

fn time_join(rt: &HostRuntime) -> io::Result<Timed<u8>> {
    let meter = Walk { grammar: pile() };
    let pieces = [
        meter.measure(&TEXT),
        meter.measure(&TEXT[..9]),
        meter.measure(&TEXT[9..]),
        meter.measure(&TEXT[40..]),
    ];
    time_rounds(rt, |_, round| {
        let left = &pieces[round as usize % 4];
        let right = &pieces[round as usize / 4 % 4];
        end_of(&meter.join(left, right), round)
    })
}

// The time of one round in nanoseconds, and its hundredths of a plain walk.
fn report(rt: &HostRuntime, what: &str, took: Timed<u8>, walk: Timed<u8>) -> io::Result<()> {
    let each = took.nanoseconds / ROUNDS as u128;
    let share = took.nanoseconds.saturating_mul(100) / walk.nanoseconds.max(1);
    let used = took.value;
    println!(rt; "{what}: {each} ns, {share} hundredths of a walk ({used})")
}

fn main(rt: HostRuntime) -> io::Result<()> {
    if !env::args(&rt)?.any(|word| word.as_str() == "run") {
        return Ok(());
    }
    let walk = time_walk(&rt)?;
    report(&rt, "walk 64 bytes", walk, walk)?;
    report(&rt, "join two readings", time_join(&rt)?, walk)?;
    report(&rt, "measure 64 bytes", time_measure(&rt)?, walk)?;
    calls::report_keystroke(&rt, 64)?;
    calls::report_keystroke(&rt, 4000)?;
    sizes::report_sizes(&rt)
}
