//! Plays workloads on a line, for the comparison with plain Rust that bench/line makes.
//!
//! The messages are the standard's (GA27-3004); the workloads and their numbers are this project's
//! own.
#![tactic(auto)]

mod report;
mod scripts;
mod workload;

use anyhow::{Result, bail};
use std::alloc::Global;
use std::io::{BufWriter, Write};
use std::rt::{Clock, Env, Files};
use std::{env, io};
use workload::Hearing;

fn main(rt: HostRuntime) -> Result<()> {
    run(&rt)
}

/// Plays the workload of the command line, or small ones if there is none.
fn run<R: AllocGlobal + Clock + Env + Eprint + Files + Print>(rt: &R) -> Result<()> {
    let mut words = Vec::new(rt.alloc());
    read_words(rt, &mut words)?;
    let mut out = BufWriter::new(rt.alloc(), io::writer(rt))?;
    play_to(rt, &mut out, &words)
}

/// Adds the words of the command line.
fn read_words<R: AllocGlobal + Env>(rt: &R, words: &mut Vec<String>) -> Result<()> {
    for word in env::args(rt)?.skip(1) {
        words.push(word)?;
    }
    Ok(())
}

/// Plays the workload of these words, or small ones if there is none, and flushes the output.
fn play_to<R: AllocGlobal + Clock + Eprint + Files, W: Write>(
    rt: &R,
    out: &mut W,
    words: &[String],
) -> Result<()> {
    if words.is_empty() {
        play_small(rt, out)?;
    } else {
        play(rt, out, words)?;
    }
    out.flush()?;
    Ok(())
}

/// Plays a small workload of each kind.
fn play_small<R: AllocGlobal + Clock + Files, W: Write>(rt: &R, out: &mut W) -> Result<()> {
    workload::polls(rt, out, 3, 100, Hearing::Sent)?;
    workload::texts(rt, out, 3, 0, 10, Hearing::Octets)?;
    scripts::play(rt.alloc(), out, 1, 10, 100)
}

/// Plays the workload with this name and these numbers.
fn play<R: AllocGlobal + Clock + Eprint + Files, W: Write>(
    rt: &R,
    out: &mut W,
    words: &[String],
) -> Result<()> {
    let Some((name, numbers)) = words.split_first() else {
        bail!("not a workload")
    };
    match name.as_str() {
        "polls" => polls(rt, out, numbers),
        "texts" => texts(rt, out, numbers),
        "scripts" => play_scripts(rt.alloc(), out, numbers),
        _ => bail!("not a workload"),
    }
}

fn polls<R: AllocGlobal + Clock + Eprint, W: Write>(
    rt: &R,
    out: &mut W,
    numbers: &[String],
) -> Result<()> {
    let [terminals, events, how] = numbers else {
        bail!("not three words")
    };
    let (terminals, events) = (terminals.parse()?, events.parse()?);
    workload::polls(rt, out, terminals, events, hearing(how)?)?.print(rt)
}

fn texts<R: AllocGlobal + Clock + Eprint + Files, W: Write>(
    rt: &R,
    out: &mut W,
    numbers: &[String],
) -> Result<()> {
    let [terminals, history, visits, how] = numbers else {
        bail!("not four words")
    };
    let (terminals, history, visits) = (terminals.parse()?, history.parse()?, visits.parse()?);
    workload::texts(rt, out, terminals, history, visits, hearing(how)?)?.print(rt)
}

fn play_scripts<W: Write>(alloc: Global, out: &mut W, numbers: &[String]) -> Result<()> {
    let [seed, scripts, events] = numbers else {
        bail!("not three numbers")
    };
    scripts::play(alloc, out, seed.parse()?, scripts.parse()?, events.parse()?)
}

fn hearing(word: &str) -> Result<Hearing> {
    match word {
        "sent" => Ok(Hearing::Sent),
        "octets" => Ok(Hearing::Octets),
        "padded" => Ok(Hearing::Padded),
        _ => bail!("not sent, octets or padded"),
    }
}
