//! Random scripts. No such run is out of memory or stopped by the cable or the output. What it
//! prints otherwise the contract of `run_line` says.

use crate::watched::{NO_TROUBLE, TRACED};
use crate::written::run_in_memory;
use bsc_line::LineError;
use bsc_run::RunError;
use std::alloc::Global;
use std::test::Fail;
use test_fixtures::Random;
use test_fixtures::configurations::THREE_ADDRESSES;

/// What may be heard: EOT, calls of A and a, ENQ, each reply, a text with a record, one without a
/// record, one that failed, and noise.
const HEARD: &[&str] = &[
    "1604",
    "161604FF1616C185FF",
    "161604FF16166185FF",
    "1685",
    "1615",
    "1610B0",
    "161031",
    "16103B",
    "1610BC",
    "161602C84919839BFF",
    "16028383",
    "160285",
    "00",
];

/// Events in which nothing is sent. Records have up to the greatest length.
const MARKS: &[&str] = &[
    "offer-at 0",
    "offer-at 0 HI",
    "offer-at 0 ................................................................................",
    "offer-at 1 A\\|B",
    "offer-for 0 HI",
    "offer-to 0 1 ................................................................................",
    "offer-to 0 1",
    "offer-for 1 HO",
    "ready 0",
    "ready 0",
    "unready 0",
    "poll-off 1",
    "poll-on 1",
    "urgent-at 0",
    "urgent-for 1",
];

/// One of these texts.
fn any_of(random: &mut Random, texts: &[&'static str]) -> &'static str {
    match texts.get(random.below(texts.len())) {
        Some(text) => *text,
        None => "silence",
    }
}

/// A script of as many events as this, in which something is heard if probably something is
/// pending.
fn any_script(alloc: Global, random: &mut Random, events: usize) -> Result<String, Fail> {
    let mut text = String::new(alloc);
    let mut is_sent = false;
    for _ in 0..events {
        is_sent = add_event(random, &mut text, is_sent)?;
    }
    Ok(text)
}

/// Adds an event. Returns whether probably something is pending after it.
fn add_event(random: &mut Random, text: &mut String, is_sent: bool) -> Result<bool, Fail> {
    if random.below(10) < 3 {
        write!(text, "{}\n", any_of(random, MARKS))?;
        return Ok(is_sent);
    }
    if is_sent {
        return add_turn(random, text);
    }
    text.push_str("silence\n")?;
    Ok(true)
}

/// Adds an event of hearing. Returns whether probably something is pending after it.
fn add_turn(random: &mut Random, text: &mut String) -> Result<bool, Fail> {
    let (first, second) = (any_of(random, HEARD), any_of(random, HEARD));
    match random.below(16) {
        0 | 1 => {
            text.push_str("lose\n")?;
            return Ok(false);
        }
        2 => write!(text, "heard {first}\n")?,
        3 => write!(text, "heard-each {first} {second}\n")?,
        _ => {
            text.push_str("carry\n")?;
            return Ok(true);
        }
    }
    Ok(random.one_in(2))
}

/// The number of events that the random script of this seed tells, with a trace or without one, if
/// it ends at its end, or at an event that the line refuses for another reason than lack of memory.
fn count_told(alloc: Global, seed: u64) -> Result<Option<u64>, Fail> {
    let mut random = Random::new(seed);
    let script = any_script(alloc, &mut random, 30)?;
    let tries = random.below(3).saturating_add(1);
    let config = format!(in alloc; "tries = {tries}\n{THREE_ADDRESSES}")?;
    let plan = if seed % 2 == 0 { TRACED } else { NO_TROUBLE };
    let ended = run_in_memory(alloc, &config, &script, plan)?;
    let is_whole = match ended.answer {
        Ok(()) => true,
        Err(RunError::Refused { why, .. }) => why != LineError::Memory,
        Err(_) => false,
    };
    Ok(if is_whole && ended.kept.in_order {
        Some(ended.kept.times)
    } else {
        None
    })
}

/// Each ends at its end, or at an event that is not possible then. More than half of all events are
/// possible.
#[test]
fn random_scripts_are_undisturbed(rt: HostRuntime) -> Result<(), Fail> {
    let mut performed = 0u64;
    for seed in 1..=4_000u64 {
        let told = count_told(rt.alloc(), seed)?;
        assert!(rt; told.is_some(), "{seed}");
        performed = performed.saturating_add(told.unwrap_or(0));
    }
    assert!(rt; performed > 60_000, "{performed}");
    Ok(())
}
