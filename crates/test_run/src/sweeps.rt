//! Runs of each size. What a run prints that nothing interrupts the contract of `run_line` says;
//! here each is seen to end, with a trace and without one.

use crate::progress::counts_of;
use crate::runs::REPORT;
use crate::watched::{NO_TROUBLE, Plan, TRACED};
use crate::written::{run_in_memory, run_over_sockets};
use bsc_text::progress::Counts;
use std::alloc::{AllocError, Global};
use std::test::Fail;
use test_fixtures::configurations::TWO_TERMINALS;

/// Appends a text as many times as this.
fn put(text: &mut String, part: &str, times: usize) -> Result<(), AllocError> {
    for _ in 0..times {
        text.push_str(part)?;
    }
    Ok(())
}

/// Appends a silence, and as many events as this in which what is pending is heard as it is sent.
fn put_carries(text: &mut String, count: usize) -> Result<(), AllocError> {
    text.push_str("silence\n")?;
    put(text, "carry\n", count)
}

/// The last counts of a run in memory by this plan that reaches the end of its script, and tells
/// each of its events.
fn counts_at_end(
    alloc: Global,
    config: &str,
    script: &str,
    plan: Plan,
) -> Result<Option<Counts>, Fail> {
    let ended = run_in_memory(alloc, config, script, plan)?;
    let is_whole = ended.answer.is_ok() && ended.kept.in_order;
    if !is_whole || !ended.out.ends_with(b"trusted\n") {
        return Err(Fail::new("no report, or an event is not told"));
    }
    Ok(ended.kept.last)
}

/// How many records are known to have arrived at the end of a run, if as many arrived, with a trace
/// and without one.
fn count_known(alloc: Global, config: &str, script: &str) -> Result<u64, Fail> {
    let counts = counts_at_end(alloc, config, script, NO_TROUBLE)?;
    let traced = counts_at_end(alloc, config, script, TRACED)?;
    match counts {
        Some(counts) if counts.arrived == counts.known && traced == Some(counts) => {
            Ok(counts.known)
        }
        None if traced.is_none() => Ok(0),
        _ => Err(Fail::new("other counts")),
    }
}

/// A configuration with this many terminals, each of which is polled. They have one to four
/// selection addresses: terminal 0 has one, terminal 1 has two, and so on.
pub(crate) fn line_of(alloc: Global, count: usize) -> Result<String, Fail> {
    let mut text = String::from_str(alloc, "version = 2\npoll_list = [0")?;
    for number in 1..count {
        write!(text, ", {number}")?;
    }
    text.push_str("]\n")?;
    for number in 0..count {
        put_terminal(&mut text, number)?;
    }
    Ok(text)
}

/// Appends the table of a terminal.
fn put_terminal(text: &mut String, number: usize) -> Result<(), Fail> {
    write!(
        text,
        "[[terminals]]\npoll = \"A{number}\"\nselect = [\"a{number}\""
    )?;
    for select in 0..number % 4 {
        write!(text, ", \"b{select}-{number}\"")?;
    }
    text.push_str("]\n")?;
    Ok(())
}

/// A script in which a record is offered on each channel of this many terminals; then every second
/// terminal hears nothing of a call, and the others hear noise; and then as much as this is heard
/// as it is sent.
pub(crate) fn offers_of(alloc: Global, count: usize, carried: usize) -> Result<String, Fail> {
    let mut text = String::new(alloc);
    for number in 0..count {
        put_offers(&mut text, number)?;
    }
    text.push_str("silence\nheard-each")?;
    for number in 0..count {
        text.push_str(if number % 2 == 0 { " -" } else { " 00" })?;
    }
    text.push_str("\n")?;
    put_carries(&mut text, carried)?;
    Ok(text)
}

/// Appends the offers of a record on each channel of a terminal.
fn put_offers(text: &mut String, number: usize) -> Result<(), Fail> {
    write!(text, "offer-at {number} R{number}\n")?;
    for select in 0..1 + number % 4 {
        write!(text, "offer-to {number} {select} R{number}.{select}\n")?;
    }
    Ok(())
}

/// Whether a run over sockets prints the report of nothing, and tells no event.
fn is_only_reported(rt: &HostRuntime, script: &str) -> Result<bool, Fail> {
    let ended = run_over_sockets(rt, TWO_TERMINALS, script)?;
    Ok(ended.answer == Ok(()) && ended.has_printed(REPORT) && ended.kept.times == 0)
}

#[test]
fn a_script_without_an_event_has_a_report(rt: HostRuntime) -> Result<(), Fail> {
    for script in ["", "\n", "# carry\n", "\n\r\n#\n\n"] {
        assert!(rt; is_only_reported(&rt, script)?);
        assert_eq!(rt; count_known(rt.alloc(), TWO_TERMINALS, script)?, 0);
    }
    Ok(())
}

/// The least and the greatest number at each key.
const RANGES: &[(&str, usize, usize)] = &[
    ("full", 1, 144),
    ("block_chars", 146, 400),
    ("tries", 1, 15),
    ("waits", 1, 255),
];

/// A record in each direction, of which the second is lost once and the first twice.
const DELIVERED: &str = "offer-at 0 A\noffer-for 1 B\nsilence\ncarry\nlose\nsilence\nlose\nsilence
carry\ncarry\ncarry\nlose\nsilence\ncarry\ncarry\ncarry\n";

#[test]
fn a_line_of_each_setting_is_run(rt: HostRuntime) -> Result<(), Fail> {
    for (key, least, most) in RANGES {
        for number in *least..=*most {
            let config = format!(in rt.alloc(); "{key} = {number}\n{TWO_TERMINALS}")?;
            counts_at_end(rt.alloc(), &config, DELIVERED, NO_TROUBLE)?;
            counts_at_end(rt.alloc(), &config, DELIVERED, TRACED)?;
        }
    }
    Ok(())
}

/// A configuration of one terminal, with a poll list of as many entries as this.
fn line_of_entries(alloc: Global, entries: usize) -> Result<String, AllocError> {
    let mut text = String::from_str(alloc, "version = 1\npoll_list = [0")?;
    put(&mut text, ", 0", entries.saturating_sub(1))?;
    text.push_str("]\n[[terminals]]\npoll = \"A\"\nselect = \"a\"\n")?;
    Ok(text)
}

#[test]
fn a_poll_list_of_each_length_is_run(rt: HostRuntime) -> Result<(), Fail> {
    for entries in 1..=255usize {
        let config = line_of_entries(rt.alloc(), entries)?;
        let ended = run_over_sockets(&rt, &config, "silence\ncarry\ncarry\n")?;
        assert!(rt;
            ended.answer == Ok(()) && ended.kept.times == 3,
            "{entries}"
        );
    }
    Ok(())
}

/// A script in which hearings of these lengths are noise: those of one length for both terminals,
/// and then two lengths, together one more than the greatest.
fn hearings(alloc: Global, least: usize, most: usize) -> Result<String, AllocError> {
    let mut text = String::new(alloc);
    for length in least..=most {
        put_hearings(&mut text, length)?;
    }
    Ok(text)
}

/// Appends the hearings of this length.
fn put_hearings(text: &mut String, length: usize) -> Result<(), AllocError> {
    text.push_str("silence\nheard ")?;
    put(text, "FF", length)?;
    text.push_str("\nsilence\nheard-each ")?;
    put(text, "FF", length)?;
    text.push_str(" ")?;
    put(text, "FF", 2049usize.saturating_sub(length))?;
    text.push_str("\n")
}

#[test]
fn hearings_of_each_length_cross_the_cable(rt: HostRuntime) -> Result<(), Fail> {
    for part in 0..16usize {
        let script = hearings(rt.alloc(), part * 128 + 1, part * 128 + 128)?;
        assert_eq!(rt;
            count_known(rt.alloc(), TWO_TERMINALS, &script)?,
            0,
            "{part}"
        );
    }
    Ok(())
}

/// A script in which records of this text, of each length up to this one, are offered in both
/// directions, and all of them are delivered.
fn lengths_of(alloc: Global, text: &str, most: usize) -> Result<String, AllocError> {
    let mut script = String::new(alloc);
    for length in 0..=most {
        for offer in ["offer-at 0 ", "offer-for 1 "] {
            script.push_str(offer)?;
            put(&mut script, text, length)?;
            script.push_str("\n")?;
        }
    }
    put_carries(&mut script, 400)?;
    Ok(script)
}

/// Codes of which a record may consist, each at the end of the text of an offer, and before its
/// last code: all but the eleven that frame a text, a line feed, and a carriage return at the end.
fn codes_of(alloc: Global) -> Result<String, Fail> {
    let mut script = String::new(alloc);
    for code in 0..128u8 {
        if matches!(code, 1..=5 | 10 | 16 | 21..=23 | 25 | 31) {
            continue;
        }
        for offer in ["offer-at 1 ", "offer-for 0 "] {
            let last = char::from(code);
            write!(script, "{offer}{last}\n{offer}{last}x\n")?;
        }
    }
    put_carries(&mut script, 200)?;
    Ok(script)
}

#[test]
fn records_of_each_length_and_of_each_code_are_delivered(rt: HostRuntime) -> Result<(), Fail> {
    let config = format!(in rt.alloc(); "full = 144\n{TWO_TERMINALS}")?;
    for text in ["A", "\\", " ", "\u{7f}"] {
        let script = lengths_of(rt.alloc(), text, 144)?;
        assert_eq!(rt; count_known(rt.alloc(), &config, &script)?, 290, "{text}");
    }
    let script = codes_of(rt.alloc())?;
    assert_eq!(rt; count_known(rt.alloc(), TWO_TERMINALS, &script)?, 464);
    Ok(())
}

/// The script in which a record of HI is sent, and heard as the longest text that is sent: seven
/// records of 144 times A, of which an even number adds nothing to the check.
fn longest_text(alloc: Global) -> Result<String, AllocError> {
    let mut script = String::from_str(alloc, "offer-at 0 HI\nsilence\ncarry\nheard 161602")?;
    for _ in 0..6 {
        put(&mut script, "C1", 144)?;
        script.push_str("191F86")?;
    }
    put(&mut script, "C1", 144)?;
    script.push_str("19831AFF\n")?;
    Ok(script)
}

#[test]
fn the_longest_text_is_heard(rt: HostRuntime) -> Result<(), Fail> {
    let config = format!(in rt.alloc(); "full = 144\n{TWO_TERMINALS}")?;
    let script = longest_text(rt.alloc())?;
    for plan in [NO_TROUBLE, TRACED] {
        let counts = counts_at_end(rt.alloc(), &config, &script, plan)?;
        assert!(rt; counts == Some(counts_of(4, 0, 7, 0)));
    }
    Ok(())
}

/// More events than the longest script that the command reads: two million, of which every second
/// one is the loss of a call.
#[test]
fn a_script_of_two_million_events_is_run(rt: HostRuntime) -> Result<(), Fail> {
    let script = "silence\nlose\n".repeat(rt.alloc(), 1_000_000)?;
    let counts = counts_at_end(rt.alloc(), TWO_TERMINALS, &script, NO_TROUBLE)?;
    assert!(rt; counts == Some(counts_of(2_000_000, 0, 0, 0)));
    Ok(())
}

/// As many records as such a script offers.
#[test]
fn a_script_of_132_000_records_is_run(rt: HostRuntime) -> Result<(), Fail> {
    let mut script = "offer-at 0 HI\noffer-for 1 BYE\n".repeat(rt.alloc(), 66_000)?;
    put_carries(&mut script, 40_000)?;
    let counts = counts_at_end(rt.alloc(), TWO_TERMINALS, &script, TRACED)?;
    assert!(rt; counts == Some(counts_of(172_001, 132_000, 132_000, 0)));
    Ok(())
}
