//! Lines of a text as records, and refused growths.

use bsc_block::Record;
use bsc_config::{Config, read_config};
use bsc_station::{OfferError, new_control, read_records};
use std::alloc::Global;
use std::test::Fail;
use test_alloc::{Refusal, Refusing};
use test_fixtures::configurations::TWO_TERMINALS;

/// A text, and the records of its lines.
const TEXT: &[u8] = b"HI\r\n\nA B \nHI\r";

const RECORDS: &[&[u8]] = &[b"HI", b"", b"A B ", b"HI\r"];

/// Whether the records have these characters, in order.
fn have_chars(records: &[Record], wanted: &[&[u8]]) -> bool {
    for (record, chars) in records.iter().zip(wanted) {
        if record.chars() != *chars {
            return false;
        }
    }
    records.len() == wanted.len()
}

#[test]
fn lines_become_records(rt: HostRuntime) -> Result<(), Fail> {
    assert!(rt; have_chars(&read_records(rt.alloc(), TEXT, 80)?, RECORDS));
    Ok(())
}

/// Texts with a line that is not a record of at most four characters, and what is told of the first
/// such line.
const REFUSED: &[(&[u8], &str)] = &[
    (b"HI\nHELLO\nTOO LONG\n", "line 2: record too long"),
    (b"A\r\nB\x03", "line 2: wrong character at 1"),
];

/// Whether a text is refused, and this is told.
fn is_told(alloc: Global, text: &[u8], wanted: &str) -> Result<bool, Fail> {
    match read_records(alloc, text, 4) {
        Ok(_) => Ok(false),
        Err(error) => Ok(error.to_string(alloc)?.as_str() == wanted),
    }
}

#[test]
fn the_first_refused_line_is_told(rt: HostRuntime) -> Result<(), Fail> {
    for (text, wanted) in REFUSED {
        assert!(rt; is_told(rt.alloc(), text, wanted)?, "{wanted}");
    }
    let memory = OfferError::Memory.to_string(rt.alloc())?;
    assert!(rt; memory.as_str() == "out of memory");
    Ok(())
}

/// Whether the result is out of memory if a growth was refused, and the two records otherwise.
fn are_read_or_refused(alloc: &Refusing) -> bool {
    match read_records(alloc, b"HI\nHO\n", 80) {
        Ok(records) => alloc.refused() == 0 && records.len() == 2,
        Err(error) => alloc.refused() == 1 && error == OfferError::Memory,
    }
}

#[test]
fn each_growth_of_reading_is_refused_in_turn(rt: HostRuntime) -> Result<(), Fail> {
    let alloc = Refusing::new(rt.alloc());
    for request in alloc.in_turn(Refusal::Nth, 1..8) {
        request?;
        assert!(rt; are_read_or_refused(&alloc));
    }
    Ok(())
}

/// Whether the result is an error if a growth was refused, and a control station otherwise.
fn is_made_or_refused(alloc: &Refusing, config: &Config) -> bool {
    match new_control(alloc, config) {
        Ok(control) => alloc.refused() == 0 && control.terminals() == 2,
        Err(_) => alloc.refused() == 1,
    }
}

#[test]
fn each_growth_of_a_control_station_is_refused_in_turn(rt: HostRuntime) -> Result<(), Fail> {
    let config = read_config(rt.alloc(), TWO_TERMINALS.as_bytes())?;
    let alloc = Refusing::new(rt.alloc());
    for request in alloc.in_turn(Refusal::Nth, 1..29) {
        request?;
        assert!(rt; is_made_or_refused(&alloc, &config));
    }
    Ok(())
}
