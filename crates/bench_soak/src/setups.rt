//! Random lines, including the extreme settings.

ghost use Rattle.std.specs.Prelude.{◌<◌};

use anyhow::Context;
use bsc_bid::{Setup, Terminal};
use bsc_frame::Address;
use std::alloc::{AllocError, Global};
use test_fixtures::Random;

/// The number as one octet, at most 255.
fn octet(number: usize) -> u8 {
    u8::try_from(number).unwrap_or(u8::MAX)
}

/// Settings: full records of 1 to 144 characters, blocks of 146 to 400, 1 to 15 tries, 1 to 255
/// waits.
pub fn setup(random: &mut Random) -> anyhow::Result<Setup> {
    let full = octet(random.setting(1, 80, 144));
    let block_chars = u16::try_from(random.setting(146, 240, 400)).unwrap_or(400);
    let tries = octet(random.setting(1, 3, 15));
    let waits = octet(random.setting(1, 10, 255));
    Ok(Setup::new(full, block_chars, tries, waits)?)
}

/// The number of terminals of a line: 1 to 64, and few on most lines.
fn terminal_count(random: &mut Random) -> usize {
    match random.below(8) {
        0 => 1,
        1 => 64,
        2 => random.below(64).saturating_add(1),
        _ => random.below(4).saturating_add(1),
    }
}

/// The terminals of a line, each with one to four selection addresses.
pub fn terminals(alloc: Global, random: &mut Random) -> anyhow::Result<Vec<Terminal>> {
    let mut terminals = Vec::new(alloc);
    for code in 0x21..0x21 + terminal_count(random).min(64) {
        terminals.push(terminal(alloc, random, octet(code))?)?;
    }
    Ok(terminals)
}

/// A terminal whose addresses begin with a letter and this code.
fn terminal(alloc: Global, random: &mut Random, code: u8) -> anyhow::Result<Terminal> {
    let poll = address(random, b'P', code)?;
    let mut selects = Vec::new(alloc);
    add_selects(random, code, &mut selects)?;
    Ok(Terminal::new(poll, &selects)?)
}

/// Adds one to four addresses with this code.
fn add_selects(random: &mut Random, code: u8, selects: &mut Vec<Address>) -> anyhow::Result<()> {
    for letter in b'a'..=b'd' {
        if selects.is_empty() || random.one_in(2) {
            selects.push(address(random, letter, code)?)?;
        }
    }
    Ok(())
}

/// An address that begins with this letter and code, followed by up to five more codes.
fn address(random: &mut Random, letter: u8, code: u8) -> anyhow::Result<Address> {
    let mut codes = [letter, code, 0, 0, 0, 0, 0];
    let more = random.below(6);
    for place in 2..2 + more {
        codes[place] = octet(0x21 + random.below(0x5e));
    }
    Address::read(&codes[..2 + more]).context("no address")
}

/// The number of selection addresses of each terminal.
pub fn select_counts(alloc: Global, terminals: &[Terminal]) -> Result<Vec<usize>, AllocError> {
    let mut counts = Vec::new(alloc);
    for terminal in terminals {
        counts.push(terminal.selects())?;
    }
    Ok(counts)
}

/// A poll list of 1 to 255 entries for this many terminals: each terminal in order, or any entries.
pub fn poll_list(
    alloc: Global,
    random: &mut Random,
    terminals: usize,
) -> Result<Vec<u8>, AllocError> {
    let mut entries = Vec::new(alloc);
    if random.one_in(2) {
        for terminal in 0..terminals {
            entries.push(octet(terminal))?;
        }
        return Ok(entries);
    }
    for _ in 0..random.setting(1, 6, 255) {
        entries.push(octet(random.below(terminals)))?;
    }
    Ok(entries)
}
