//! Stations with the most terminals, entries of the poll list and selection addresses: each keeps
//! whatever had arrived, while memory is granted.

ghost use Rattle.std.specs.Prelude.{◌≡◌, ◌<◌, IfOk, length};

use bsc_bid::Terminal;
use bsc_block::Record;
use bsc_control::Control;
use bsc_frame::Address;
use bsc_tributary::{Tributary, addresses_differ};
use std::alloc::Allocator;
use std::test::Fail;
use test_fixtures::lines::setup;
use test_fixtures::on_heap;

/// The second code of the addresses of the first terminal.
const FIRST_CODE: u8 = 0x21;

/// The number of records that had arrived at each place but the last.
const RECORDS: usize = 4_000;

/// The number of records that had arrived at the last place.
const MOST_RECORDS: usize = 400_000;

/// The characters with which the records begin.
const CHARS: &[u8] = &[b'A'; 144];

/// The record of this number: each length from 0 to 144 in turn.
fn record_of(number: usize) -> Option<Record> {
    let chars = CHARS.get(..number % 145)?;
    Record::read(chars, 144).ok()
}

/// The address of a letter and this code.
fn address_of(letter: u8, code: u8) -> Result<Address, Fail> {
    Ok(Address::read(&[letter, code])?)
}

/// A terminal with the polling address P and the selection addresses a, b, c and d, each followed
/// by this code.
fn coded_terminal(code: u8) -> Result<Terminal, Fail>
    ensures { IfOk result (λ terminal. length terminal.selects ≡ 4) }
{
    let selects = [
        address_of(b'a', code)?,
        address_of(b'b', code)?,
        address_of(b'c', code)?,
        address_of(b'd', code)?,
    ];
    Ok(Terminal::new(address_of(b'P', code)?, &selects)?)
}

/// Gives the control station this many records of any length that had arrived from a terminal, and
/// returns whether it keeps each.
fn keeps_from<A: Allocator>(control: &mut Control<A>, terminal: usize, count: usize) -> bool {
    for number in 0..count {
        let Some(record) = record_of(number) else {
            return false;
        };
        if terminal >= control.terminals() || control.keep_arrived(terminal, record).is_err() {
            return false;
        }
    }
    terminal < control.terminals() && control.spool(terminal).records().len() == count
}

#[test]
fn a_control_station_keeps_thousands_of_records_from_each_of_64_terminals(
    rt: HostRuntime,
) -> Result<(), Fail> {
    let mut terminals = [coded_terminal(FIRST_CODE)?; 64];
    for place in 0..64u8 {
        terminals[usize::from(place)] = coded_terminal(FIRST_CODE + place)?;
    }
    let made = Control::new(rt.alloc(), setup(3)?, &terminals, &[63; 255]);
    let mut control = on_heap(rt.alloc(), made)?;
    for terminal in 0..63usize {
        assert!(rt; keeps_from(&mut control, terminal, RECORDS));
    }
    assert!(rt; keeps_from(&mut control, 63, MOST_RECORDS));
    Ok(())
}

/// Gives a terminal the record of this number, that had arrived at the selection address of this
/// number, and returns whether it keeps it.
fn keeps_one<A: Allocator>(tributary: &mut Tributary<A>, select: usize, number: usize) -> bool
    requires { select < length tributary.old.terminal.selects }
    ensures { tributary.new.terminal ≡ tributary.old.terminal }
{
    match record_of(number) {
        Some(record) => tributary.keep_arrived(select, record).is_ok(),
        None => false,
    }
}

/// Gives a terminal this many records of any length that had arrived at the selection address of
/// this number, 0 to 3, and returns whether it keeps each.
fn keeps_at<A: Allocator>(tributary: &mut Tributary<A>, select: usize, count: usize) -> bool
    requires select { select < 4 }
    requires selects { length tributary.old.terminal.selects ≡ 4 }
    ensures selects { length tributary.new.terminal.selects ≡ 4 }
{
    for number in 0..count {
        if !keeps_one(tributary, select, number) {
            return false;
        }
    }
    tributary.spool(select).records().len() == count
}

#[test]
fn a_terminal_keeps_thousands_of_records_at_each_of_4_addresses(
    rt: HostRuntime,
) -> Result<(), Fail> {
    let terminal = coded_terminal(FIRST_CODE)?;
    if !addresses_differ(&terminal) {
        return Err("two addresses are the same".into());
    }
    let made = Tributary::new(rt.alloc(), setup(3)?, terminal);
    let mut tributary = Box::new(rt.alloc(), made)?;
    for select in 0..3usize {
        assert!(rt; keeps_at(&mut tributary, select, RECORDS));
    }
    assert!(rt; keeps_at(&mut tributary, 3, MOST_RECORDS));
    Ok(())
}
