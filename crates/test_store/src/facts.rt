//! What tests keep in a store and find in it. These functions borrow the store, whatever it is.

use bsc_block::Record;
use bsc_frame::Address;
use bsc_spool::{Change, Channel, Found, Store, StoreFault};

/// Returns the address of the terminal of the tests.
fn address() -> Result<Address, StoreFault> {
    match Address::read(b"A") {
        Ok(address) => Ok(address),
        Err(_) => Err(StoreFault::Refused),
    }
}

/// Returns the channel from the terminal.
pub(crate) fn from_terminal() -> Result<Channel, StoreFault> {
    let terminal = address()?;
    Ok(Channel::From { terminal })
}

/// Returns the channel to it. Its address is the same.
pub(crate) fn to_terminal() -> Result<Channel, StoreFault> {
    let selection = address()?;
    Ok(Channel::To { selection })
}

/// Returns a record with these characters. `Refused` says that they are none.
fn record(chars: &str) -> Result<Record, StoreFault> {
    match Record::read(chars.as_bytes(), 144) {
        Ok(record) => Ok(record),
        Err(_) => Err(StoreFault::Refused),
    }
}

/// What is kept of a channel: a record that is offered, how many are known and in doubt, a record
/// that arrives, and how many are printed.
#[derive(Clone, Copy)]
pub(crate) enum Fact {
    Offered(&'static str),
    Known(u32, u32),
    Arrived(&'static str),
    Printed(u32),
}

/// Returns the change by which a fact of a channel is kept.
pub(crate) fn change(channel: Channel, fact: Fact) -> Result<Change, StoreFault> {
    match fact {
        Fact::Offered(chars) => {
            let record = record(chars)?;
            Ok(Change::Offered { channel, record })
        }
        Fact::Known(known, in_doubt) => Ok(Change::Known {
            channel,
            known,
            in_doubt,
        }),
        Fact::Arrived(chars) => {
            let record = record(chars)?;
            Ok(Change::Arrived { channel, record })
        }
        Fact::Printed(count) => Ok(Change::Printed { channel, count }),
    }
}

/// Which records of a channel are meant.
#[derive(Clone, Copy)]
pub(crate) enum Side {
    Offered,
    Arrived,
}

/// Returns the record after this mark and this many more, if there is one.
fn found<S: Store>(
    store: &mut S,
    channel: &Channel,
    side: Side,
    mark: i64,
    more: u32,
) -> Result<Option<Found>, StoreFault> {
    match side {
        Side::Offered => store.offered(channel, mark, more),
        Side::Arrived => store.arrived(channel, mark, more),
    }
}

/// Returns the mark of what was found, if it has these characters, and else 0.
fn mark_of(found: Option<Found>, chars: &str) -> i64 {
    match found {
        Some(found) if found.record.chars() == chars.as_bytes() => found.mark,
        _ => 0,
    }
}

/// Whether these are the records of a channel, in order, and all of them. Each is found after the
/// one before it, and by its number.
pub(crate) fn are_kept<S: Store>(
    store: &mut S,
    channel: &Channel,
    side: Side,
    records: &[&str],
) -> Result<bool, StoreFault> {
    let mut mark = 0;
    let mut number = 0u32;
    for chars in records {
        let next = mark_of(found(store, channel, side, mark, 0)?, chars);
        let again = mark_of(found(store, channel, side, 0, number)?, chars);
        if next == 0 || next != again {
            return Ok(false);
        }
        mark = next;
        number = number.saturating_add(1);
    }
    Ok(found(store, channel, side, mark, 0)?.is_none())
}

/// How many records of a channel are offered, known, in doubt, arrived and printed.
pub(crate) fn counts<S: Store>(store: &mut S, channel: &Channel) -> Result<[u32; 5], StoreFault> {
    let it = store.progress(channel)?;
    Ok([it.offered, it.known, it.in_doubt, it.arrived, it.printed])
}
