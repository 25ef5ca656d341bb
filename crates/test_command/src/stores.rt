//! The stores of the machine for tests, which outlive the command that uses them.

use crate::machine::Machine;
use crate::record::Record;
use crate::session::{add, number};
use bsc_attending::Stores;
use bsc_block::Record as Card;
use bsc_frame::Address;
use bsc_spool::{Change, Channel, Found, Progress, Store, StoreFault};
use bsc_storing::{Opened, StoreFiles};
use std::alloc::Global;
use std::test::Fail;

/// Returns the channel from the terminal with this address, or the one to it.
fn channel_of(way: &str, address: &str) -> Result<Channel, Fail> {
    let address = Address::read(address.as_bytes())?;
    match way {
        "from" => Ok(Channel::From { terminal: address }),
        _ => Ok(Channel::To { selection: address }),
    }
}

/// Returns the number in this text, or the greatest one of 32 bits.
pub(crate) fn count_of(text: &str) -> Result<u32, Fail> {
    Ok(u32::try_from(number(text)?).unwrap_or(u32::MAX))
}

/// Returns the change that a line of a session says: that a record was `offered` or `arrived`, how
/// many are `known` and in doubt, or how many are `printed`.
fn change_of(what: &str, line: &str) -> Result<Change, Fail> {
    let mut words = line.split(' ');
    let channel = channel_of(words.next().unwrap_or(""), words.next().unwrap_or(""))?;
    let (first, second) = (words.next().unwrap_or(""), words.next().unwrap_or(""));
    match what {
        "offered" => Ok(Change::Offered {
            channel,
            record: Card::read(first.as_bytes(), 144)?,
        }),
        "arrived" => Ok(Change::Arrived {
            channel,
            record: Card::read(first.as_bytes(), 144)?,
        }),
        "known" => Ok(Change::Known {
            channel,
            known: count_of(first)?,
            in_doubt: count_of(second)?,
        }),
        _ => Ok(Change::Printed {
            channel,
            count: count_of(first)?,
        }),
    }
}

/// Keeps what a line of a session says in the stores of a machine, this many times.
pub(crate) fn keep(
    alloc: Global,
    record: &Record,
    what: &str,
    line: &str,
    times: usize,
) -> Result<(), Fail> {
    let mut lines = String::new(alloc);
    add(&mut lines, line, times, '\n')?;
    for line in lines.lines() {
        let change = change_of(what, line)?;
        record.memory.try_borrow_mut()?.commit(&[change])?;
    }
    Ok(())
}

/// A store that is kept in the record of a machine.
#[derive(Drop)]
pub(crate) struct Lent<'a> {
    record: &'a Record,
}

impl Store for Lent<'_> {
    ghost keeps = { λ _ _ _. Unit {0} };

    ghost stays = { λ _ _. Unit {0} };

    ghost survives = { λ _ _ _. Unit {0} };

    ghost sound = { λ _. Unit {0} };

    ghost reads = { λ _ _. Unit {0} };

    ghost counts = { λ _ _ _ _. Unit {0} };

    ghost finds_offered = { λ _ _ _ _ _ _. Unit {0} };

    ghost finds_arrived = { λ _ _ _ _ _ _. Unit {0} };

    fn commit(&mut self, step: &[Change]) -> Result<(), StoreFault> {
        match self.record.memory.try_borrow_mut() {
            Ok(mut memory) => memory.commit(step),
            Err(_) => Err(StoreFault::InUse),
        }
    }

    fn progress(&mut self, channel: &Channel) -> Result<Progress, StoreFault> {
        let mut progress = match self.record.memory.try_borrow_mut() {
            Ok(mut memory) => memory.progress(channel)?,
            Err(_) => return Err(StoreFault::InUse),
        };
        let (offered, arrived) = (&self.record.offered_before, &self.record.arrived_before);
        progress.offered = progress.offered.saturating_add(offered.get());
        progress.arrived = progress.arrived.saturating_add(arrived.get());
        Ok(progress)
    }

    fn offered(
        &mut self,
        channel: &Channel,
        mark: i64,
        more: u32,
    ) -> Result<Option<Found>, StoreFault> {
        match self.record.memory.try_borrow_mut() {
            Ok(mut memory) => {
                let before = self.record.offered_before.get();
                memory.offered(channel, mark, more.saturating_sub(before))
            }
            Err(_) => Err(StoreFault::InUse),
        }
    }

    fn arrived(
        &mut self,
        channel: &Channel,
        mark: i64,
        more: u32,
    ) -> Result<Option<Found>, StoreFault> {
        match self.record.memory.try_borrow_mut() {
            Ok(mut memory) => {
                let before = self.record.arrived_before.get();
                memory.arrived(channel, mark, more.saturating_sub(before))
            }
            Err(_) => Err(StoreFault::InUse),
        }
    }
}

/// The text of a line of two terminals, for this station and these selection addresses of terminal
/// 0.
macro_rules! line_of {
    ($station:literal, $selected:literal) => {
        concat!(
            $station,
            "\nfull length 80\npolled 41 selected ",
            $selected,
            "\npolled 42 selected 62\n"
        )
    };
}

/// Returns the text of the line of the store at this path, if it can be opened.
fn line_at(path: &str) -> Result<&'static str, StoreFault> {
    match path {
        "kept" => Ok(line_of!("terminal 0", "61")),
        "other" => Ok(line_of!("terminal 1", "61")),
        "control" => Ok(line_of!("control station", "61")),
        "three" => Ok(line_of!("terminal 0", "61 63")),
        "threes" => Ok(line_of!("control station", "61 63")),
        "busy" => Err(StoreFault::InUse),
        "newer" => Err(StoreFault::Newer { version: 9 }),
        _ => Err(StoreFault::Missing),
    }
}

impl<'a> Stores for Machine<'a> {
    type Store = Lent<'a>;

    /// The store at `any` is that of every station.
    fn open_store(&mut self, path: &str, own: &str) -> Result<Lent<'a>, StoreFault> {
        if path != "any" && line_at(path)? != own {
            return Err(StoreFault::OtherLine);
        }
        let record = self.record;
        Ok(Lent { record })
    }
}

impl<'a> StoreFiles for Machine<'a> {
    type Kept = Lent<'a>;

    fn open_kept(&mut self, path: &str) -> Result<Opened<Lent<'a>>, StoreFault> {
        let text = line_at(path)?;
        let record = self.record;
        let store = Lent { record };
        match String::from_str(self.alloc, text) {
            Ok(line) => Ok(Opened { store, line }),
            Err(_) => Err(StoreFault::OutOfMemory),
        }
    }

    fn close_kept(&mut self, _opened: Opened<Lent<'a>>) -> Result<(), StoreFault> {
        Ok(())
    }

    fn make_kept(&mut self, path: &str, _line: &str) -> Result<(), StoreFault> {
        match line_at(path) {
            Ok(_) | Err(StoreFault::InUse) => Err(StoreFault::Taken),
            Err(_) => Ok(()),
        }
    }
}
