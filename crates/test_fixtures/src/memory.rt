//! A store in memory, for the tests of several crates. It outlives the stations that are made over
//! it, and fails when it is told to.

use bsc_block::{Record, RecordError};
use bsc_spool::{Change, Channel, Found, Progress, Store, StoreFault};
use std::alloc::Global;

/// A store in memory. What is kept in it outlives what is made over it. The mark of a record is the
/// number of the changes up to it.
#[derive(Drop)]
pub struct Memory {
    /// The changes that were kept, in order.
    changes: Vec<Change>,

    /// How many commits succeed yet; then each fails with `Full`.
    pub left: u32,
}

/// Which records of a channel are meant.
#[derive(Clone, Copy, PartialEq, Eq)]
enum Side {
    Offered,
    Arrived,
}

/// Returns a copy of a record.
fn copy_of_record(record: &Record) -> Result<Record, RecordError> {
    Record::read(record.chars(), 144)
}

/// Returns a copy of a change.
fn copy_of(change: &Change) -> Result<Change, RecordError> {
    match change {
        Change::Offered { channel, record } => Ok(Change::Offered {
            channel: *channel,
            record: copy_of_record(record)?,
        }),
        Change::Known {
            channel,
            known,
            in_doubt,
        } => Ok(Change::Known {
            channel: *channel,
            known: *known,
            in_doubt: *in_doubt,
        }),
        Change::Arrived { channel, record } => Ok(Change::Arrived {
            channel: *channel,
            record: copy_of_record(record)?,
        }),
        Change::Printed { channel, count } => Ok(Change::Printed {
            channel: *channel,
            count: *count,
        }),
    }
}

/// Counts a change, if it is one of this channel.
fn count(progress: &mut Progress, change: &Change, of: &Channel) {
    match change {
        Change::Offered { channel, .. } if channel == of => {
            progress.offered = progress.offered.saturating_add(1);
        }
        Change::Known {
            channel,
            known,
            in_doubt,
        } if channel == of => {
            progress.known = *known;
            progress.in_doubt = *in_doubt;
        }
        Change::Arrived { channel, .. } if channel == of => {
            progress.arrived = progress.arrived.saturating_add(1);
        }
        Change::Printed { channel, count } if channel == of => progress.printed = *count,
        _ => {}
    }
}

/// Returns the record of a change, if it is one of this side of this channel.
fn record_of<'a>(change: &'a Change, of: &Channel, side: Side) -> Option<&'a Record> {
    match change {
        Change::Offered { channel, record } if side == Side::Offered && channel == of => {
            Some(record)
        }
        Change::Arrived { channel, record } if side == Side::Arrived && channel == of => {
            Some(record)
        }
        _ => None,
    }
}

/// Returns a record and its mark, which is that of the change after this many.
fn found_at(record: &Record, place: usize) -> Result<Option<Found>, StoreFault> {
    match (
        i64::try_from(place.saturating_add(1)),
        copy_of_record(record),
    ) {
        (Ok(mark), Ok(record)) => Ok(Some(Found { mark, record })),
        _ => Err(StoreFault::Damaged),
    }
}

impl Memory {
    /// Returns a store in which nothing is kept, and which never fails.
    pub fn new(alloc: Global) -> Memory {
        Memory {
            changes: Vec::new(alloc),
            left: u32::MAX,
        }
    }

    /// Returns the record after this mark and this many more.
    fn found(
        &self,
        channel: &Channel,
        side: Side,
        mark: i64,
        more: u32,
    ) -> Result<Option<Found>, StoreFault> {
        let Ok(begin) = usize::try_from(mark) else {
            return Err(StoreFault::Damaged);
        };
        let mut left = more;
        for place in begin..self.changes.len() {
            if let Some(record) = record_of(&self.changes[place], channel, side) {
                if left == 0 {
                    return found_at(record, place);
                }
                left -= 1;
            }
        }
        Ok(None)
    }
}

impl Store for Memory {
    ghost keeps = { λ _ _ _. Unit {0} };

    ghost stays = { λ _ _. Unit {0} };

    ghost survives = { λ _ _ _. Unit {0} };

    ghost sound = { λ _. Unit {0} };

    ghost reads = { λ _ _. Unit {0} };

    ghost counts = { λ _ _ _ _. Unit {0} };

    ghost finds_offered = { λ _ _ _ _ _ _. Unit {0} };

    ghost finds_arrived = { λ _ _ _ _ _ _. Unit {0} };

    fn commit(&mut self, step: &[Change]) -> Result<(), StoreFault> {
        if self.left == 0 {
            return Err(StoreFault::Full);
        }
        self.left -= 1;
        for change in step {
            let Ok(change) = copy_of(change) else {
                return Err(StoreFault::Damaged);
            };
            if self.changes.push(change).is_err() {
                return Err(StoreFault::OutOfMemory);
            }
        }
        Ok(())
    }

    fn progress(&mut self, channel: &Channel) -> Result<Progress, StoreFault> {
        let mut progress = Progress {
            offered: 0,
            known: 0,
            in_doubt: 0,
            arrived: 0,
            printed: 0,
        };
        for change in &self.changes {
            count(&mut progress, change, channel);
        }
        Ok(progress)
    }

    fn offered(
        &mut self,
        channel: &Channel,
        mark: i64,
        more: u32,
    ) -> Result<Option<Found>, StoreFault> {
        self.found(channel, Side::Offered, mark, more)
    }

    fn arrived(
        &mut self,
        channel: &Channel,
        mark: i64,
        more: u32,
    ) -> Result<Option<Found>, StoreFault> {
        self.found(channel, Side::Arrived, mark, more)
    }
}
