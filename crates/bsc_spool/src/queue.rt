//! The sending end of a channel. A record stays in its queue after it is delivered, so that what
//! was offered can be compared with what was spooled; a station that runs for long forgets it.
ghost use Rattle.std.specs.Prelude.{◌≡◌, ◌≤◌, [], length, take, nat_eq, not, IsTrue, ◌↔◌, Some};
ghost use Rattle.std.specs.Prelude.{IfSome, IfErr, OnOk, OnErr};
ghost use Rattle.bsc_frame.specs.declared.message.Message.TheVariants as m;
ghost use Rattle.bsc_block.specs.Blocks.{block_text, blocks};
ghost use Rattle.bsc_spool.specs.Queue.{waiting, next_block, queue_of, with_forgotten, with_known};
ghost use Rattle.bsc_spool.specs.Queue.{with_offered};
ghost use Rattle.bsc_spool.specs.Queue.{IsQueue, IsNext};

use bsc_block::laws::cut_into_blocks;
use bsc_block::{Format, Record, Records, build, pack};
use bsc_frame::limits::MAX_UNITS;
use bsc_frame::{End, MessageBuffer};
use std::alloc::Allocator;
use std::marker::Model;

/// The next block: how many records it takes, and the character that ends it.
#[derive(Clone, Copy, Debug, PartialEq, Eq)]
pub struct Next {
    /// The number of waiting records that it takes, 1 to 7.
    pub count: usize,

    /// ETX if these are all that wait, else ETB.
    pub end: End,
}

/// The records that were offered, and how many of them are known to have been delivered.
#[derive(Drop)]
pub struct Queue<A: Allocator> {
    /// The format of the blocks.
    format: Format,

    /// The records that were offered, the delivered ones first.
    records: Records<A>,

    /// How many of them are known to have been delivered.
    known: usize,
}

impl<A: Allocator> Model for Queue<A> {
    ghost use Rattle.bsc_spool.specs.Queue.{QueueValue, IsQueue, queue_of};

    ghost Value = { QueueValue };

    ghost view = { λ q. queue_of q.format q.records.items q.known };

    ghost invariant = { λ q. IsQueue (queue_of q.format q.records.items q.known) };
}

impl<A: Allocator> Queue<A> {
    /// Creates an empty queue. It does not allocate memory.
    pub fn new(alloc: A, format: Format) -> Self
    where
        A: Copy,
        ensures { result ≡ queue_of format [] 0 }
    {
        Queue {
            format,
            records: Records::new(alloc),
            known: 0,
        }
    }

    /// Adds a record, no longer than the full length, at the end. Returns the record if there is no
    /// memory for it; the queue is then unchanged.
    pub fn offer(&mut self, record: Record) -> Result<(), Record>
        requires { length «record» ≤ self.old.format.full }
        ensures ok { OnOk result (self.new ≡ with_offered self.old «record») }
        ensures err { OnErr result (self.new ≡ self.old) }
        ensures given_back { IfErr result (λ r. r ≡ «record») }
    {
        match self.records.push(&record) {
            Ok(()) => Ok(()),
            Err(_) => Err(record),
        }
    }

    /// Returns the records that were offered, the delivered ones first.
    pub fn offered(&self) -> &Records<A>
        ensures value { result.now.items ≡ self.now.offered }
        ensures queue { IsQueue self.now }
    {
        &self.records
    }

    /// Returns how many of the offered records are known to have been delivered.
    pub fn known(&self) -> usize
        ensures value { result ≡ self.now.known }
        ensures queue { IsQueue self.now }
    {
        self.known
    }

    /// Returns whether records wait: whether more were offered than are known to have been
    /// delivered.
    pub fn has_waiting(&self) -> bool
        ensures value { result ≡ not (nat_eq (length (waiting self.now)) 0) }
        ensures some { IsTrue result ↔ (1 ≤ length (waiting self.now)) }
    {
        self.records.len() > self.known
    }

    /// Returns the next block of the waiting records, that is, of those after the known ones: `Etx`
    /// if it takes all of them, else `Etb` (GA27-3004: ETB and ETX). Returns `None` if no record
    /// waits.
    pub fn next(&self) -> Option<Next>
        ensures value { result ≡ next_block self.now }
        ensures next { IfSome result (λ n. IsNext self.now n) }
    {
        let count = pack(&self.records, self.known, self.format);
        if count == 0 {
            return None;
        }
        let end = if count == self.records.len() - self.known {
            End::Etx
        } else {
            End::Etb
        };
        Some(Next { count, end })
    }

    /// Returns the number of blocks that the waiting records make; 0 if no record waits.
    pub fn blocks(&self) -> usize
        ensures value { result ≡ length (blocks self.now.format (waiting self.now)) }
        ensures few { result ≤ length (waiting self.now) }
    {
        cut_into_blocks();
        let mut at = self.known;
        let mut count = 0usize;
        while at < self.records.len() {
            at += pack(&self.records, at, self.format);
            count += 1;
        }
        count
    }

    /// Puts the text of the first `count` waiting records, with this end, into `message`, whatever
    /// was there. `count` is 1 to 7, and at most the number of waiting records.
    pub fn text(&self, count: usize, end: End, message: &mut MessageBuffer)
        requires some { 1 ≤ count }
        requires few { count ≤ MAX_UNITS }
        requires wait { count ≤ length (waiting self.now) }
        ensures { message.new
            ≡ Some (m.Text
            (block_text self.now.format (take count (waiting self.now)) end)) }
    {
        build(&self.records, self.known, count, self.format, end, message);
    }

    /// Records that the first `count` waiting records were delivered. `count` is at most the number
    /// of waiting records.
    pub fn mark(&mut self, count: usize)
        requires { count ≤ length (waiting self.old) }
        ensures { self.new ≡ with_known self.old count }
    {
        prove!(count <= self.records.len() - self.known);
        self.known += count;
    }

    /// Forgets the first records, this many, at most as many as are known to have been delivered.
    /// Their places stay, and the waiting records stay as they are. No memory is allocated.
    pub fn forget(&mut self, count: usize)
        requires { count ≤ self.old.known }
        ensures { self.new ≡ with_forgotten self.old count }
    {
        self.records.forget(count);
    }
}
