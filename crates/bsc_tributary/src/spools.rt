//! The spools of a terminal, one for each selection address.

ghost use Rattle.std.specs.Prelude.{◌≡◌, ◌<◌, ◌≤◌, [], true, length, slice_set, All};
ghost use Rattle.std.specs.Prelude.{OnOk, OnErr, IfErr};
ghost use Rattle.bsc_bid.specs.Receiver.{Receives};
ghost use Rattle.bsc_spool.specs.Spool.{room_asked, GainsRecord, ForgetsRecords};
ghost use Rattle.bsc_tributary.specs.Tributary.{spool_at};

use bsc_bid::Receiver;
use bsc_bid::limits::MAX_SELECTS;
use bsc_block::Record;
use bsc_frame::{Heard, Reply};
use bsc_spool::Spool;
use std::alloc::Allocator;
use std::marker::Model;

/// A spool for each selection address, in the order of the addresses. The spools are fields of the
/// terminal, so that a new terminal allocates nothing; all four exist, and the first `count` are in
/// use. They are not an array, because callers would have to show that an array of them fits into
/// memory.
#[derive(Drop)]
pub(crate) struct Spools<A: Allocator> {
    /// The spool of the first selection address.
    first: Spool<A>,

    /// The spool of the second selection address; empty if there is no such address.
    second: Spool<A>,

    /// The spool of the third selection address; empty if there is no such address.
    third: Spool<A>,

    /// The spool of the fourth selection address; empty if there is no such address.
    fourth: Spool<A>,

    /// The number of spools in use, from the first on: at most 4.
    count: usize,
}

impl<A: Allocator> Model for Spools<A> {
    ghost use Rattle.std.specs.Prelude.{◌≤◌, List, [], ◌∷◌, take};
    ghost use Rattle.bsc_spool.specs.Spool.{SpoolValue};
    ghost use Rattle.bsc_bid.specs.declared.limits.TheConstants.{MAX_SELECTS};

    ghost Value = { List SpoolValue };

    ghost view = { λ s. take s.count (s.first ∷ s.second ∷ s.third ∷ s.fourth ∷ []) };

    ghost invariant = { λ s. s.count ≤ MAX_SELECTS };
}

impl<A: Allocator> Spools<A> {
    /// Returns this many empty spools. Condition: `count` is at most 4.
    pub(crate) fn new(alloc: A, count: usize) -> Self
    where
        A: Copy,
        requires { count ≤ MAX_SELECTS }
        ensures count { length result ≡ count }
        ensures empty { All (λ s. (s.records ≡ []) × (s.delays ≡ 0)) result }
    {
        Spools {
            first: Spool::new(alloc),
            second: Spool::new(alloc),
            third: Spool::new(alloc),
            fourth: Spool::new(alloc),
            count,
        }
    }

    /// Returns the spool of this number. Condition: it is in use.
    pub(crate) fn spool(&self, select: usize) -> &Spool<A>
        requires { select < length self.now }
        ensures { result.now ≡ spool_at self.now select }
    {
        match select {
            0 => &self.first,
            1 => &self.second,
            2 => &self.third,
            _ => &self.fourth,
        }
    }

    /// Makes room in the spool of this number. Returns whether there is room. Condition: it is in
    /// use.
    pub(crate) fn make_room(&mut self, select: usize) -> bool
        requires { select < length self.old }
        ensures spool { self.new
            ≡ slice_set self.old select (room_asked (spool_at self.old select) result) }
        ensures there { (spool_at self.old select).room ≡ true → result ≡ true }
    {
        match select {
            0 => self.first.make_room(),
            1 => self.second.make_room(),
            2 => self.third.make_room(),
            _ => self.fourth.make_room(),
        }
    }

    /// Adds a record to the spool of this number, or returns it if there is no memory for it.
    /// Condition: the spool is in use.
    pub(crate) fn keep(&mut self, select: usize, record: Record) -> Result<(), Record>
        requires { select < length self.old }
        ensures ok { OnOk result
            (GainsRecord (spool_at self.old select) «record» (spool_at self.new select)) }
        ensures err { OnErr result (self.new ≡ self.old) }
        ensures given_back { IfErr result (λ r. r ≡ «record») }
        ensures spools { self.new ≡ slice_set self.old select (spool_at self.new select) }
    {
        match select {
            0 => self.first.keep(record),
            1 => self.second.keep(record),
            2 => self.third.keep(record),
            _ => self.fourth.keep(record),
        }
    }

    /// Forgets the first records of the spool of this number, this many. Condition: the spool is in
    /// use, and has as many records.
    pub(crate) fn forget(&mut self, select: usize, count: usize)
        requires select { select < length self.old }
        requires count { count ≤ length (spool_at self.old select).records }
        ensures forgets { ForgetsRecords (spool_at self.old select) count
            (spool_at self.new select) }
        ensures spools { self.new ≡ slice_set self.old select (spool_at self.new select) }
    {
        match select {
            0 => self.first.forget(count),
            1 => self.second.forget(count),
            2 => self.third.forget(count),
            _ => self.fourth.forget(count),
        }
    }

    /// Lets the receiver hear a transmission, and stores what it takes in the spool of this number.
    /// Returns the reply. Condition: the spool is in use.
    pub(crate) fn receive(
        &mut self,
        select: usize,
        receiver: &mut Receiver,
        heard: &Heard<'_>,
        urgent: bool,
    ) -> Option<Reply>
        requires { select < length self.old }
        ensures receives { Receives receiver.old (spool_at self.old select) heard.now urgent
            (record { receiver = receiver.new; spool = spool_at self.new select; reply = result }) }
        ensures spools { self.new ≡ slice_set self.old select (spool_at self.new select) }
    {
        match select {
            0 => receiver.heard(heard, urgent, &mut self.first),
            1 => receiver.heard(heard, urgent, &mut self.second),
            2 => receiver.heard(heard, urgent, &mut self.third),
            _ => receiver.heard(heard, urgent, &mut self.fourth),
        }
    }
}
