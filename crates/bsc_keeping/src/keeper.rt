//! What keeps the records of a station.

ghost use Rattle.std.specs.Prelude.{◌≡◌, None, OnOk, length, slice_get};
ghost use Rattle.bsc_keeping.specs.Changes.{known_now, received_now, sending_now, receiving_now};
ghost use Rattle.bsc_keeping.specs.Changes.{printed_of, records_of};
ghost use Rattle.bsc_keeping.specs.Keeping.{Commits, KeepsStep, step_of};
ghost use Rattle.bsc_keeping.specs.Offers.{KeepsOffer};

use crate::Prints;
use crate::changes::{changes_since, in_doubt};
use crate::offering::offer_to;
use bsc_bid::KeptSender;
use bsc_block::Record;
use bsc_spool::{Change, Receiving, Sending, Store, StoreFault};
use bsc_station::{LineStation, Party};
use std::alloc::Global;

/// The store of a station, and how much of each of its channels is kept there.
#[derive(Drop)]
pub struct Keeper<K: Drop> {
    alloc: Global,

    /// The store.
    store: K,

    /// The channels on which the station sends.
    sending: Vec<Sending>,

    /// The channels on which it receives.
    receiving: Vec<Receiving>,

    /// Why a step was not kept.
    fault: Option<StoreFault>,
}

impl<K: Store + Drop> Keeper<K> {
    /// Returns the keeper of a station of which this much is kept in the store.
    pub fn new(
        alloc: Global,
        store: K,
        sending: Vec<Sending>,
        receiving: Vec<Receiving>,
    ) -> Keeper<K>
        ensures store { result.store ≡ store }
        ensures sending { result.sending ≡ sending }
        ensures receiving { result.receiving ≡ receiving }
        ensures fault { result.fault ≡ None }
    {
        Keeper {
            alloc,
            store,
            sending,
            receiving,
            fault: None,
        }
    }

    /// Returns the store.
    pub fn into_store(self) -> K
        ensures { result ≡ self.store }
    {
        self.store
    }

    /// Returns why the last step was not kept that was not.
    pub fn fault(&self) -> Option<StoreFault>
        ensures { result ≡ self.now.fault }
    {
        self.fault
    }

    /// Returns how many records are kept as printed of the channel with this number among those on
    /// which the station receives; 0 if there is no such channel.
    pub fn printed(&self, number: usize) -> usize
        ensures { result ≡ printed_of (slice_get self.now.receiving.items number) }
    {
        match self.receiving.get(number) {
            Some(end) => end.printed,
            None => 0,
        }
    }

    /// Keeps a record that is offered on the channel to this selection address of this terminal, at
    /// once, and returns it, to be offered to the station after that. A terminal has one channel on
    /// which it sends, and 0 for both. Fails with `Refused` if the station sends on no such
    /// channel, and with the faults of the store.
    pub fn offer(
        &mut self,
        terminal: usize,
        select: usize,
        new: Record,
    ) -> Result<Record, StoreFault>
        ensures { KeepsOffer K.Store terminal select new result self.old self.new }
    {
        let kept = offer_to(&self.sending, &mut self.store, terminal, select, new);
        if let Err(fault) = &kept {
            self.fault = Some(*fault);
        }
        kept
    }

    /// Keeps all that the station has changed since what is kept, at once, and how many records
    /// were printed. Commits nothing if nothing has changed. The faults are those of the store,
    /// `Refused` for a number of 2^32 or more, and `OutOfMemory`.
    pub fn keep<P: LineStation, V: Prints>(
        &mut self,
        station: &P,
        printer: &V,
    ) -> Result<(), StoreFault>
        ensures { KeepsStep P.Party P.kept_at K.Store (V.printed printer.now) station.now result
            self.old self.new }
    {
        let kept = self.keep_step(station, printer);
        if let Err(fault) = kept {
            self.fault = Some(fault);
        }
        kept
    }

    /// Does the same, and does not record the fault.
    fn keep_step<P: LineStation, V: Prints>(
        &mut self,
        station: &P,
        printer: &V,
    ) -> Result<(), StoreFault>
        ensures commits { Commits K.Store (step_of P.Party P.kept_at K.Store (V.printed printer.now)
            station.now self.old) result self.old.store self.new.store }
        ensures sending { OnOk result (self.new.sending.items
            ≡ sending_now P.kept_at station.now self.old.sending.items) }
        ensures receiving { OnOk result (self.new.receiving.items
            ≡ receiving_now P.Party station.now (V.printed printer.now)
            self.old.receiving.items) }
    {
        let step = changes_since(self.alloc, station, printer, &self.sending, &self.receiving)?;
        commit(&mut self.store, &step)?;
        advance_sending(station, &mut self.sending);
        advance_receiving(station, printer, &mut self.receiving);
        Ok(())
    }
}

/// Keeps these changes at once; does nothing if there is none.
fn commit<K: Store>(store: &mut K, step: &[Change]) -> Result<(), StoreFault>
    ensures { Commits K.Store step.now result store.old store.new }
{
    if step.is_empty() {
        return Ok(());
    }
    store.commit(step)
}

/// Sets what is kept of a channel on which the station sends.
fn know(end: &mut Sending, kept: Option<KeptSender>)
    ensures { end.new ≡ known_now end.old kept }
{
    if let Some(kept) = kept {
        end.known = kept.known;
        end.in_doubt = in_doubt(&kept);
    }
}

/// Sets what is kept of each channel on which the station sends.
fn advance_sending<P: LineStation>(station: &P, ends: &mut Vec<Sending>)
    ensures { ends.new.items ≡ sending_now P.kept_at station.now ends.old.items }
{
    'ends: for end in ends.iter_mut() {
        know(end, station.kept_at(end.terminal, end.select));
    }
}

/// Returns the number of records that arrived on the channel with this number.
fn arrived_on<P: Party>(station: &P, number: usize) -> usize
    ensures { result ≡ length (records_of P.Party station.now (λ _. None) number) }
{
    if number < station.spools() {
        return station.received(number).records.len();
    }
    0
}

/// Sets what is kept of a channel on which the station receives.
fn receive<P: Party, V: Prints>(station: &P, printer: &V, end: &mut Receiving)
    ensures { end.new ≡ received_now end.old (V.printed printer.now end.old.number)
        (records_of P.Party station.now (V.printed printer.now) end.old.number) }
{
    end.arrived = end.arrived.max(arrived_on(station, end.number));
    if let Some(printed) = printer.printed(end.number) {
        end.printed = printed;
    }
}

/// Sets what is kept of each channel on which the station receives.
fn advance_receiving<P: Party, V: Prints>(station: &P, printer: &V, ends: &mut Vec<Receiving>)
    ensures { ends.new.items
        ≡ receiving_now P.Party station.now (V.printed printer.now) ends.old.items }
{
    'ends: for end in ends.iter_mut() {
        receive(station, printer, end);
    }
}
