//! A station that is made again from what is kept.

ghost use Rattle.std.specs.Prelude.{◌≡◌, [], map, replicate, Some};
ghost use Rattle.std.specs.Prelude.{IfOk, OnOk, if◌then◌else◌};
ghost use Rattle.bsc_spool.specs.Contents.{Contents, GivesBack, IsRead};
ghost use Rattle.bsc_spool.specs.declared.channel.Channel.{Channel as ChannelValue};
ghost use Rattle.bsc_spool.specs.declared.store.Found.{Found as FoundValue};
ghost use Rattle.bsc_keeping.specs.Filling.{apart_from_kept};
ghost use Rattle.bsc_keeping.specs.Filled.{AddsChannel, AddsEach, AddsForgotten, IsFilledFrom};
ghost use Rattle.bsc_keeping.specs.Filled.{IsControlFilledFrom, IsTerminalFilledFrom, KeepsFrom};
ghost use Rattle.bsc_keeping.specs.Filled.{doubt_of, offered_all, offered_each, recalled_each};
ghost use Rattle.bsc_keeping.specs.Filled.{recalled_of, receiving_from, sending_from, sent_again};
ghost use Rattle.bsc_control.specs.Stored.{apart_from_records};

use crate::fills::Fills;
use crate::{Keeper, Own};
use bsc_bid::KeptSender;
use bsc_block::Record;
use bsc_block::limits::MAX_FULL;
use bsc_control::Control;
use bsc_spool::{Progress, Receiving, Sending, Store, StoreFault};
use bsc_station::LineTerminal;
use std::alloc::{Allocator, Global};

/// Returns what a sender recalls.
fn kept_in(progress: &Progress) -> KeptSender
    ensures { result
        ≡ record { known = progress.now.known; doubt = doubt_of progress.now.in_doubt } }
{
    KeptSender {
        known: progress.known as usize,
        doubt: match progress.in_doubt {
            0 => None,
            count => Some(count as usize),
        },
    }
}

/// Returns the empty record, which stands for one whose characters the station does not need.
fn empty() -> Record
    ensures { result ≡ [] }
{
    Record::read(&[], MAX_FULL).unwrap()
}

/// Offers this many empty records on a channel.
fn offer_empty<P: Fills>(
    station: &mut P,
    full: u8,
    end: &Sending,
    count: u32,
) -> Result<(), StoreFault>
    requires { P.takes station.old ≡ full }
    ensures fills { P.fills station.old station.new }
    ensures takes { P.takes station.new ≡ full }
    ensures offered { OnOk result (station.new
        ≡ offered_all P.offered end.now.terminal end.now.select (replicate count []) station.old) }
{
    'records: for _ in 0..count {
        station.offer_again(end.terminal, end.select, empty())?;
    }
    Ok(())
}

/// Offers the record of a channel again that follows `more` others after this mark, and returns its
/// own mark.
fn offer_next<P: Fills, K: Store>(
    station: &mut P,
    full: u8,
    store: &mut K,
    end: &Sending,
    mark: i64,
    more: u32,
) -> Result<i64, StoreFault>
    requires { P.takes station.old ≡ full }
    ensures fills { P.fills station.old station.new }
    ensures takes { P.takes station.new ≡ full }
    ensures reads { K.reads store.old store.new }
    ensures offered { IfOk result (λ next. (found : FoundValue) × (found.mark ≡ next)
        × K.finds_offered end.now.channel mark more (Some found) store.old store.new
        × (station.new ≡ P.offered station.old end.now.terminal end.now.select found.«record»)) }
{
    let Some(found) = store.offered(&end.channel, mark, more)? else {
        return Err(StoreFault::Damaged);
    };
    if found.record.chars().len() > usize::from(full) {
        return Err(StoreFault::Damaged);
    }
    station.offer_again(end.terminal, end.select, found.record)?;
    Ok(found.mark)
}

/// Offers the records of a channel again. Those that are known to have arrived are not sent again,
/// so an empty record stands for each.
fn offer_all<P: Fills, K: Store>(
    station: &mut P,
    full: u8,
    store: &mut K,
    end: &Sending,
) -> Result<(), StoreFault>
    requires { P.takes station.old ≡ full }
    ensures fills { P.fills station.old station.new }
    ensures takes { P.takes station.new ≡ full }
    ensures reads { IsRead K.Store store.old store.new }
    ensures offered { (has : K → ChannelValue → Contents) → GivesBack K.Store has
        → K.sound store.new → OnOk result (station.new
        ≡ offered_all P.offered end.now.terminal end.now.select
        (sent_again (has store.old end.now.channel)) station.old) }
{
    let progress = store.progress(&end.channel)?;
    if progress.known > progress.offered {
        return Err(StoreFault::Damaged);
    }
    offer_empty(station, full, end, progress.known)?;
    let (mut mark, mut more) = (0, progress.known);
    'records: for _ in progress.known..progress.offered {
        mark = offer_next(station, full, store, end, mark, more)?;
        more = 0;
    }
    Ok(())
}

/// Adds this many empty records to those that arrived on the channel with this number, and forgets
/// them.
fn add_forgotten<P: Fills>(station: &mut P, number: usize, count: u32) -> Result<(), StoreFault>
    ensures fills { P.fills station.old station.new }
    ensures adds { OnOk result
        (AddsForgotten P.gains P.forgets number count station.old station.new) }
{
    'records: for place in 0..count {
        station.add_arrived(number, empty())?;
        station.forget_added(number, place as usize + 1);
    }
    Ok(())
}

/// Adds the record that arrived on a channel and follows `more` others after this mark, and returns
/// its own mark.
fn add_next<P: Fills, K: Store>(
    station: &mut P,
    store: &mut K,
    end: &Receiving,
    mark: i64,
    more: u32,
) -> Result<i64, StoreFault>
    ensures fills { P.fills station.old station.new }
    ensures reads { K.reads store.old store.new }
    ensures gains { IfOk result (λ next. (found : FoundValue) × (found.mark ≡ next)
        × K.finds_arrived end.now.channel mark more (Some found) store.old store.new
        × P.gains station.old end.now.number found.«record» station.new) }
{
    let Some(found) = store.arrived(&end.channel, mark, more)? else {
        return Err(StoreFault::Damaged);
    };
    station.add_arrived(end.number, found.record)?;
    Ok(found.mark)
}

/// Returns how many of the first records that arrived on a channel are forgotten already.
fn forgotten(progress: &Progress, forgets_printed: bool) -> u32
    ensures { result ≡ (if forgets_printed then progress.now.printed else 0) }
{
    if forgets_printed { progress.printed } else { 0 }
}

/// Adds the records that arrived on a channel. If the station forgets those that it has printed,
/// the ones that were are forgotten already.
fn add_all<P: Fills, K: Store>(
    station: &mut P,
    store: &mut K,
    end: &mut Receiving,
    forgets_printed: bool,
) -> Result<(), StoreFault>
    ensures fills { P.fills station.old station.new }
    ensures reads { IsRead K.Store store.old store.new }
    ensures adds { (has : K → ChannelValue → Contents) → GivesBack K.Store has
        → K.sound store.new → OnOk result (AddsChannel P.gains P.forgets forgets_printed
        (has store.old end.old.channel) end.old.number station.old station.new) }
    ensures end { (has : K → ChannelValue → Contents) → GivesBack K.Store has
        → K.sound store.new → OnOk result (end.new ≡ receiving_from (has store.old) end.old) }
{
    let progress = store.progress(&end.channel)?;
    if progress.printed > progress.arrived {
        return Err(StoreFault::Damaged);
    }
    let forgotten = forgotten(&progress, forgets_printed);
    add_forgotten(station, end.number, forgotten)?;
    let (mut mark, mut more) = (0, forgotten);
    'records: for _ in forgotten..progress.arrived {
        mark = add_next(station, store, end, mark, more)?;
        more = 0;
    }
    end.arrived = progress.arrived as usize;
    end.printed = progress.printed as usize;
    Ok(())
}

/// Recalls what is kept of a channel.
fn recall_one<P: Fills, K: Store>(
    station: &mut P,
    store: &mut K,
    end: &mut Sending,
) -> Result<(), StoreFault>
    ensures fills { P.fills station.old station.new }
    ensures reads { K.reads store.old store.new }
    ensures recalled { (has : K → ChannelValue → Contents) → GivesBack K.Store has
        → K.sound store.new → OnOk result (station.new
        ≡ P.recalled station.old end.old.terminal end.old.select
        (recalled_of (has store.old end.old.channel))) }
    ensures end { (has : K → ChannelValue → Contents) → GivesBack K.Store has
        → K.sound store.new → OnOk result (end.new ≡ sending_from (has store.old) end.old) }
{
    let progress = store.progress(&end.channel)?;
    station.recall_kept(end.terminal, end.select, kept_in(&progress))?;
    end.known = progress.known as usize;
    end.in_doubt = progress.in_doubt as usize;
    Ok(())
}

/// Offers the records of all channels again.
fn offer_for_all<P: Fills, K: Store>(
    station: &mut P,
    full: u8,
    store: &mut K,
    ends: &[Sending],
) -> Result<(), StoreFault>
    requires { P.takes station.old ≡ full }
    ensures fills { P.fills station.old station.new }
    ensures reads { IsRead K.Store store.old store.new }
    ensures offered { (has : K → ChannelValue → Contents) → GivesBack K.Store has
        → K.sound store.new → OnOk result (station.new
        ≡ offered_each P.offered (has store.old) ends.now station.old) }
{
    'ends: for end in ends {
        offer_all(station, full, store, end)?;
    }
    Ok(())
}

/// Adds the records that arrived on all channels.
fn add_for_all<P: Fills, K: Store>(
    station: &mut P,
    store: &mut K,
    ends: &mut Vec<Receiving>,
    forgets_printed: bool,
) -> Result<(), StoreFault>
    ensures fills { P.fills station.old station.new }
    ensures reads { IsRead K.Store store.old store.new }
    ensures adds { (has : K → ChannelValue → Contents) → GivesBack K.Store has
        → K.sound store.new → OnOk result (AddsEach P.gains P.forgets forgets_printed
        (has store.old) ends.old.items station.old station.new) }
    ensures ends { (has : K → ChannelValue → Contents) → GivesBack K.Store has
        → K.sound store.new → OnOk result (ends.new.items
        ≡ map (receiving_from (has store.old)) ends.old.items) }
{
    'ends: for end in ends.iter_mut() {
        add_all(station, store, end, forgets_printed)?;
    }
    Ok(())
}

/// Recalls what is kept of all channels.
fn recall_all<P: Fills, K: Store>(
    station: &mut P,
    store: &mut K,
    ends: &mut Vec<Sending>,
) -> Result<(), StoreFault>
    ensures fills { P.fills station.old station.new }
    ensures reads { IsRead K.Store store.old store.new }
    ensures recalled { (has : K → ChannelValue → Contents) → GivesBack K.Store has
        → K.sound store.new → OnOk result (station.new
        ≡ recalled_each P.recalled (has store.old) ends.old.items station.old) }
    ensures ends { (has : K → ChannelValue → Contents) → GivesBack K.Store has
        → K.sound store.new → OnOk result (ends.new.items
        ≡ map (sending_from (has store.old)) ends.old.items) }
{
    'ends: for end in ends.iter_mut() {
        recall_one(station, store, end)?;
    }
    Ok(())
}

/// Fills a new station with what is kept of these channels, and returns what keeps its records from
/// then on.
fn fill<P: Fills, K: Store + Drop>(
    alloc: Global,
    station: &mut P,
    full: u8,
    mut store: K,
    mut sending: Vec<Sending>,
    mut receiving: Vec<Receiving>,
    forgets_printed: bool,
) -> Result<Keeper<K>, StoreFault>
    requires { P.takes station.old ≡ full }
    ensures fills { P.fills station.old station.new }
    ensures reads { IfOk result (λ keeper. IsRead K.Store store keeper.store) }
    ensures filled { (has : K → ChannelValue → Contents) → GivesBack K.Store has
        → IfOk result (λ keeper. K.sound keeper.store
        → IsFilledFrom P.offered P.gains P.forgets P.recalled P.forgets_known (has store)
        forgets_printed sending.items receiving.items station.old station.new) }
    ensures keeps { (has : K → ChannelValue → Contents) → GivesBack K.Store has
        → IfOk result (λ keeper. K.sound keeper.store
        → KeepsFrom (has store) sending.items receiving.items keeper) }
{
    offer_for_all(station, full, &mut store, &sending)?;
    add_for_all(station, &mut store, &mut receiving, forgets_printed)?;
    recall_all(station, &mut store, &mut sending)?;
    station.forget_recalled();
    Ok(Keeper::new(alloc, store, sending, receiving))
}

/// Fills a new control station with what its store has, and returns what keeps its records from
/// then on. Nothing of the station changes but its records and what is known of them. Of a record
/// that is known to have arrived only the place is filled, and so it is of one that was printed, if
/// the station forgets those. Fails with `Damaged` if what is kept does not fit the station, with
/// `OutOfMemory`, or with a fault of the store; the station is then to be dropped.
pub fn begin_control<A: Allocator, K: Store + Drop>(
    alloc: Global,
    control: &mut Control<A>,
    own: Own,
    store: K,
    forgets_printed: bool,
) -> Result<Keeper<K>, StoreFault>
    ensures others { apart_from_records control.new ≡ apart_from_records control.old }
    ensures reads { IfOk result (λ keeper. IsRead K.Store store keeper.store) }
    ensures filled { (has : K → ChannelValue → Contents) → GivesBack K.Store has
        → IfOk result (λ keeper. K.sound keeper.store
        → IsControlFilledFrom (has store) forgets_printed own.sending.items own.receiving.items
        control.old control.new) }
    ensures keeps { (has : K → ChannelValue → Contents) → GivesBack K.Store has
        → IfOk result (λ keeper. K.sound keeper.store
        → KeepsFrom (has store) own.sending.items own.receiving.items keeper) }
{
    let full = control.setup().format().full();
    let Own {
        sending,
        receiving,
        ..
    } = own;
    fill(
        alloc,
        control,
        full,
        store,
        sending,
        receiving,
        forgets_printed,
    )
}

/// Fills a new terminal with what its store has, as [`begin_control`] does. The full length has to
/// be that of the terminal.
pub fn begin_terminal<A: Allocator, K: Store + Drop>(
    alloc: Global,
    terminal: &mut LineTerminal<A>,
    own: Own,
    store: K,
    forgets_printed: bool,
) -> Result<Keeper<K>, StoreFault>
    requires { terminal.old.tributary.queue.format.full ≡ own.full }
    ensures others { apart_from_kept terminal.new ≡ apart_from_kept terminal.old }
    ensures reads { IfOk result (λ keeper. IsRead K.Store store keeper.store) }
    ensures filled { (has : K → ChannelValue → Contents) → GivesBack K.Store has
        → IfOk result (λ keeper. K.sound keeper.store
        → IsTerminalFilledFrom (has store) forgets_printed own.sending.items own.receiving.items
        terminal.old terminal.new) }
    ensures keeps { (has : K → ChannelValue → Contents) → GivesBack K.Store has
        → IfOk result (λ keeper. K.sound keeper.store
        → KeepsFrom (has store) own.sending.items own.receiving.items keeper) }
{
    let Own {
        full,
        sending,
        receiving,
        ..
    } = own;
    fill(
        alloc,
        terminal,
        full,
        store,
        sending,
        receiving,
        forgets_printed,
    )
}
