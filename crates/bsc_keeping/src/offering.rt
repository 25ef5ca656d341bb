//! Keeping a record that is offered while the station runs.

ghost use Rattle.std.specs.Prelude.{◌≡◌};
ghost use Rattle.bsc_keeping.specs.Offers.{OffersIf, OffersOn, channel_to, is_end_to};

use bsc_block::Record;
use bsc_spool::{Change, Channel, Sending, Store, StoreFault};
use std::slice::from_ref;

/// Returns the channel to this selection address of this terminal, if it is one of these.
fn channel_to(ends: &[Sending], terminal: usize, select: usize) -> Option<Channel>
    ensures { result ≡ channel_to terminal select ends.now }
{
    let found = ends.iter().find(
        |end| -> bool
            ensures { result ≡ is_end_to terminal select «end».now.now }
        { end.terminal == terminal && end.select == select },
    );
    match found {
        Some(end) => Some(end.channel),
        None => None,
    }
}

/// Keeps a record as offered on a channel, and returns it.
fn offer_on<K: Store>(store: &mut K, channel: Channel, new: Record) -> Result<Record, StoreFault>
    ensures { OffersOn K.Store channel new result store.old store.new }
{
    let change = Change::Offered {
        channel,
        record: new,
    };
    store.commit(from_ref(&change))?;
    match change {
        Change::Offered { record, .. } => Ok(record),
        _ => unreachable!(),
    }
}

/// Keeps a record as offered on the channel to this selection address of this terminal, and returns
/// it. Fails with `Refused` if that is none of these channels.
pub(crate) fn offer_to<K: Store>(
    ends: &[Sending],
    store: &mut K,
    terminal: usize,
    select: usize,
    new: Record,
) -> Result<Record, StoreFault>
    ensures { OffersIf K.Store (channel_to terminal select ends.now) new result store.old
        store.new }
{
    match channel_to(ends, terminal, select) {
        Some(channel) => offer_on(store, channel, new),
        None => Err(StoreFault::Refused),
    }
}
