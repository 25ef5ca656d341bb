//! Offering records in a store.
ghost use Rattle.std.specs.Prelude.{◌≡◌, IfOk, OnOk, map};
ghost use Rattle.bsc_spool.specs.declared.change.Change.TheVariants.{Offered};

use bsc_block::Record;
use bsc_spool::{Change, Channel, Store, StoreFault};
use std::alloc::Global;

/// Returns the change by which a record is offered on a channel.
fn offered(channel: &Channel, record: Record) -> Change
    ensures { result ≡ Offered channel.now «record» }
{
    Change::Offered {
        channel: *channel,
        record,
    }
}

/// Returns the changes by which these records are offered on a channel, in order.
fn offers(alloc: Global, channel: &Channel, records: Vec<Record>) -> Result<Vec<Change>, StoreFault>
    ensures { IfOk result (λ step. step.items ≡ map (Offered channel.now) records.items) }
{
    let mut step = Vec::new(alloc);
    'records: for record in records {
        if step.push(offered(channel, record)).is_err() {
            return Err(StoreFault::OutOfMemory);
        }
    }
    Ok(step)
}

/// Offers records on a channel, all or none: exactly these, in order, in one step.
pub(crate) fn offer<S: Store>(
    alloc: Global,
    store: &mut S,
    channel: &Channel,
    records: Vec<Record>,
) -> Result<(), StoreFault>
    ensures offered { OnOk result
        (S.keeps (map (Offered channel.now) records.items) store.old store.new) }
{
    let step = offers(alloc, channel, records)?;
    store.commit(&step)
}
