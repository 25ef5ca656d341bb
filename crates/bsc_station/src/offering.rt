//! Offers records at a station.

ghost use Rattle.std.specs.Prelude.{◌≡◌, ◌≤◌, ◌<◌, ◌++◌, length, OnErr, OnOk};
ghost use Rattle.bsc_block.specs.Blocks.{AreShort};
ghost use Rattle.bsc_control.specs.Control.{peer_at};
ghost use Rattle.bsc_control.specs.Kept.{outbound_of};
ghost use Rattle.bsc_station.specs.Offers.{IsOffered, KeepsAllElse, KeepsOtherQueues};

use crate::{LineTerminal, OfferError};
use bsc_block::Record;
use bsc_control::Control;
use std::alloc::Allocator;

/// Offers records at a terminal, for the control station, in order. None may be longer than the
/// full length. Returns `Memory` if memory for a record runs out; the records before it are
/// offered. Nothing but the queue changes.
pub fn offer_at_terminal<A: Allocator, B: Allocator>(
    terminal: &mut LineTerminal<A>,
    records: Vec<Record, B>,
) -> Result<(), OfferError>
    requires { AreShort terminal.old.tributary.queue.format.full records.items }
    ensures offered { OnOk result (terminal.new.tributary.queue.offered
        ≡ terminal.old.tributary.queue.offered ++ records.items) }
    ensures format { terminal.new.tributary.queue.format ≡ terminal.old.tributary.queue.format }
    ensures known { terminal.new.tributary.queue.known ≡ terminal.old.tributary.queue.known }
    ensures others { KeepsAllElse terminal.old terminal.new }
{
    for record in records {
        if terminal.offer(record).is_err() {
            return Err(OfferError::Memory);
        }
    }
    Ok(())
}

/// Offers records at the control station, for a selection address of a terminal, in order. The
/// address must exist, and no record may be longer than the full length. Returns `Memory` if memory
/// for a record runs out; the records before it are offered. Nothing but this queue changes.
pub fn offer_for_terminal<A: Allocator, B: Allocator>(
    control: &mut Control<A>,
    terminal: usize,
    select: usize,
    records: Vec<Record, B>,
) -> Result<(), OfferError>
    requires terminal { terminal < length control.old.peers }
    requires select { select < length (peer_at control.old terminal).outbounds }
    requires short { AreShort control.old.setup.format.full records.items }
    ensures offered { OnOk result ((outbound_of control.new terminal select).queue.offered
        ≡ (outbound_of control.old terminal select).queue.offered ++ records.items) }
    ensures known { (outbound_of control.new terminal select).queue.known
        ≡ (outbound_of control.old terminal select).queue.known }
    ensures others { KeepsOtherQueues control.old terminal select control.new }
{
    for record in records {
        offer_one(control, terminal, select, record)?;
    }
    Ok(())
}

/// Offers one record at the control station.
fn offer_one<A: Allocator>(
    control: &mut Control<A>,
    terminal: usize,
    select: usize,
    record: Record,
) -> Result<(), OfferError>
    requires terminal { terminal < length control.old.peers }
    requires select { select < length (peer_at control.old terminal).outbounds }
    requires short { length «record» ≤ control.old.setup.format.full }
    ensures ok { OnOk result (IsOffered control.old terminal select «record» control.new) }
    ensures err { OnErr result (control.new ≡ control.old) }
{
    match control.offer(terminal, select, record) {
        Ok(()) => Ok(()),
        Err(_) => Err(OfferError::Memory),
    }
}
