//! The pending transmission and trust are read.

ghost use Rattle.std.specs.Prelude.{◌≡◌};
ghost use Rattle.bsc_embed.specs.LineTransmissions.{PendingIs, TrustIs, speaker_number};

use crate::interface::{Fault, put};
use bsc_bid::Speaker;
use bsc_frame::laws::one_reading;
use bsc_frame::limits::MAX_SENT;
use bsc_frame::{Wire, encode};
use bsc_line::Line;
use std::alloc::Global;

/// The number that stands for the control station as the sender of a transmission. Terminals are
/// 0 to 63.
pub const CONTROL: usize = 255;

/// Puts the octets of the pending transmission at the front of the buffer, their number into `len`,
/// and the number of the terminal that sent it, or `CONTROL`, into `sender`. Faults, in this order:
/// `NothingSent` if nothing is pending, `NoRoom` if the buffer has fewer than 1,033 octets, however
/// few the transmission has.
pub fn pending(
    line: &Line<Global>,
    octets: &mut [u8],
    len: &mut usize,
    sender: &mut usize,
) -> Result<(), Fault>
    ensures { PendingIs octets.new len.new sender.new octets.old len.old sender.old
        line.now result }
{
    let Some(sent) = line.pending() else {
        return Err(Fault::NothingSent);
    };
    if octets.len() < MAX_SENT {
        return Err(Fault::NoRoom);
    }
    let mut wire = Wire::new();
    encode(&sent.message, &mut wire);
    // What is sent for a message has at most MAX_SENT octets.
    one_reading();
    put(wire.as_slice(), octets, len)?;
    *sender = number_of(sent.speaker);
    Ok(())
}

/// Gives 1 if every transmission so far was heard fairly, else 0. It has no fault.
pub fn trusted(line: &Line<Global>, trusted: &mut u32) -> Result<(), Fault>
    ensures { TrustIs trusted.new trusted.old line.now result }
{
    *trusted = u32::from(line.trusted());
    Ok(())
}

/// Returns the number of a sender.
fn number_of(speaker: Speaker) -> usize
    ensures { result ≡ speaker_number speaker }
{
    match speaker {
        Speaker::Control => CONTROL,
        Speaker::Terminal { number } => number,
    }
}
