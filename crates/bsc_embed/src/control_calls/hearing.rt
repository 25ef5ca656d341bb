//! What a control station hears, and a silence.

ghost use Rattle.bsc_embed.specs.ControlHearing.{Hears, PassesSilence};

use crate::interface::{Fault, put};
use bsc_bid::Station;
use bsc_control::Control;
use bsc_frame::Wire;
use bsc_frame::laws::one_reading;
use bsc_frame::limits::MAX_SENT;
use std::alloc::Global;

/// Hears octets, of any number. What the control station sends is put at the front of `sent`, and
/// the number of its octets, at most 1033, into `len`; 0 if it stays quiet. The fault is `NoRoom`
/// if `sent` has less than 1033 octets; then nothing is heard. If there is no memory for what
/// arrives, only the reply changes. (GA27-3004: polling, selection, and replies.)
pub fn hear(
    control: &mut Control<Global>,
    octets: &[u8],
    sent: &mut [u8],
    len: &mut usize,
) -> Result<(), Fault>
    ensures { Hears octets.now sent.old len.old sent.new len.new control.old control.new result }
{
    if sent.len() < MAX_SENT {
        return Err(Fault::NoRoom);
    }
    let mut wire = Wire::new();
    let _ = control.hear(octets, &mut wire);
    // What is sent for a message has at most MAX_SENT octets.
    one_reading();
    put(wire.as_slice(), sent, len)
}

/// Tells the control station that nothing was heard for the time of a time-out. What it sends is
/// put at the front of `sent`, and the number of its octets, at most 1033, into `len`; 0 if it
/// stays quiet. The fault is `NoRoom` if `sent` has less than 1033 octets; then the station is told
/// of nothing. (GA27-3004: time-outs.)
pub fn silence(control: &mut Control<Global>, sent: &mut [u8], len: &mut usize) -> Result<(), Fault>
    ensures { PassesSilence sent.old len.old sent.new len.new control.old control.new result }
{
    if sent.len() < MAX_SENT {
        return Err(Fault::NoRoom);
    }
    let mut wire = Wire::new();
    let _ = control.silence(&mut wire);
    // What is sent for a message has at most MAX_SENT octets.
    one_reading();
    put(wire.as_slice(), sent, len)
}
