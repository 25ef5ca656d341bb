//! What a terminal hears, and a silence.

ghost use Rattle.bsc_embed.specs.TerminalHearing.{Hears, PassesSilence};

use crate::interface::{Fault, put};
use crate::terminal_calls::MadeTerminal;
use bsc_bid::Station;
use bsc_frame::Wire;
use bsc_frame::laws::one_reading;
use bsc_frame::limits::MAX_SENT;

/// Hears octets, of any number. What the terminal sends is put at the front of `sent`, and the
/// number of its octets, at most 1033, into `len`; 0 if the terminal stays quiet. The fault is
/// `NoRoom` if `sent` has less than 1033 octets; then nothing is heard. If there is no memory for
/// what arrives, only the reply changes. (GA27-3004: polling, selection, and replies.)
pub fn hear(
    terminal: &mut MadeTerminal,
    octets: &[u8],
    sent: &mut [u8],
    len: &mut usize,
) -> Result<(), Fault>
    ensures { Hears octets.now sent.old len.old sent.new len.new terminal.old terminal.new result }
{
    if sent.len() < MAX_SENT {
        return Err(Fault::NoRoom);
    }
    let mut wire = Wire::new();
    let _ = terminal.station.hear(octets, &mut wire);
    // What is sent for a message has at most MAX_SENT octets.
    one_reading();
    put(wire.as_slice(), sent, len)
}

/// Tells the terminal that nothing was heard for the time of a time-out. What it sends is put at
/// the front of `sent`, and the number of its octets, at most 1033, into `len`; 0 if it stays
/// quiet. The fault is `NoRoom` if `sent` has less than 1033 octets; then the terminal is told of
/// nothing. (GA27-3004: time-outs. That a sending terminal acts on one is this project's own.)
pub fn silence(terminal: &mut MadeTerminal, sent: &mut [u8], len: &mut usize) -> Result<(), Fault>
    ensures { PassesSilence sent.old len.old sent.new len.new terminal.old terminal.new result }
{
    if sent.len() < MAX_SENT {
        return Err(Fault::NoRoom);
    }
    let mut wire = Wire::new();
    let _ = terminal.station.silence(&mut wire);
    // What is sent for a message has at most MAX_SENT octets.
    one_reading();
    put(wire.as_slice(), sent, len)
}
