//! The calls of a terminal.

ghost use Rattle.std.specs.Prelude.{◌≡◌};
ghost use Rattle.bsc_embed.specs.Handles.{made_in};
ghost use Rattle.bsc_embed.specs.declared.handles.made.Made.TheVariants.{Terminal};
ghost use Rattle.bsc_embed.specs.TerminalArrivals.{GetsArrivals, GetsArrived};
ghost use Rattle.bsc_embed.specs.TerminalFlags.{Restarts, SetsReady, SetsUrgent};
ghost use Rattle.bsc_embed.specs.TerminalHearing.{Hears, PassesSilence};
ghost use Rattle.bsc_embed.specs.TerminalKeeping.{GetsKept, KeepsArrived, Recalls};
ghost use Rattle.bsc_embed.specs.TerminalMaking.{IsMade};
ghost use Rattle.bsc_embed.specs.TerminalOffering.{GetsSending, Offers, Releases};
ghost use Rattle.bsc_embed.specs.Calls.{AtTerminal, Reading};
ghost use Rattle.bsc_embed.specs.Making.{FreesTerminal, IsMadeBy};

use crate::handles::{Handle, Made};
use crate::interface::{Fault, Sending, Settings, StoredAddresses, StoredKept, number_of};
use crate::keeping::keep;
use crate::terminal_calls as calls;
use std::alloc::Global;

/// Does a call of the terminal that a handle has, and gives the number of its answer.
macro_rules! at_terminal {
    ($alloc:ident, $handle:ident, $terminal:ident => $call:expr) => {{
        let Some(mut made) = $handle.take($alloc) else {
            return Fault::NotMade.number();
        };
        let answer = match &mut *made {
            Made::Terminal($terminal) => $call,
            Made::Control(_) | Made::Line(_) => Err(Fault::OtherKind),
        };
        $handle.hold(made);
        number_of(&answer)
    }};
}

/// Returns a terminal with these settings and addresses: in control mode, ready, not urgent, with
/// nothing to send and nothing received.
#[unsafe(no_mangle)]
pub extern "C" fn bsc_terminal_new(
    alloc: Global,
    handle: &mut Handle,
    settings: &Settings,
    addresses: &StoredAddresses,
) -> u32
    ensures { IsMadeBy Terminal (IsMade settings.now addresses.now) (made_in handle.old)
        (made_in handle.new) result }
{
    if handle.is_made() {
        return Fault::AlreadyMade.number();
    }
    match calls::new_terminal(alloc, settings, addresses) {
        Ok(terminal) => keep(alloc, handle, Made::Terminal(terminal)),
        Err(fault) => fault.number(),
    }
}

/// Hears octets, of any number.
#[unsafe(no_mangle)]
pub extern "C" fn bsc_terminal_hear(
    alloc: Global,
    handle: &mut Handle,
    octets: &[u8],
    sent: &mut [u8],
    len: &mut usize,
) -> u32
    ensures { AtTerminal (Hears octets.now sent.old len.old sent.new len.new)
        ((sent.new ≡ sent.old) × (len.new ≡ len.old)) (made_in handle.old) (made_in handle.new)
        result }
{
    at_terminal!(alloc, handle, terminal => calls::hear(terminal, octets, sent, len))
}

/// Tells the terminal that nothing was heard for the time of a time-out.
#[unsafe(no_mangle)]
pub extern "C" fn bsc_terminal_silence(
    alloc: Global,
    handle: &mut Handle,
    sent: &mut [u8],
    len: &mut usize,
) -> u32
    ensures { AtTerminal (PassesSilence sent.old len.old sent.new len.new)
        ((sent.new ≡ sent.old) × (len.new ≡ len.old)) (made_in handle.old) (made_in handle.new)
        result }
{
    at_terminal!(alloc, handle, terminal => calls::silence(terminal, sent, len))
}

/// Adds the record of these codes to those that the terminal has to send.
#[unsafe(no_mangle)]
pub extern "C" fn bsc_terminal_offer(alloc: Global, handle: &mut Handle, chars: &[u8]) -> u32
    ensures { AtTerminal (Offers chars.now) (Unit {0}) (made_in handle.old) (made_in handle.new)
        result }
{
    at_terminal!(alloc, handle, terminal => calls::offer(terminal, chars))
}

/// Puts into `sending` how many records were offered to the terminal, how many of them are known
/// to have arrived, and whether its last block is in doubt.
#[unsafe(no_mangle)]
pub extern "C" fn bsc_terminal_sending(
    alloc: Global,
    handle: &mut Handle,
    sending: &mut Sending,
) -> u32
    ensures { AtTerminal (Reading (GetsSending sending.new)) (sending.new ≡ sending.old)
        (made_in handle.old) (made_in handle.new) result }
{
    at_terminal!(alloc, handle, terminal => calls::sending(terminal, sending))
}

/// Puts into `count` how many records arrived for the selection address of this number, counted
/// from 0.
#[unsafe(no_mangle)]
pub extern "C" fn bsc_terminal_arrivals(
    alloc: Global,
    handle: &mut Handle,
    select: usize,
    count: &mut usize,
) -> u32
    ensures { AtTerminal (Reading (GetsArrivals select count.old count.new)) (count.new ≡ count.old)
        (made_in handle.old) (made_in handle.new) result }
{
    at_terminal!(alloc, handle, terminal => calls::arrivals(terminal, select, count))
}

/// Puts a record that arrived for the selection address of this number at the front of `chars`,
/// and the number of its characters, 0 to 144, into `len`.
#[unsafe(no_mangle)]
pub extern "C" fn bsc_terminal_arrived(
    alloc: Global,
    handle: &mut Handle,
    select: usize,
    index: usize,
    chars: &mut [u8],
    len: &mut usize,
) -> u32
    ensures { AtTerminal (Reading (GetsArrived select index chars.old len.old chars.new len.new))
        ((chars.new ≡ chars.old) × (len.new ≡ len.old)) (made_in handle.old) (made_in handle.new)
        result }
{
    at_terminal!(alloc, handle, terminal => calls::arrived(terminal, select, index, chars, len))
}

/// Ends the doubt: the other end has `count` records of this terminal.
#[unsafe(no_mangle)]
pub extern "C" fn bsc_terminal_release(alloc: Global, handle: &mut Handle, count: usize) -> u32
    ensures { AtTerminal (Releases count) (Unit {0}) (made_in handle.old) (made_in handle.new)
        result }
{
    at_terminal!(alloc, handle, terminal => calls::release(terminal, count))
}

/// Sets whether the terminal accepts selections: 0 if it does not, any other number if it does.
#[unsafe(no_mangle)]
pub extern "C" fn bsc_terminal_ready(alloc: Global, handle: &mut Handle, ready: u32) -> u32
    ensures { AtTerminal (SetsReady ready) (Unit {0}) (made_in handle.old) (made_in handle.new)
        result }
{
    at_terminal!(alloc, handle, terminal => calls::set_ready(terminal, ready))
}

/// Asks for the line: the next text that the terminal takes is answered by a reverse interrupt,
/// unless its last reply was one.
#[unsafe(no_mangle)]
pub extern "C" fn bsc_terminal_urgent(alloc: Global, handle: &mut Handle) -> u32
    ensures { AtTerminal SetsUrgent (Unit {0}) (made_in handle.old) (made_in handle.new) result }
{
    at_terminal!(alloc, handle, terminal => calls::set_urgent(terminal))
}

/// Begins again, as after the end of the process: the terminal is in control mode, ready and not
/// urgent, and an unanswered block is in doubt.
#[unsafe(no_mangle)]
pub extern "C" fn bsc_terminal_restart(alloc: Global, handle: &mut Handle) -> u32
    ensures { AtTerminal Restarts (Unit {0}) (made_in handle.old) (made_in handle.new) result }
{
    at_terminal!(alloc, handle, terminal => calls::restart(terminal))
}

/// Puts into `kept` what is to be kept of the terminal now, beside the records of its queue and
/// those that arrived.
#[unsafe(no_mangle)]
pub extern "C" fn bsc_terminal_kept(
    alloc: Global,
    handle: &mut Handle,
    kept: &mut StoredKept,
) -> u32
    ensures { AtTerminal (Reading (GetsKept kept.new)) (kept.new ≡ kept.old) (made_in handle.old)
        (made_in handle.new) result }
{
    at_terminal!(alloc, handle, terminal => calls::kept(terminal, kept))
}

/// Adds the record of these codes, which had arrived for the selection address of this number,
/// counted from 0, before the process of the terminal ended.
#[unsafe(no_mangle)]
pub extern "C" fn bsc_terminal_keep_arrived(
    alloc: Global,
    handle: &mut Handle,
    select: usize,
    chars: &[u8],
) -> u32
    ensures { AtTerminal (KeepsArrived select chars.now) (Unit {0}) (made_in handle.old)
        (made_in handle.new) result }
{
    at_terminal!(alloc, handle, terminal => calls::keep_arrived(terminal, select, chars))
}

/// Recalls what was kept, once the records that had been offered are offered again: how many of
/// them are known to have arrived, and the doubt.
#[unsafe(no_mangle)]
pub extern "C" fn bsc_terminal_recall(alloc: Global, handle: &mut Handle, kept: &StoredKept) -> u32
    ensures { AtTerminal (Recalls kept.now) (Unit {0}) (made_in handle.old) (made_in handle.new)
        result }
{
    at_terminal!(alloc, handle, terminal => calls::recall(terminal, kept))
}

/// Frees what was made, and leaves a handle that has nothing. (This project's own.)
#[unsafe(no_mangle)]
pub extern "C" fn bsc_terminal_free(alloc: Global, handle: &mut Handle) -> u32
    ensures { FreesTerminal (made_in handle.old) (made_in handle.new) result }
{
    let Some(made) = handle.take(alloc) else {
        return Fault::NotMade.number();
    };
    if !matches!(&*made, Made::Terminal(_)) {
        handle.hold(made);
        return Fault::OtherKind.number();
    }
    0
}
