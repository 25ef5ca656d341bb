//! The calls of a control station.

ghost use Rattle.std.specs.Prelude.{◌≡◌, nat_eq, not};
ghost use Rattle.bsc_embed.specs.Handles.{made_in};
ghost use Rattle.bsc_embed.specs.declared.handles.made.Made.TheVariants.{Control};
ghost use Rattle.bsc_embed.specs.ControlArrivals.{GetsArrivals, GetsArrived};
ghost use Rattle.bsc_embed.specs.ControlHearing.{Hears, PassesSilence};
ghost use Rattle.bsc_embed.specs.ControlKeeping.{GetsKept, KeepsArrived, Recalls};
ghost use Rattle.bsc_embed.specs.ControlMaking.{IsMade};
ghost use Rattle.bsc_embed.specs.ControlOffering.{GetsSending, Offers, Releases};
ghost use Rattle.bsc_embed.specs.ControlRunning.{Restarts, SetsPolled, SetsUrgent};
ghost use Rattle.bsc_embed.specs.Calls.{AtControl, Reading};
ghost use Rattle.bsc_embed.specs.Making.{FreesControl, IsMadeBy};

use crate::control_calls as calls;
use crate::handles::{Handle, Made};
use crate::interface::{Fault, Sending, Settings, StoredAddresses, StoredKept, number_of};
use crate::keeping::keep;
use std::alloc::Global;

/// Does a call of the control station that a handle has, and gives the number of its answer.
macro_rules! at_control {
    ($alloc:ident, $handle:ident, $control:ident => $call:expr) => {{
        let Some(mut made) = $handle.take($alloc) else {
            return Fault::NotMade.number();
        };
        let answer = match &mut *made {
            Made::Control($control) => $call,
            Made::Terminal(_) | Made::Line(_) => Err(Fault::OtherKind),
        };
        $handle.hold(made);
        number_of(&answer)
    }};
}

/// Returns a control station at rest with these settings, terminals (1 to 64) and poll list (1 to
/// 255 entries, each the number of a terminal); its first silence makes the first call.
#[unsafe(no_mangle)]
pub extern "C" fn bsc_control_new(
    alloc: Global,
    handle: &mut Handle,
    settings: &Settings,
    terminals: &[StoredAddresses],
    poll_list: &[u8],
) -> u32
    ensures { IsMadeBy Control (IsMade settings.now terminals.now poll_list.now)
        (made_in handle.old) (made_in handle.new) result }
{
    if handle.is_made() {
        return Fault::AlreadyMade.number();
    }
    match calls::new_control(alloc, settings, terminals, poll_list) {
        Ok(control) => keep(alloc, handle, Made::Control(control)),
        Err(fault) => fault.number(),
    }
}

/// Hears octets, of any number.
#[unsafe(no_mangle)]
pub extern "C" fn bsc_control_hear(
    alloc: Global,
    handle: &mut Handle,
    octets: &[u8],
    sent: &mut [u8],
    len: &mut usize,
) -> u32
    ensures { AtControl (Hears octets.now sent.old len.old sent.new len.new)
        ((sent.new ≡ sent.old) × (len.new ≡ len.old)) (made_in handle.old) (made_in handle.new)
        result }
{
    at_control!(alloc, handle, control => calls::hear(control, octets, sent, len))
}

/// Tells the control station that nothing was heard for the time of a time-out.
#[unsafe(no_mangle)]
pub extern "C" fn bsc_control_silence(
    alloc: Global,
    handle: &mut Handle,
    sent: &mut [u8],
    len: &mut usize,
) -> u32
    ensures { AtControl (PassesSilence sent.old len.old sent.new len.new)
        ((sent.new ≡ sent.old) × (len.new ≡ len.old)) (made_in handle.old) (made_in handle.new)
        result }
{
    at_control!(alloc, handle, control => calls::silence(control, sent, len))
}

/// Adds the record of these codes to those for a selection address of a terminal.
#[unsafe(no_mangle)]
pub extern "C" fn bsc_control_offer(
    alloc: Global,
    handle: &mut Handle,
    terminal: usize,
    select: usize,
    chars: &[u8],
) -> u32
    ensures { AtControl (Offers terminal select chars.now) (Unit {0}) (made_in handle.old)
        (made_in handle.new) result }
{
    at_control!(alloc, handle, control => calls::offer(control, terminal, select, chars))
}

/// Puts into `sending` how many records were offered for a selection address of a terminal, how
/// many of them are known to have arrived, and whether the last block for it is in doubt.
#[unsafe(no_mangle)]
pub extern "C" fn bsc_control_sending(
    alloc: Global,
    handle: &mut Handle,
    terminal: usize,
    select: usize,
    sending: &mut Sending,
) -> u32
    ensures { AtControl (Reading (GetsSending terminal select sending.old sending.new))
        (sending.new ≡ sending.old) (made_in handle.old) (made_in handle.new) result }
{
    at_control!(alloc, handle, control => calls::sending(control, terminal, select, sending))
}

/// Puts into `count` how many records arrived from the terminal of this number.
#[unsafe(no_mangle)]
pub extern "C" fn bsc_control_arrivals(
    alloc: Global,
    handle: &mut Handle,
    terminal: usize,
    count: &mut usize,
) -> u32
    ensures { AtControl (Reading (GetsArrivals terminal count.old count.new))
        (count.new ≡ count.old) (made_in handle.old) (made_in handle.new) result }
{
    at_control!(alloc, handle, control => calls::arrivals(control, terminal, count))
}

/// Puts a record that arrived from the terminal of this number at the front of `chars`, and the
/// number of its characters, 0 to 144, into `len`.
#[unsafe(no_mangle)]
pub extern "C" fn bsc_control_arrived(
    alloc: Global,
    handle: &mut Handle,
    terminal: usize,
    index: usize,
    chars: &mut [u8],
    len: &mut usize,
) -> u32
    ensures { AtControl (Reading (GetsArrived terminal index chars.old len.old chars.new len.new))
        ((chars.new ≡ chars.old) × (len.new ≡ len.old)) (made_in handle.old) (made_in handle.new)
        result }
{
    at_control!(alloc, handle, control => calls::arrived(control, terminal, index, chars, len))
}

/// Ends the doubt about a selection address of a terminal: the terminal has `count` records that
/// came by it.
#[unsafe(no_mangle)]
pub extern "C" fn bsc_control_release(
    alloc: Global,
    handle: &mut Handle,
    terminal: usize,
    select: usize,
    count: usize,
) -> u32
    ensures { AtControl (Releases terminal select count) (Unit {0}) (made_in handle.old)
        (made_in handle.new) result }
{
    at_control!(alloc, handle, control => calls::release(control, terminal, select, count))
}

/// Asks a terminal for the line: the next text taken from it is answered by a reverse interrupt,
/// unless the last reply was one too.
#[unsafe(no_mangle)]
pub extern "C" fn bsc_control_urgent(alloc: Global, handle: &mut Handle, terminal: usize) -> u32
    ensures { AtControl (SetsUrgent terminal) (Unit {0}) (made_in handle.old) (made_in handle.new)
        result }
{
    at_control!(alloc, handle, control => calls::set_urgent(control, terminal))
}

/// Sets whether a terminal is polled; if it is not, its entries of the poll list are passed over.
#[unsafe(no_mangle)]
pub extern "C" fn bsc_control_set_polled(
    alloc: Global,
    handle: &mut Handle,
    terminal: usize,
    polled: u32,
) -> u32
    ensures { AtControl (SetsPolled terminal (not (nat_eq polled 0))) (Unit {0})
        (made_in handle.old) (made_in handle.new) result }
{
    at_control!(alloc, handle, control => calls::set_polled(control, terminal, polled != 0))
}

/// Begins again, as after the end of the process: the station is at rest at the first entry of the
/// poll list, with its counters at 0, each terminal polled and no urgent flag up, and its next
/// silence makes the first call.
#[unsafe(no_mangle)]
pub extern "C" fn bsc_control_restart(alloc: Global, handle: &mut Handle) -> u32
    ensures { AtControl Restarts (Unit {0}) (made_in handle.old) (made_in handle.new) result }
{
    at_control!(alloc, handle, control => calls::restart(control))
}

/// Puts into `kept` what is to be kept now of the sending side of a selection address, beside the
/// records of its queue and those that arrived.
#[unsafe(no_mangle)]
pub extern "C" fn bsc_control_kept(
    alloc: Global,
    handle: &mut Handle,
    terminal: usize,
    select: usize,
    kept: &mut StoredKept,
) -> u32
    ensures { AtControl (Reading (GetsKept terminal select kept.old kept.new)) (kept.new ≡ kept.old)
        (made_in handle.old) (made_in handle.new) result }
{
    at_control!(alloc, handle, control => calls::kept(control, terminal, select, kept))
}

/// Adds the record of these codes, which had arrived from the terminal of this number before the
/// process of the control station ended.
#[unsafe(no_mangle)]
pub extern "C" fn bsc_control_keep_arrived(
    alloc: Global,
    handle: &mut Handle,
    terminal: usize,
    chars: &[u8],
) -> u32
    ensures { AtControl (KeepsArrived terminal chars.now) (Unit {0}) (made_in handle.old)
        (made_in handle.new) result }
{
    at_control!(alloc, handle, control => calls::keep_arrived(control, terminal, chars))
}

/// Recalls what was kept of the sending side of a selection address, once the records that had
/// been offered for it are offered again.
#[unsafe(no_mangle)]
pub extern "C" fn bsc_control_recall(
    alloc: Global,
    handle: &mut Handle,
    terminal: usize,
    select: usize,
    kept: &StoredKept,
) -> u32
    ensures { AtControl (Recalls terminal select kept.now) (Unit {0}) (made_in handle.old)
        (made_in handle.new) result }
{
    at_control!(alloc, handle, control => calls::recall(control, terminal, select, kept))
}

/// Frees what was made, and leaves a handle that has nothing. (This project's own.)
#[unsafe(no_mangle)]
pub extern "C" fn bsc_control_free(alloc: Global, handle: &mut Handle) -> u32
    ensures { FreesControl (made_in handle.old) (made_in handle.new) result }
{
    let Some(made) = handle.take(alloc) else {
        return Fault::NotMade.number();
    };
    if !matches!(&*made, Made::Control(_)) {
        handle.hold(made);
        return Fault::OtherKind.number();
    }
    0
}
