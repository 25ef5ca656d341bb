//! The calls of a line.

ghost use Rattle.std.specs.Prelude.{◌≡◌, nat_eq, not};
ghost use Rattle.bsc_embed.specs.Handles.{made_in};
ghost use Rattle.bsc_embed.specs.declared.handles.made.Made.TheVariants.{Line};
ghost use Rattle.bsc_embed.specs.LineChannels.{ArrivalsFrom, ArrivalsTo, ArrivedFrom, ArrivedTo};
ghost use Rattle.bsc_embed.specs.LineChannels.{SendingFrom, SendingTo};
ghost use Rattle.bsc_embed.specs.LineEvents.{Carries, CarriesSent, Loses, OffersAt, OffersFor};
ghost use Rattle.bsc_embed.specs.LineEvents.{PassesSilence, ReleasesFrom, ReleasesTo};
ghost use Rattle.bsc_embed.specs.LineEvents.{RestartsControl, RestartsTerminal, SetsPolled};
ghost use Rattle.bsc_embed.specs.LineEvents.{SetsReady, SetsUrgentAt, SetsUrgentFor};
ghost use Rattle.bsc_embed.specs.LineHearings.{CarriesEach};
ghost use Rattle.bsc_embed.specs.LineMaking.{MakesLine};
ghost use Rattle.bsc_embed.specs.LineTransmissions.{PendingIs, TrustIs};
ghost use Rattle.bsc_embed.specs.Calls.{AtLine, Reading};
ghost use Rattle.bsc_embed.specs.Making.{FreesLine, IsMadeBy};

use crate::handles::{Handle, Made};
use crate::interface::{Fault, Sending, Settings, StoredAddresses, number_of};
use crate::keeping::keep;
use crate::line_calls as calls;
use std::alloc::Global;

/// Does a call of the line that a handle has, and gives the number of its answer.
macro_rules! at_line {
    ($alloc:ident, $handle:ident, $line:ident => $call:expr) => {{
        let Some(mut made) = $handle.take($alloc) else {
            return Fault::NotMade.number();
        };
        let answer = match &mut *made {
            Made::Line($line) => $call,
            Made::Terminal(_) | Made::Control(_) => Err(Fault::OtherKind),
        };
        $handle.hold(made);
        number_of(&answer)
    }};
}

/// Returns a line of new stations with these settings, the addresses of 1 to 64 terminals, and a
/// poll list of 1 to 255 entries, each the number of a terminal.
#[unsafe(no_mangle)]
pub extern "C" fn bsc_line_new(
    alloc: Global,
    handle: &mut Handle,
    settings: &Settings,
    terminals: &[StoredAddresses],
    poll_list: &[u8],
) -> u32
    ensures { IsMadeBy Line (MakesLine settings.now terminals.now poll_list.now)
        (made_in handle.old) (made_in handle.new) result }
{
    if handle.is_made() {
        return Fault::AlreadyMade.number();
    }
    match calls::new_line(alloc, settings, terminals, poll_list) {
        Ok(line) => keep(alloc, handle, Made::Line(line)),
        Err(fault) => fault.number(),
    }
}

/// Offers the record of these characters at a terminal, counted from 0, for the control station.
#[unsafe(no_mangle)]
pub extern "C" fn bsc_line_offer_at(
    alloc: Global,
    handle: &mut Handle,
    terminal: usize,
    chars: &[u8],
) -> u32
    ensures { AtLine (OffersAt terminal chars.now) (Unit {0}) (made_in handle.old)
        (made_in handle.new) result }
{
    at_line!(alloc, handle, line => calls::offer_at(line, terminal, chars))
}

/// Offers the record of these characters at the control station, for a selection address of a
/// terminal, both counted from 0.
#[unsafe(no_mangle)]
pub extern "C" fn bsc_line_offer_for(
    alloc: Global,
    handle: &mut Handle,
    terminal: usize,
    select: usize,
    chars: &[u8],
) -> u32
    ensures { AtLine (OffersFor terminal select chars.now) (Unit {0}) (made_in handle.old)
        (made_in handle.new) result }
{
    at_line!(alloc, handle, line => calls::offer_for(line, terminal, select, chars))
}

/// Lets the pending transmission be heard as these octets, by all terminals or by the control
/// station.
#[unsafe(no_mangle)]
pub extern "C" fn bsc_line_carry(alloc: Global, handle: &mut Handle, octets: &[u8]) -> u32
    ensures { AtLine (Carries octets.now) (Unit {0}) (made_in handle.old) (made_in handle.new)
        result }
{
    at_line!(alloc, handle, line => calls::carry(line, octets))
}

/// Loses the pending transmission: nobody hears it.
#[unsafe(no_mangle)]
pub extern "C" fn bsc_line_lose(alloc: Global, handle: &mut Handle) -> u32
    ensures { AtLine Loses (Unit {0}) (made_in handle.old) (made_in handle.new) result }
{
    at_line!(alloc, handle, line => calls::lose(line))
}

/// Lets each terminal hear its own piece of these octets, which are cut one after the other: a
/// length for each terminal, in the order of their numbers; `LOST` means that the transmission is
/// lost there.
#[unsafe(no_mangle)]
pub extern "C" fn bsc_line_carry_each(
    alloc: Global,
    handle: &mut Handle,
    octets: &[u8],
    lengths: &[usize],
) -> u32
    ensures { AtLine (CarriesEach octets.now lengths.now) (Unit {0}) (made_in handle.old)
        (made_in handle.new) result }
{
    at_line!(alloc, handle, line => calls::carry_each(line, octets, lengths))
}

/// Lets the pending transmission be heard as it was sent.
#[unsafe(no_mangle)]
pub extern "C" fn bsc_line_carry_sent(alloc: Global, handle: &mut Handle) -> u32
    ensures { AtLine CarriesSent (Unit {0}) (made_in handle.old) (made_in handle.new) result }
{
    at_line!(alloc, handle, line => calls::carry_sent(line))
}

/// Lets a silence pass, that is, nothing is heard for the time of a time-out: the terminal that
/// holds the line acts, or else the control station.
#[unsafe(no_mangle)]
pub extern "C" fn bsc_line_silence(alloc: Global, handle: &mut Handle) -> u32
    ensures { AtLine PassesSilence (Unit {0}) (made_in handle.old) (made_in handle.new) result }
{
    at_line!(alloc, handle, line => calls::silence(line))
}

/// Sets whether a terminal accepts selections; if it is not ready, it answers them by NAK.
#[unsafe(no_mangle)]
pub extern "C" fn bsc_line_ready(
    alloc: Global,
    handle: &mut Handle,
    terminal: usize,
    ready: u32,
) -> u32
    ensures { AtLine (SetsReady terminal (not (nat_eq ready 0))) (Unit {0}) (made_in handle.old)
        (made_in handle.new) result }
{
    at_line!(alloc, handle, line => calls::set_ready(line, terminal, ready != 0))
}

/// Sets whether the control station polls a terminal; if it does not, it passes over its entries of
/// the poll list.
#[unsafe(no_mangle)]
pub extern "C" fn bsc_line_set_polled(
    alloc: Global,
    handle: &mut Handle,
    terminal: usize,
    polled: u32,
) -> u32
    ensures { AtLine (SetsPolled terminal (not (nat_eq polled 0))) (Unit {0}) (made_in handle.old)
        (made_in handle.new) result }
{
    at_line!(alloc, handle, line => calls::set_polled(line, terminal, polled != 0))
}

/// Makes a terminal ask the control station for the line, by a reverse interrupt to the next text
/// that it takes.
#[unsafe(no_mangle)]
pub extern "C" fn bsc_line_urgent_at(alloc: Global, handle: &mut Handle, terminal: usize) -> u32
    ensures { AtLine (SetsUrgentAt terminal) (Unit {0}) (made_in handle.old) (made_in handle.new)
        result }
{
    at_line!(alloc, handle, line => calls::set_urgent_at(line, terminal))
}

/// Makes the control station ask a terminal for the line, by a reverse interrupt to the next text
/// that it takes from it.
#[unsafe(no_mangle)]
pub extern "C" fn bsc_line_urgent_for(alloc: Global, handle: &mut Handle, terminal: usize) -> u32
    ensures { AtLine (SetsUrgentFor terminal) (Unit {0}) (made_in handle.old) (made_in handle.new)
        result }
{
    at_line!(alloc, handle, line => calls::set_urgent_for(line, terminal))
}

/// Ends a terminal's doubt by the count of the records that arrived at the control station.
#[unsafe(no_mangle)]
pub extern "C" fn bsc_line_release_from(alloc: Global, handle: &mut Handle, terminal: usize) -> u32
    ensures { AtLine (ReleasesFrom terminal) (Unit {0}) (made_in handle.old) (made_in handle.new)
        result }
{
    at_line!(alloc, handle, line => calls::release_from(line, terminal))
}

/// Ends the control station's doubt about a selection address of a terminal by the count of the
/// records that arrived there.
#[unsafe(no_mangle)]
pub extern "C" fn bsc_line_release_to(
    alloc: Global,
    handle: &mut Handle,
    terminal: usize,
    select: usize,
) -> u32
    ensures { AtLine (ReleasesTo terminal select) (Unit {0}) (made_in handle.old)
        (made_in handle.new) result }
{
    at_line!(alloc, handle, line => calls::release_to(line, terminal, select))
}

/// Lets the control station begin again, as after the end of its process.
#[unsafe(no_mangle)]
pub extern "C" fn bsc_line_restart_control(alloc: Global, handle: &mut Handle) -> u32
    ensures { AtLine RestartsControl (Unit {0}) (made_in handle.old) (made_in handle.new) result }
{
    at_line!(alloc, handle, line => calls::restart_control(line))
}

/// Lets a terminal begin again, as `restart_control` does the control station.
#[unsafe(no_mangle)]
pub extern "C" fn bsc_line_restart_terminal(
    alloc: Global,
    handle: &mut Handle,
    terminal: usize,
) -> u32
    ensures { AtLine (RestartsTerminal terminal) (Unit {0}) (made_in handle.old)
        (made_in handle.new) result }
{
    at_line!(alloc, handle, line => calls::restart_terminal(line, terminal))
}

/// Gives 1 if every transmission so far was heard fairly, else 0.
#[unsafe(no_mangle)]
pub extern "C" fn bsc_line_trusted(alloc: Global, handle: &mut Handle, trusted: &mut u32) -> u32
    ensures { AtLine (Reading (TrustIs trusted.new trusted.old)) (trusted.new ≡ trusted.old)
        (made_in handle.old) (made_in handle.new) result }
{
    at_line!(alloc, handle, line => calls::trusted(line, trusted))
}

/// Puts the octets of the pending transmission at the front of the buffer, their number into
/// `len`, and the number of the terminal that sent it, or `CONTROL`, into `sender`.
#[unsafe(no_mangle)]
pub extern "C" fn bsc_line_pending(
    alloc: Global,
    handle: &mut Handle,
    octets: &mut [u8],
    len: &mut usize,
    sender: &mut usize,
) -> u32
    ensures { AtLine
        (Reading (PendingIs octets.new len.new sender.new octets.old len.old sender.old))
        ((octets.new ≡ octets.old) × (len.new ≡ len.old) × (sender.new ≡ sender.old))
        (made_in handle.old) (made_in handle.new) result }
{
    at_line!(alloc, handle, line => calls::pending(line, octets, len, sender))
}

/// Gives what a terminal, counted from 0, has as the sending end of its channel.
#[unsafe(no_mangle)]
pub extern "C" fn bsc_line_sending_from(
    alloc: Global,
    handle: &mut Handle,
    terminal: usize,
    sending: &mut Sending,
) -> u32
    ensures { AtLine (Reading (SendingFrom terminal sending.new sending.old))
        (sending.new ≡ sending.old) (made_in handle.old) (made_in handle.new) result }
{
    at_line!(alloc, handle, line => calls::sending_from(line, terminal, sending))
}

/// Gives what the control station has as the sending end of its channel to a selection address of
/// a terminal, both counted from 0.
#[unsafe(no_mangle)]
pub extern "C" fn bsc_line_sending_to(
    alloc: Global,
    handle: &mut Handle,
    terminal: usize,
    select: usize,
    sending: &mut Sending,
) -> u32
    ensures { AtLine (Reading (SendingTo terminal select sending.new sending.old))
        (sending.new ≡ sending.old) (made_in handle.old) (made_in handle.new) result }
{
    at_line!(alloc, handle, line => calls::sending_to(line, terminal, select, sending))
}

/// Gives the number of records that arrived at the control station from a terminal.
#[unsafe(no_mangle)]
pub extern "C" fn bsc_line_arrivals_from(
    alloc: Global,
    handle: &mut Handle,
    terminal: usize,
    count: &mut usize,
) -> u32
    ensures { AtLine (Reading (ArrivalsFrom terminal count.new count.old)) (count.new ≡ count.old)
        (made_in handle.old) (made_in handle.new) result }
{
    at_line!(alloc, handle, line => calls::arrivals_from(line, terminal, count))
}

/// Gives the number of records that arrived at a terminal for a selection address.
#[unsafe(no_mangle)]
pub extern "C" fn bsc_line_arrivals_to(
    alloc: Global,
    handle: &mut Handle,
    terminal: usize,
    select: usize,
    count: &mut usize,
) -> u32
    ensures { AtLine (Reading (ArrivalsTo terminal select count.new count.old))
        (count.new ≡ count.old) (made_in handle.old) (made_in handle.new) result }
{
    at_line!(alloc, handle, line => calls::arrivals_to(line, terminal, select, count))
}

/// Puts the characters of the record that arrived at the control station from a terminal at this
/// index, counted from 0, at the front of the buffer, and their number, at most 144, into `len`.
#[unsafe(no_mangle)]
pub extern "C" fn bsc_line_arrived_from(
    alloc: Global,
    handle: &mut Handle,
    terminal: usize,
    index: usize,
    chars: &mut [u8],
    len: &mut usize,
) -> u32
    ensures { AtLine (Reading (ArrivedFrom terminal index chars.new len.new chars.old len.old))
        ((chars.new ≡ chars.old) × (len.new ≡ len.old)) (made_in handle.old) (made_in handle.new)
        result }
{
    at_line!(alloc, handle, line => calls::arrived_from(line, terminal, index, chars, len))
}

/// Puts the characters of the record that arrived at a terminal for a selection address at this
/// index, counted from 0, at the front of the buffer, and their number, at most 144, into `len`.
#[unsafe(no_mangle)]
pub extern "C" fn bsc_line_arrived_to(
    alloc: Global,
    handle: &mut Handle,
    terminal: usize,
    select: usize,
    index: usize,
    chars: &mut [u8],
    len: &mut usize,
) -> u32
    ensures { AtLine (Reading (ArrivedTo terminal select index chars.new len.new chars.old len.old))
        ((chars.new ≡ chars.old) × (len.new ≡ len.old)) (made_in handle.old) (made_in handle.new)
        result }
{
    at_line!(alloc, handle, line => calls::arrived_to(line, terminal, select, index, chars, len))
}

/// Frees what was made, and leaves a handle that has nothing. (This project's own.)
#[unsafe(no_mangle)]
pub extern "C" fn bsc_line_free(alloc: Global, handle: &mut Handle) -> u32
    ensures { FreesLine (made_in handle.old) (made_in handle.new) result }
{
    let Some(made) = handle.take(alloc) else {
        return Fault::NotMade.number();
    };
    if !matches!(&*made, Made::Line(_)) {
        handle.hold(made);
        return Fault::OtherKind.number();
    }
    0
}
