//! The lines printed while a station begins: where it can be reached, and for which peers it waits.

ghost use Rattle.std.specs.Prelude.{◌≡◌, ◌++◌, IfErr, None, OnOk, Some, false};
ghost use Rattle.std.specs.Io.KnownBytes.{Appends};
ghost use Rattle.bsc_report.specs.Traces.{closed_line, connected_shown, joined_line};
ghost use Rattle.bsc_report.specs.Traces.{listening_line};
ghost use Rattle.bsc_report.specs.Traces.{not_allowed_line, serving_line, start_shown};
ghost use Rattle.bsc_report.specs.Traces.{waiting_for_control, waiting_line, wanted_shown};

use crate::trace::{write_closed, write_joined};
use bsc_text::{PrintError, put, write_time};
use std::io::Write;
use std::net::SocketAddr;

/// The lines printed while a station begins. In a trace each begins with the time 0.
#[derive(Clone, Copy)]
pub struct Beginning {
    /// Whether they are lines of a trace.
    pub trace: bool,
}

impl Beginning {
    /// Writes that peers can connect at this address.
    pub fn write_listening<W: Write>(
        self,
        address: SocketAddr,
        out: &mut W,
    ) -> Result<(), PrintError>
        ensures ok { OnOk result (Appends (W.contents out.old) (W.contents out.new)
            (start_shown self.trace ++ listening_line address)) }
        ensures err { IfErr result (λ error. error ≡ PrintError.Output) }
    {
        self.write_start(out)?;
        write_address(address, out)?;
        Ok(())
    }

    /// Writes that programs can reach the station at this address.
    pub fn write_serving<W: Write>(self, address: SocketAddr, out: &mut W) -> Result<(), PrintError>
        ensures ok { OnOk result (Appends (W.contents out.old) (W.contents out.new)
            (start_shown self.trace ++ serving_line address)) }
        ensures err { IfErr result (λ error. error ≡ PrintError.Output) }
    {
        self.write_start(out)?;
        write_served(address, out)?;
        Ok(())
    }

    /// Writes how many terminals have connected of those that are wanted.
    pub fn write_waiting<W: Write>(
        self,
        connected: usize,
        wanted: usize,
        out: &mut W,
    ) -> Result<(), PrintError>
        ensures ok { OnOk result (Appends (W.contents out.old) (W.contents out.new)
            (start_shown self.trace ++ waiting_line connected wanted)) }
        ensures err { IfErr result (λ error. error ≡ PrintError.Output) }
    {
        self.write_start(out)?;
        write_counts(connected, wanted, out)?;
        Ok(())
    }

    /// Writes that a terminal waits for the control station.
    pub fn write_waiting_for_control<W: Write>(self, out: &mut W) -> Result<(), PrintError>
        ensures ok { OnOk result (Appends (W.contents out.old) (W.contents out.new)
            (start_shown self.trace ++ waiting_for_control)) }
        ensures err { IfErr result (λ error. error ≡ PrintError.Output) }
    {
        self.write_start(out)?;
        put(b"waiting for the control station\n", out)?;
        Ok(())
    }

    /// Writes that this peer has the connection at this place.
    pub fn write_joined<W: Write>(
        self,
        place: usize,
        peer: SocketAddr,
        out: &mut W,
    ) -> Result<(), PrintError>
        ensures ok { OnOk result (Appends (W.contents out.old) (W.contents out.new)
            (start_shown self.trace ++ joined_line place (Some peer) false)) }
        ensures err { IfErr result (λ error. error ≡ PrintError.Output) }
    {
        self.write_start(out)?;
        write_joined(place, Some(peer), false, out)?;
        Ok(())
    }

    /// Writes that the peer at this place has closed its connection.
    pub fn write_left<W: Write>(
        self,
        place: usize,
        peer: Option<SocketAddr>,
        out: &mut W,
    ) -> Result<(), PrintError>
        ensures ok { OnOk result (Appends (W.contents out.old) (W.contents out.new)
            (start_shown self.trace ++ closed_line place peer None)) }
        ensures err { IfErr result (λ error. error ≡ PrintError.Output) }
    {
        self.write_start(out)?;
        write_closed(place, peer, None, out)?;
        Ok(())
    }

    /// Writes that this peer was turned away, since its address is not allowed.
    pub fn write_refused<W: Write>(self, peer: SocketAddr, out: &mut W) -> Result<(), PrintError>
        ensures ok { OnOk result (Appends (W.contents out.old) (W.contents out.new)
            (start_shown self.trace ++ not_allowed_line peer)) }
        ensures err { IfErr result (λ error. error ≡ PrintError.Output) }
    {
        self.write_start(out)?;
        write_not_allowed(peer, out)?;
        Ok(())
    }

    /// Writes the time at the start of a line, if it is one of a trace.
    fn write_start<W: Write>(self, out: &mut W) -> Result<(), PrintError>
        ensures ok { OnOk result (Appends (W.contents out.old) (W.contents out.new)
            (start_shown self.trace)) }
        ensures err { IfErr result (λ error. error ≡ PrintError.Output) }
    {
        if self.trace {
            return write_time(0, out);
        }
        Ok(())
    }
}

/// Writes the address at which peers can connect.
fn write_address<W: Write>(address: SocketAddr, out: &mut W) -> Result<(), PrintError>
    ensures ok { OnOk result (Appends (W.contents out.old) (W.contents out.new)
        (listening_line address)) }
    ensures err { IfErr result (λ error. error ≡ PrintError.Output) }
{
    Ok(write!(out, "listening at {address}\n")?)
}

/// Writes the address at which programs can reach the station.
fn write_served<W: Write>(address: SocketAddr, out: &mut W) -> Result<(), PrintError>
    ensures ok { OnOk result (Appends (W.contents out.old) (W.contents out.new)
        (serving_line address)) }
    ensures err { IfErr result (λ error. error ≡ PrintError.Output) }
{
    Ok(write!(out, "serving programs at {address}\n")?)
}

/// Writes that a peer was turned away, since its address is not allowed.
fn write_not_allowed<W: Write>(peer: SocketAddr, out: &mut W) -> Result<(), PrintError>
    ensures ok { OnOk result (Appends (W.contents out.old) (W.contents out.new)
        (not_allowed_line peer)) }
    ensures err { IfErr result (λ error. error ≡ PrintError.Output) }
{
    Ok(write!(out, "refused {peer}: its address is not allowed\n")?)
}

/// Writes how many terminals have connected, and how many are wanted.
fn write_counts<W: Write>(connected: usize, wanted: usize, out: &mut W) -> Result<(), PrintError>
    ensures ok { OnOk result (Appends (W.contents out.old) (W.contents out.new)
        (waiting_line connected wanted)) }
    ensures err { IfErr result (λ error. error ≡ PrintError.Output) }
{
    write_connected(connected, out)?;
    write_wanted(wanted, out)?;
    Ok(())
}

/// Writes how many terminals have connected.
fn write_connected<W: Write>(connected: usize, out: &mut W) -> Result<(), PrintError>
    ensures ok { OnOk result (Appends (W.contents out.old) (W.contents out.new)
        (connected_shown connected)) }
    ensures err { IfErr result (λ error. error ≡ PrintError.Output) }
{
    Ok(write!(out, "waiting for terminals: {connected}")?)
}

/// Writes how many terminals are wanted, and the end of the line.
fn write_wanted<W: Write>(wanted: usize, out: &mut W) -> Result<(), PrintError>
    ensures ok { OnOk result (Appends (W.contents out.old) (W.contents out.new)
        (wanted_shown wanted)) }
    ensures err { IfErr result (λ error. error ≡ PrintError.Output) }
{
    Ok(write!(out, " of {wanted} connected\n")?)
}
