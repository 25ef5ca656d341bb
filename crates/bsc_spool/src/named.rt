//! Channels, as faults name them.
ghost use Rattle.std.specs.Prelude.{◌≡◌};
ghost use Rattle.std.specs.Fmt.{WritesOnOk};
ghost use Rattle.std.specs.List.{flat_map};
ghost use Rattle.bsc_frame.specs.Addresses.{padded};
ghost use Rattle.bsc_spool.specs.Names.{letter, named};

use crate::Channel;
use bsc_frame::Address;
use bsc_frame::limits::MAX_ADDRESS;
use std::fmt;

/// The codes of an address, with zeros after the last.
type Codes = [u8; MAX_ADDRESS];

/// A channel as a fault names it: `from A`, or `to ab`. A fault is copied, and has the codes of the
/// address in place of the address itself.
#[derive(Clone, Copy, Debug, PartialEq, Eq)]
pub enum NamedChannel {
    /// From the terminal whose address has these codes, with zeros after the last.
    From { terminal: [u8; MAX_ADDRESS] },

    /// To the selection address with these codes, with zeros after the last.
    To { selection: [u8; MAX_ADDRESS] },
}

impl NamedChannel {
    /// Returns the channel as a fault names it.
    pub fn of(channel: &Channel) -> NamedChannel
        ensures { result ≡ named channel.now }
    {
        match channel {
            Channel::From { terminal } => NamedChannel::From {
                terminal: codes_of(terminal),
            },
            Channel::To { selection } => NamedChannel::To {
                selection: codes_of(selection),
            },
        }
    }
}

impl fmt::Display for NamedChannel {
    ghost use Rattle.std.specs.Prelude.{Some};
    ghost use Rattle.bsc_spool.specs.Names.{name_text};

    ghost output = { λ it. Some (name_text it) };

    fn fmt<W: fmt::Write>(&self, f: &mut fmt::Formatter<W>) -> fmt::Result {
        match self {
            NamedChannel::From { terminal } => {
                f.write_str("from ")?;
                write_letters(terminal, f)
            }
            NamedChannel::To { selection } => {
                f.write_str("to ")?;
                write_letters(selection, f)
            }
        }
    }
}

/// Returns the codes of an address, with zeros after the last.
fn codes_of(address: &Address) -> Codes
    ensures { result ≡ padded address.now }
{
    let codes = address.codes();
    let mut buffer = [0; MAX_ADDRESS];
    buffer[..codes.len()].copy_from_slice(codes);
    buffer
}

/// Writes the characters of an address.
fn write_letters<W: fmt::Write>(codes: &[u8], f: &mut fmt::Formatter<W>) -> fmt::Result
    ensures { WritesOnOk W.write_str_gives f.old result (flat_map letter codes.now) f.new }
{
    'codes: for &code in codes {
        write_letter(code, f)?;
    }
    Ok(())
}

/// Writes a character of an address.
fn write_letter<W: fmt::Write>(code: u8, f: &mut fmt::Formatter<W>) -> fmt::Result
    ensures { WritesOnOk W.write_str_gives f.old result (letter code) f.new }
{
    match code {
        b'!'..=b'~' => f.write_char(char::from(code)),
        _ => Ok(()),
    }
}
