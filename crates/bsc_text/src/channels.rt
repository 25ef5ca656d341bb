//! The parts of the lines for a channel.

ghost use Rattle.std.specs.Prelude.{◌≡◌, OnErr, OnOk};
ghost use Rattle.std.specs.List.{flat_map};
ghost use Rattle.std.specs.Io.KnownBytes.{Appends};
ghost use Rattle.bsc_text.specs.Fronts.{AppendsFront};
ghost use Rattle.bsc_text.specs.Channels.{channel_name, doubt_shown, record_line};

use crate::{Form, PrintError, put, put_numbered, write_in_form};
use bsc_bid::Way;
use bsc_block::Records;
use std::alloc::Allocator;
use std::io::Write;

/// Writes the name of a channel of a terminal that has this many selection addresses. After an
/// error a front of it has been written.
pub fn write_channel_name<W: Write>(
    addresses: usize,
    terminal: usize,
    way: Way,
    out: &mut W,
) -> Result<(), PrintError>
    ensures ok { OnOk result
        (Appends (W.contents out.old) (W.contents out.new) (channel_name addresses terminal way)) }
    ensures front { OnErr result (AppendsFront (W.contents out.old) (W.contents out.new)
        (channel_name addresses terminal way)) }
{
    match way {
        Way::FromTerminal => put_numbered(b"from ", terminal as u64, out),
        Way::ToTerminal(select) => {
            put_numbered(b"to ", terminal as u64, out)?;
            if addresses == 1 {
                Ok(())
            } else {
                put_numbered(b".", select as u64, out)
            }
        }
    }
}

/// Returns the end of the line for a channel, by whether its sending end is in doubt.
pub fn doubt_text(doubt: bool) -> &'static [u8]
    ensures { result.now ≡ doubt_shown doubt }
{
    if doubt { b", in doubt\n" } else { b"\n" }
}

/// Writes a line for each record, in this form. After an error a front of the output has been
/// written.
pub fn write_records<A: Allocator + Copy, B: Allocator, W: Write>(
    alloc: A,
    form: Form,
    records: &Records<B>,
    out: &mut W,
) -> Result<(), PrintError>
    ensures ok { OnOk result
        (Appends (W.contents out.old) (W.contents out.new)
        (flat_map (record_line form) records.now.items)) }
    ensures front { OnErr result
        (AppendsFront (W.contents out.old) (W.contents out.new)
        (flat_map (record_line form) records.now.items)) }
{
    'records: for place in 0..records.len() {
        write_record(alloc, form, records.chars(place), out)?;
    }
    Ok(())
}

/// Writes the line for a record with these characters.
fn write_record<A: Allocator, W: Write>(
    alloc: A,
    form: Form,
    chars: &[u8],
    out: &mut W,
) -> Result<(), PrintError>
    ensures ok { OnOk result
        (Appends (W.contents out.old) (W.contents out.new) (record_line form chars.now)) }
    ensures front { OnErr result
        (AppendsFront (W.contents out.old) (W.contents out.new) (record_line form chars.now)) }
{
    put(b"  ", out)?;
    write_in_form(alloc, form, chars, out)?;
    put(b"\n", out)
}
