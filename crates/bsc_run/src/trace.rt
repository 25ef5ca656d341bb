//! The lines of the trace for a transmission that is heard or lost.

ghost use Rattle.std.specs.Prelude.{◌≡◌, OnOk, IfErr, IsTrue, None, Some, is_some};
ghost use Rattle.std.specs.Prelude.{slice_index_or};
ghost use Rattle.std.specs.Io.KnownBytes.{Appends};
ghost use Rattle.bsc_frame.specs.Wire.{wire};
ghost use Rattle.bsc_line_model.specs.Hearing.{octets_in};
ghost use Rattle.bsc_text.specs.Traces.{octets_shown};
ghost use Rattle.bsc_run.specs.Traces.{fate_if, heard_line, if_sent, if_traced};
ghost use Rattle.bsc_run.specs.Traces.{is_turned as is_other, item_line, item_lines, lost_line};

use bsc_frame::laws::{one_reading, reading};
use bsc_frame::{Heard, Message, TextBuffer, Wire, decode, encode};
use bsc_line::{Line, Transmission};
use bsc_text::{Fate, PrintError, Who, write_heard_name, write_name, write_octets, write_start};
use std::alloc::Allocator;
use std::io::Write;

/// Whether other octets are sent for these two messages.
fn are_other(a: &Message<'_>, b: &Message<'_>) -> bool
    ensures { result ≡ is_other b.now (Heard.Whole a.now) }
{
    let (mut first, mut second) = (Wire::new(), Wire::new());
    encode(a, &mut first);
    encode(b, &mut second);
    first.as_slice() != second.as_slice()
}

/// Whether a message was heard that is another than the one that was sent.
fn is_turned(sent: &Message<'_>, heard: &Heard<'_>) -> bool
    ensures { result ≡ is_other sent.now heard.now }
{
    match heard {
        Heard::Whole(message) => are_other(message, sent),
        Heard::Failed => false,
        Heard::Noise => false,
    }
}

/// Returns what became of a transmission that arrived.
fn fate_if(turned: bool) -> Fate
    ensures { result ≡ fate_if turned }
{
    if turned { Fate::Turned } else { Fate::Heard }
}

/// Writes the line for a transmission that was heard as these octets.
fn write_heard<A: Allocator, W: Write>(
    alloc: A,
    number: u64,
    sent: &Transmission<'_>,
    hearer: Option<usize>,
    octets: &[u8],
    out: &mut W,
) -> Result<(), PrintError>
    ensures { OnOk result (Appends (W.contents out.old) (W.contents out.new)
        (heard_line number sent.now hearer octets.now)) }
{
    one_reading();
    reading();
    let mut buffer = TextBuffer::new();
    let heard = decode(octets, &mut buffer);
    let fate = fate_if(is_turned(&sent.message, &heard));
    write_start(number, Who::Station(sent.speaker), fate, hearer, out)?;
    write_heard_name(&heard, out)?;
    write_octets(alloc, octets, out)
}

/// Writes the octets that are sent for a message, and the end of its line.
fn write_wire<A: Allocator, W: Write>(
    alloc: A,
    message: &Message<'_>,
    out: &mut W,
) -> Result<(), PrintError>
    ensures { OnOk result (Appends (W.contents out.old) (W.contents out.new)
        (octets_shown (wire message.now))) }
{
    let mut octets = Wire::new();
    encode(message, &mut octets);
    write_octets(alloc, octets.as_slice(), out)
}

/// Writes the line for a transmission that was lost.
fn write_lost<A: Allocator, W: Write>(
    alloc: A,
    number: u64,
    sent: &Transmission<'_>,
    hearer: Option<usize>,
    out: &mut W,
) -> Result<(), PrintError>
    ensures { OnOk result (Appends (W.contents out.old) (W.contents out.new)
        (lost_line number sent.now hearer)) }
{
    write_start(number, Who::Station(sent.speaker), Fate::Lost, hearer, out)?;
    write_name(&sent.message, out)?;
    write_wire(alloc, &sent.message, out)
}

/// Writes the line for what a terminal heard.
fn write_item<A: Allocator, W: Write>(
    alloc: A,
    number: u64,
    sent: &Transmission<'_>,
    terminal: usize,
    item: Option<&[u8]>,
    out: &mut W,
) -> Result<(), PrintError>
    ensures { OnOk result (Appends (W.contents out.old) (W.contents out.new)
        (item_line number sent.now terminal (octets_in item.entry))) }
{
    match item {
        None => write_lost(alloc, number, sent, Some(terminal), out),
        Some(octets) => write_heard(alloc, number, sent, Some(terminal), octets, out),
    }
}

/// Returns what the terminal of this number hears.
fn item_at<'a>(items: &[Option<&'a [u8]>], terminal: usize) -> Option<&'a [u8]>
    ensures { octets_in result ≡ octets_in (slice_index_or items.now terminal None) }
{
    match items.get(terminal) {
        Some(item) => *item,
        None => None,
    }
}

/// Writes the lines for what each terminal heard.
fn write_items<A: Allocator + Copy, W: Write>(
    alloc: A,
    number: u64,
    sent: &Transmission<'_>,
    items: &[Option<&[u8]>],
    out: &mut W,
) -> Result<(), PrintError>
    ensures { OnOk result (Appends (W.contents out.old) (W.contents out.new)
        (item_lines number sent.now items.now)) }
{
    'terminals: for terminal in 0..items.len() {
        write_item(alloc, number, sent, terminal, item_at(items, terminal), out)?;
    }
    Ok(())
}

/// Writes that the pending transmission is heard as these octets, if there is a trace.
pub(crate) fn trace_heard<A: Allocator, B: Allocator, W: Write>(
    alloc: A,
    number: Option<u64>,
    line: &Line<B>,
    octets: &[u8],
    out: &mut W,
) -> Result<(), PrintError>
    ensures traced { OnOk result (Appends (W.contents out.old) (W.contents out.new)
        (if_traced number (λ n. if_sent line.now.pending
        (λ sent. heard_line n sent None octets.now)))) }
    ensures cause { IfErr result (λ error. IsTrue (is_some number)) }
{
    match (number, line.pending()) {
        (Some(number), Some(sent)) => write_heard(alloc, number, &sent, None, octets, out),
        _ => Ok(()),
    }
}

/// Writes that the pending transmission is lost, if there is a trace.
pub(crate) fn trace_lost<A: Allocator, B: Allocator, W: Write>(
    alloc: A,
    number: Option<u64>,
    line: &Line<B>,
    out: &mut W,
) -> Result<(), PrintError>
    ensures traced { OnOk result (Appends (W.contents out.old) (W.contents out.new)
        (if_traced number (λ n. if_sent line.now.pending (λ sent. lost_line n sent None)))) }
    ensures cause { IfErr result (λ error. IsTrue (is_some number)) }
{
    match (number, line.pending()) {
        (Some(number), Some(sent)) => write_lost(alloc, number, &sent, None, out),
        _ => Ok(()),
    }
}

/// Writes what each terminal hears in place of the pending transmission, if there is a trace.
pub(crate) fn trace_items<A: Allocator + Copy, B: Allocator, W: Write>(
    alloc: A,
    number: Option<u64>,
    line: &Line<B>,
    items: &[Option<&[u8]>],
    out: &mut W,
) -> Result<(), PrintError>
    ensures traced { OnOk result (Appends (W.contents out.old) (W.contents out.new)
        (if_traced number (λ n. if_sent line.now.pending
        (λ sent. item_lines n sent items.now)))) }
    ensures cause { IfErr result (λ error. IsTrue (is_some number)) }
{
    match (number, line.pending()) {
        (Some(number), Some(sent)) => write_items(alloc, number, &sent, items, out),
        _ => Ok(()),
    }
}
