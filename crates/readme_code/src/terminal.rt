//! One terminal on a line with the control station of another manufacturer.

use anyhow::bail;
use bsc_bid::{Setup, Station, Terminal};
use bsc_frame::{Address, Wire};
use bsc_tributary::{Tributary, addresses_differ};
use std::alloc::Allocator;
use std::io::Write;

/// Runs the terminal that is polled by `A` and selected by `a`. `heard` are the transmissions that
/// it hears, in order, with None for a time-out. What it sends is written to `line`, and then the
/// records that arrived to `printer`.
pub fn run_terminal<A: Allocator + Copy, W: Write>(
    alloc: A,
    heard: &[Option<&[u8]>],
    line: &mut W,
    printer: &mut W,
) -> anyhow::Result<()> {
    let terminal = Terminal::new(Address::read(b"A")?, &[Address::read(b"a")?])?;
    if !addresses_differ(&terminal) {
        bail!("two addresses are the same");
    }
    let mut station = Tributary::new(alloc, Setup::new(80, 400, 3, 10)?, terminal);
    let mut wire = Wire::new();
    for transmission in heard {
        let sends = match transmission {
            Some(octets) => station.hear(octets, &mut wire),
            None => station.silence(&mut wire),
        };
        if sends {
            line.write_all(&wire)?;
        }
    }
    let arrived = station.spool(0).records();
    for place in 0..arrived.len() {
        printer.write_all(arrived.chars(place))?;
    }
    Ok(())
}
