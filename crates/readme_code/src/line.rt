//! A line of two terminals, with the control station.

use bsc_bid::{Setup, Terminal};
use bsc_control::Way;
use bsc_frame::Address;
use bsc_line::Line;
use std::alloc::Allocator;
use std::io::Write;

/// Offers a record at the first terminal, and writes what arrived at the control station.
pub fn deliver<A: Allocator + Copy, W: Write>(alloc: A, out: &mut W) -> anyhow::Result<()> {
    let terminals = [
        Terminal::new(Address::read(b"A")?, &[Address::read(b"a")?])?,
        Terminal::new(Address::read(b"B")?, &[Address::read(b"b")?])?,
    ];
    let setup = Setup::new(80, 400, 3, 10)?;
    let mut line = Line::new(alloc, setup, &terminals, &[0, 1])?;
    line.offer_at(0, b"HI")?;
    line.silence()?; // the control station calls A
    for _ in 0..3 {
        line.carry_sent()?; // pending next: the text HI, ACK1, EOT
    }
    for terminal in 0..line.terminals() {
        let arrived = line.spooled(terminal, Way::FromTerminal);
        for place in 0..arrived.len() {
            out.write_all(arrived.chars(place))?;
        }
    }
    Ok(())
}
