//! Draws the traces on standard input as pictures, and as pages if their names end with `.html`.
//! bench/pictures compares what it prints with the pictures in docs/. The other traces, those in
//! data/, have each shape, fate and mark, each kind of transmission, and texts with a meaning in a
//! document.
//!
//! Each trace comes after a line with `%` and its name, and so does its picture.
//!
//! The transmissions are those of GA27-3004. Traces and pictures are this project's own.
#![tactic(auto)]

use anyhow::{Result, bail};
use bsc_chart::draw;
use bsc_options::{Given, Words};
use bsc_text::{read_input, split_at_first};
use std::alloc::Global;
use std::io;
use std::io::{BufWriter, Read, Write};

fn main(rt: HostRuntime) -> Result<()> {
    let mut out = BufWriter::new(rt.alloc(), io::writer(&rt))?;
    draw_all(rt.alloc(), &mut rt.reader(), &mut out)
}

/// Returns the words for a page or for a picture.
fn words(alloc: Global, html: bool) -> Result<Words> {
    let mut given = Vec::new(alloc);
    given.push(Given {
        id: if html { "html" } else { "svg" },
        times: 1,
        texts: Vec::new(alloc),
    })?;
    Ok(Words { given })
}

/// Draws each trace of the input.
fn draw_all<R: Read, W: Write>(alloc: Global, input: &mut R, out: &mut W) -> Result<()> {
    let Ok(text) = read_input(alloc, input) else {
        bail!("the traces are not there");
    };
    let mut rest = split_at_first(&text, b'%').1;
    for _ in 0..text.len() {
        let Some(traces) = rest else {
            break;
        };
        let (section, others) = split_at_first(traces, b'%');
        draw_section(alloc, section, out)?;
        rest = others;
    }
    out.flush()?;
    Ok(())
}

/// Draws a trace after its name.
fn draw_section<W: Write>(alloc: Global, section: &[u8], out: &mut W) -> Result<()> {
    let (name, trace) = split_at_first(section, b'\n');
    let Some(mut trace) = trace else {
        bail!("a trace is not there");
    };
    out.write_all(b"%")?;
    out.write_all(name)?;
    out.write_all(b"\n")?;
    let words = words(alloc, name.ends_with(b".html"))?;
    match draw(alloc, &words, None, &mut trace, out) {
        Ok(_) => Ok(()),
        Err(_) => bail!("a trace is not drawn"),
    }
}
