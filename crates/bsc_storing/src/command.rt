//! The command `bscline store`.

ghost use Rattle.std.specs.Prelude.{◌≡◌, OnOk, length};
ghost use Rattle.std.specs.Io.KnownBytes.{Appends};
ghost use Rattle.bsc_storing.specs.Lines.{made_shown};
ghost use Rattle.bsc_storing.specs.Works.{form_if, station_in};

use crate::error::{StoringError, of_store};
use crate::stores::StoreFiles;
use crate::work::{Work, do_work};
use bsc_bid::Speaker;
use bsc_config::{Config, read_config};
use bsc_keeping::Own;
use bsc_options::StoreWork;
use bsc_text::{Files, Form, read_text};
use std::alloc::Global;
use std::io::{Read, Write};

/// Does a work on the store at the path `file`, and says what it did. The text that the work names
/// is read first, and then the store is opened.
pub fn store<R: Read, M: Files + StoreFiles, W: Write>(
    alloc: Global,
    file: &str,
    work: StoreWork<'_>,
    input: &mut R,
    machine: &mut M,
    out: &mut W,
) -> Result<(), StoringError> {
    match work {
        StoreWork::Init { config, speaker } => init(
            alloc, file, config, speaker, input, machine, out,
        ),
        StoreWork::Offer { channel, path } => {
            let text = read_text(alloc, path, input, machine)?;
            let text = text.as_slice();
            let work = Work::Offer {
                channel,
                path,
                text,
            };
            do_work(alloc, file, work, machine, out)
        }
        work => do_work(alloc, file, without_text(work), machine, out),
    }
}

/// Returns what is to be done where no text is read.
fn without_text(work: StoreWork<'_>) -> Work<'_> {
    match work {
        StoreWork::Arrived {
            channel,
            first,
            text,
        } => {
            let form = form_of(text);
            Work::Arrived {
                channel,
                first,
                form,
            }
        }
        StoreWork::Release { channel, count } => Work::Release { channel, count },
        StoreWork::Reconcile { other } => Work::Reconcile { other },
        _ => Work::Status,
    }
}

/// Returns the form in which records are printed.
fn form_of(text: bool) -> Form
    ensures { result ≡ form_if text }
{
    if text { Form::Text } else { Form::Hexadecimal }
}

/// Checks that the line has this station.
fn check_station(config: &Config, speaker: Speaker) -> Result<(), StoringError>
    ensures { result ≡ station_in (length config.now.terminals) speaker }
{
    match speaker {
        Speaker::Control => Ok(()),
        Speaker::Terminal { number } if number < config.terminals() => Ok(()),
        Speaker::Terminal { .. } => Err(StoringError::NoTerminal),
    }
}

/// Makes a store for this station of the line whose configuration is at this path, and says so.
fn init<R: Read, M: Files + StoreFiles, W: Write>(
    alloc: Global,
    file: &str,
    path: &str,
    speaker: Speaker,
    input: &mut R,
    machine: &mut M,
    out: &mut W,
) -> Result<(), StoringError> {
    let text = read_text(alloc, path, input, machine)?;
    let config = read_config(alloc, &text)?;
    check_station(&config, speaker)?;
    let own = Own::of(alloc, &config, speaker)?;
    machine.make_kept(file, own.text()).map_err(of_store)?;
    write_made(speaker, out)
}

/// Says that a store was made.
fn write_made<W: Write>(speaker: Speaker, out: &mut W) -> Result<(), StoringError>
    ensures { OnOk result
        (Appends (W.contents out.old) (W.contents out.new) (made_shown speaker)) }
{
    let written = match speaker {
        Speaker::Control => writeln!(out, "control station: store made"),
        Speaker::Terminal { number } => writeln!(out, "terminal {number}: store made"),
    };
    match written {
        Ok(()) => Ok(()),
        Err(_) => Err(StoringError::Output),
    }
}
