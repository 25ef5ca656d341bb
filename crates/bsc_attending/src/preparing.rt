//! Prepares the station of a configuration with the records that it has to send: everything that is
//! read before a connection is made.

ghost use Rattle.std.specs.Prelude.{◌≡◌, ◌≢◌, ◌<◌, ◌≤◌, Err, IfErr, IfOk, IfSome, IsSome, codes};
ghost use Rattle.std.specs.Prelude.{length, string_bytes};
ghost use Rattle.bsc_options.specs.Words.{words_value};
ghost use Rattle.bsc_attending.specs.Errors.{IsPreparingError};
ghost use Rattle.bsc_attending.specs.Preparing.{HasConfig, HasNoConfig, HasNoControl};
ghost use Rattle.bsc_attending.specs.Preparing.{HasNoStation, HasNoTerminal, IsPrepared, IsReady};
ghost use Rattle.bsc_attending.specs.Preparing.{IsStationOf, IsUnprepared, Suits, SuitsOwn};
ghost use Rattle.bsc_attending.specs.Preparing.{offers_in, store_path};
ghost use Rattle.bsc_keeping.specs.Own.{receiving_of, sending_of};
ghost use Rattle.bsc_keeping.specs.OwnText.{own_text_of};

use crate::AttendingError;
use crate::offering::{offer_all_at_terminal, offer_all_for_terminals};
use bsc_bid::Speaker;
use bsc_config::{Config, read_config};
use bsc_control::Control;
use bsc_keeping::Own;
use bsc_options::{GivenPeers, OptionError, Words};
use bsc_station::{LineTerminal, new_control, new_terminal};
use bsc_text::{Files, read_text};
use std::alloc::Global;
use std::io::Read;

/// A station with its records.
#[derive(Drop)]
pub(crate) enum Prepared {
    /// The control station.
    Control { control: Control<Global> },

    /// One of the terminals.
    Terminal { terminal: LineTerminal<Global> },
}

/// A station with its records, and what is to be known of it if they are to be kept.
#[derive(Drop)]
pub(crate) struct Ready {
    pub(crate) prepared: Prepared,
    pub(crate) own: Option<Own>,
}

/// Reads and checks the configuration and all records of the station that the options select.
pub(crate) fn prepare<R: Read, F: Files>(
    alloc: Global,
    words: &Words,
    speaker: Speaker,
    peers: GivenPeers,
    input: &mut R,
    files: &mut F,
) -> Result<Ready, AttendingError>
    ensures error { IfErr result IsPreparingError }
    ensures prepared { IfOk result (λ ready. IsPrepared (words_value words.now) speaker
        (R.remaining input.old) (R.remaining input.new) ready.prepared) }
    ensures unprepared { IfErr result (IsUnprepared (words_value words.now) speaker peers.terminals
        (R.remaining input.old)) }
    ensures suits { IfOk result (λ ready. SuitsOwn ready.own ready.prepared) }
    ensures kept { IfOk result (λ ready.
        IsSome (store_path (words_value words.now)) → IsSome ready.own) }
    ensures ready { IfOk result (λ ready. IsReady (words_value words.now) speaker
        (R.remaining input.old) (R.remaining input.new) ready.prepared ready.own) }
{
    let config = config_at(alloc, words.required("CONFIG"), input, files)?;
    let own = own_of(alloc, words, speaker, &config)?;
    let prepared = station_of(alloc, words, speaker, peers, &config, input, files)?;
    Ok(Ready { prepared, own })
}

/// Returns what is to be known of the station if its records are to be kept.
fn own_of(
    alloc: Global,
    words: &Words,
    speaker: Speaker,
    config: &Config,
) -> Result<Option<Own>, AttendingError>
    ensures text { IfOk result (λ own. IfSome own (λ o.
        string_bytes o.text ≡ own_text_of config.now speaker)) }
    ensures full { IfOk result (λ own. IfSome own (λ o. o.full ≡ config.now.setup.format.full)) }
    ensures sending { IfOk result (λ own. IfSome own (λ o.
        o.sending.items ≡ sending_of config.now.terminals speaker)) }
    ensures receiving { IfOk result (λ own. IfSome own (λ o.
        o.receiving.items ≡ receiving_of config.now.terminals speaker)) }
    ensures kept { IfOk result (λ own. IsSome (store_path (words_value words.now)) → IsSome own) }
    ensures error { IfErr result (λ error. error ≡ AttendingError.Memory) }
{
    if words.text("store").is_none() {
        return Ok(None);
    }
    match Own::of(alloc, config, speaker) {
        Ok(own) => Ok(Some(own)),
        Err(_) => Err(AttendingError::Memory),
    }
}

/// Returns the station that the options select, with its records.
fn station_of<R: Read, F: Files>(
    alloc: Global,
    words: &Words,
    speaker: Speaker,
    peers: GivenPeers,
    config: &Config,
    input: &mut R,
    files: &mut F,
) -> Result<Prepared, AttendingError>
    ensures error { IfErr result IsPreparingError }
    ensures station { IfOk result (IsStationOf config.now speaker
        (offers_in (words_value words.now)) (R.remaining input.old)
        (R.remaining input.new)) }
    ensures refused { IfErr result (HasNoStation config.now speaker peers.terminals
        (offers_in (words_value words.now)) (R.remaining input.old)) }
    ensures suits { IfOk result (Suits config.now.setup.format.full) }
{
    match speaker {
        Speaker::Control => control_station(alloc, words, config, peers, input, files),
        Speaker::Terminal { number } => terminal(alloc, words, config, number, input, files),
    }
}

/// Reads the configuration at a path.
fn config_at<R: Read, F: Files>(
    alloc: Global,
    path: &str,
    input: &mut R,
    files: &mut F,
) -> Result<Config, AttendingError>
    ensures error { IfErr result IsPreparingError }
    ensures config { IfOk result (HasConfig path.now (R.remaining input.old)) }
    ensures refused { IfErr result (HasNoConfig path.now (R.remaining input.old)) }
    ensures unasked { path.now ≢ codes "-" → input.new ≡ input.old }
{
    let text = read_text(alloc, path, input, files)?;
    Ok(read_config(alloc, &text)?)
}

/// Returns the control station with its records. Each terminal for which an address is given has to
/// be one of the configuration.
fn control_station<R: Read, F: Files>(
    alloc: Global,
    words: &Words,
    config: &Config,
    peers: GivenPeers,
    input: &mut R,
    files: &mut F,
) -> Result<Prepared, AttendingError>
    ensures error { IfErr result IsPreparingError }
    ensures station { IfOk result (IsStationOf config.now Speaker.Control
        (offers_in (words_value words.now)) (R.remaining input.old)
        (R.remaining input.new)) }
    ensures suits { IfOk result (Suits config.now.setup.format.full) }
    ensures peers { length config.now.terminals < peers.terminals →
        result ≡ Err (AttendingError.Options OptionError.NoPeer) }
    ensures refused { IfErr result (HasNoControl config.now peers.terminals
        (offers_in (words_value words.now)) (R.remaining input.old)) }
{
    if peers.terminals > config.terminals() {
        let error = OptionError::NoPeer;
        return Err(AttendingError::Options { error });
    }
    let mut control = new_control(alloc, config)?;
    offer_all_for_terminals(alloc, words.texts("offer"), &mut control, input, files)?;
    Ok(Prepared::Control { control })
}

/// Returns the terminal with this number, with its records.
fn terminal<R: Read, F: Files>(
    alloc: Global,
    words: &Words,
    config: &Config,
    number: usize,
    input: &mut R,
    files: &mut F,
) -> Result<Prepared, AttendingError>
    ensures error { IfErr result IsPreparingError }
    ensures station { IfOk result (IsStationOf config.now (Speaker.Terminal number)
        (offers_in (words_value words.now)) (R.remaining input.old)
        (R.remaining input.new)) }
    ensures suits { IfOk result (Suits config.now.setup.format.full) }
    ensures number { length config.now.terminals ≤ number →
        result ≡ Err (AttendingError.Options OptionError.NoTerminal) }
    ensures refused { IfErr result (HasNoTerminal config.now number
        (offers_in (words_value words.now)) (R.remaining input.old)) }
{
    if number >= config.terminals() {
        let error = OptionError::NoTerminal;
        return Err(AttendingError::Options { error });
    }
    let mut terminal = new_terminal(alloc, config, number);
    let setup = config.setup();
    offer_all_at_terminal(
        alloc,
        words.texts("offer"),
        setup,
        &mut terminal,
        input,
        files,
    )?;
    Ok(Prepared::Terminal { terminal })
}
