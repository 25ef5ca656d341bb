//! The settings in the options of a station.

ghost use Rattle.std.specs.Prelude.{◌≡◌, option_map, string_bytes};
ghost use Rattle.bsc_options.specs.Entries.{absent_in, number_by};
ghost use Rattle.bsc_options.specs.Readings.{Gives, GivesIt};
ghost use Rattle.bsc_options.specs.Settings.{absence_in, absent_idle_rounds, absent_pause};
ghost use Rattle.bsc_options.specs.Settings.{form_in, limits_in, place_in, place_value};
ghost use Rattle.bsc_options.specs.Settings.{printing_in, reported_in, rounds_in, speaker_in};
ghost use Rattle.bsc_options.specs.Settings.{settings_in, settings_value, times_in, tracing_in};
ghost use Rattle.bsc_options.specs.Words.{words_value};

use crate::checks::{check_station, check_together, unless};
use crate::entry::{Entry, Takes};
use crate::numbers::{number_within, octet_in};
use crate::serves::serves_of;
use crate::tables::station::{
    ABSENT_AFTER, BEGIN_WITH, GAP, IDLE_ROUNDS, PATIENCE, PAUSE, REPLACE_AFTER, RETRY_ABSENT,
    ROUNDS, TIME_OUT,
};
use crate::{OptionError, Serves, Words};
use bsc_bid::Speaker;
use bsc_monitor::{AbsenceLimits, Limits};
use bsc_report::{Printing, RecordLines, Tracing};
use bsc_text::Form;

/// The place of the connections of a station.
#[derive(Clone, Copy)]
pub enum Place<'a> {
    /// Peers connect at this address.
    Listen { address: &'a str },

    /// A peer listens at this address.
    Connect { address: &'a str },
}

/// The times of a station, in milliseconds.
#[derive(Clone, Copy)]
pub struct Times {
    /// The gap that ends a transmission of raw octets, less than the time-out for these.
    pub gap: u64,

    /// The time-out.
    pub time_out: u64,

    /// How long a station tries to connect.
    pub patience: u64,

    /// After how much silence a newcomer replaces a connection that has not answered.
    pub replace_after: u64,

    /// The pause after a round in which nothing got through.
    pub pause: u64,
}

/// The settings of a station.
#[derive(Clone, Copy)]
pub struct StationSettings<'a> {
    /// Which station it is.
    pub speaker: Speaker,

    /// The place of its connections.
    pub place: Place<'a>,

    /// Where programs feed it; `None` if none do.
    pub serves: Option<Serves<'a>>,

    /// Whether the control station reaches all terminals by one connection.
    pub shared: bool,

    /// The number of terminals for which the control station waits before its first call, if it
    /// listens.
    pub begin_with: u64,

    /// Whether transmissions are raw octets and end at gaps.
    pub raw: bool,

    /// Its times.
    pub times: Times,

    /// The limits at which a control station ends.
    pub limits: Limits,

    /// When a control station takes a terminal for absent.
    pub absence: AbsenceLimits,

    /// Whether it ends when standard input does.
    pub until_input_ends: bool,

    /// Whether its records are kept in a store.
    pub is_kept: bool,

    /// Whether standard output is synced before records are acknowledged.
    pub sync: bool,

    /// Whether no progress is shown.
    pub quiet: bool,

    /// Its output while it runs.
    pub printing: Printing,

    /// The form in which the report repeats the records that arrived; `None` if it does not.
    pub reported: Option<Form>,
}

/// Returns the station that is run.
pub(crate) fn speaker_of(control: bool, terminal: Option<&str>) -> Result<Speaker, OptionError>
    ensures { GivesIt result (speaker_in control (option_map (λ text. text.now) terminal.entry)) }
{
    match terminal {
        None if control => Ok(Speaker::Control),
        Some(text) if !control => match octet_in(text) {
            Some(number) => Ok(Speaker::Terminal { number }),
            None => Err(OptionError::TerminalNumber),
        },
        _ => Err(OptionError::Station),
    }
}

/// Returns the place of the connections.
fn place_of<'a>(listen: Option<&'a str>, connect: Option<&'a str>) -> Result<Place<'a>, OptionError>
    ensures { Gives place_value result (place_in (option_map (λ text. text.now) listen.entry)
        (option_map (λ text. text.now) connect.entry)) }
{
    match (listen, connect) {
        (Some(address), None) => Ok(Place::Listen { address }),
        (None, Some(address)) => Ok(Place::Connect { address }),
        _ => Err(OptionError::Place),
    }
}

/// Returns the number of an option, or `absent` if it is not given.
fn number_or(words: &Words, entry: &Entry, absent: u64) -> Result<u64, OptionError>
    ensures { GivesIt result (number_by entry.now.id.now entry.now.kind.now entry.now.takes absent
        (words_value words.now)) }
{
    match entry.takes {
        Takes::Number { least, most, .. } | Takes::Derived { least, most } => {
            match words.text(entry.id) {
                None => Ok(absent),
                Some(text) => match number_within(text, least, most) {
                    Some(number) => Ok(number),
                    None => Err(OptionError::Value {
                        option: entry.id,
                        takes: entry.kind,
                    }),
                },
            }
        }
        _ => Ok(absent),
    }
}

/// Returns the number of an option, or what it is unless it is given.
fn number(words: &Words, entry: &Entry) -> Result<u64, OptionError>
    ensures { GivesIt result (number_by entry.now.id.now entry.now.kind.now entry.now.takes
        (absent_in entry.now.takes) (words_value words.now)) }
{
    match entry.takes {
        Takes::Number { absent, .. } => number_or(words, entry, absent),
        _ => number_or(words, entry, 0),
    }
}

/// Returns the pause after a round in which nothing got through unless it is given, for a station
/// that programs feed or not. A pause counts as time for which an answer may have lain unread, so
/// it is well below half of the time-out, after which what is called next would be withheld.
fn absent_pause(serves: bool, time_out: u64) -> u64
    ensures { result ≡ absent_pause serves time_out }
{
    let most = if serves { 100 } else { 20 };
    (time_out / 4).min(most)
}

/// Returns the number of idle rounds in a row after which a control station ends, unless it is
/// given, for one that ends once all is done or not.
fn absent_idle_rounds(is_batch: bool) -> u64
    ensures { result ≡ absent_idle_rounds is_batch }
{
    if is_batch { 2 } else { u64::MAX }
}

/// Returns the times. With raw octets the gap has to be less than the time-out, and a pause that is
/// given less than half of it.
fn read_times(words: &Words) -> Result<Times, OptionError>
    ensures { GivesIt result (times_in (words_value words.now)) }
{
    let gap = number(words, &GAP)?;
    let time_out = number(words, &TIME_OUT)?;
    let is_broken = words.is_given("raw") && time_out <= gap;
    unless(is_broken, OptionError::GapNotBelowTimeOut)?;
    let patience = number_or(words, &PATIENCE, time_out)?;
    let replace_after = number_or(words, &REPLACE_AFTER, time_out.saturating_mul(3))?;
    let absent = absent_pause(words.is_given("serve"), time_out);
    let pause = number_or(words, &PAUSE, absent)?;
    let is_broken = words.is_given("pause") && time_out <= pause.saturating_mul(2);
    unless(is_broken, OptionError::PauseNotBelowHalf)?;
    Ok(Times {
        gap,
        time_out,
        patience,
        replace_after,
        pause,
    })
}

/// Returns the number of rounds, if it is limited.
fn read_rounds(words: &Words) -> Result<Option<u64>, OptionError>
    ensures { GivesIt result (rounds_in (words_value words.now)) }
{
    if !words.is_given("rounds") {
        return Ok(None);
    }
    let rounds = number(words, &ROUNDS)?;
    Ok(Some(rounds))
}

/// Returns the limits at which a control station ends that waits for this many terminals.
fn read_limits(words: &Words, begin_with: u64) -> Result<Limits, OptionError>
    ensures { GivesIt result (limits_in (words_value words.now) begin_with) }
{
    let rounds = read_rounds(words)?;
    let absent = absent_idle_rounds(words.is_given("batch"));
    let idle_rounds = number_or(words, &IDLE_ROUNDS, absent)?;
    Ok(Limits {
        rounds,
        idle_rounds,
        counts_at_once: !words.is_given("listen") || begin_with > 0,
    })
}

/// Returns when a terminal is absent, and when it is called again.
fn read_absence(words: &Words) -> Result<AbsenceLimits, OptionError>
    ensures { GivesIt result (absence_in (words_value words.now)) }
{
    let absent_after = number(words, &ABSENT_AFTER)?;
    let seconds = number(words, &RETRY_ABSENT)?;
    Ok(AbsenceLimits {
        absent_after,
        retry: seconds.saturating_mul(1_000),
    })
}

/// Returns the form of records in the output.
fn form_of(words: &Words) -> Form
    ensures { result ≡ form_in (words_value words.now) }
{
    if words.is_given("text") {
        Form::Text
    } else if words.is_given("bytes") {
        Form::Bytes
    } else {
        Form::Hexadecimal
    }
}

/// Returns how much is traced, for the number of times that a trace is asked for.
fn tracing_of(times: u8) -> Tracing
    ensures { result ≡ tracing_in times }
{
    match times {
        0 => Tracing::Off,
        1 => Tracing::Exchanges,
        _ => Tracing::All,
    }
}

/// Returns the output of the station.
fn printing_of(words: &Words) -> Printing
    ensures { result ≡ printing_in (words_value words.now) }
{
    Printing {
        records: RecordLines {
            form: form_of(words),
            numbers: words.is_given("numbers"),
        },
        trace: tracing_of(words.times("trace")),
    }
}

/// Returns the form in which the report repeats the records that arrived, if it does.
fn reported_of(words: &Words) -> Option<Form>
    ensures { result ≡ reported_in (words_value words.now) }
{
    if words.is_given("report-records") {
        Some(form_of(words))
    } else {
        None
    }
}

/// Reads the settings in the options, or returns the first reason for refusing them, in the order
/// of the checks: the station, the place of its connections, what does not fit together, the
/// terminals that are waited for, the times, the limits, and when a terminal is absent.
pub fn read_settings(words: &Words) -> Result<StationSettings<'_>, OptionError>
    ensures { Gives settings_value result (settings_in (words_value words.now)) }
{
    let speaker = speaker_of(words.is_given("control"), words.text("terminal"))?;
    let place = place_of(words.text("listen"), words.text("connect"))?;
    check_station(words)?;
    check_together(words, speaker)?;
    let begin_with = number(words, &BEGIN_WITH)?;
    let times = read_times(words)?;
    let limits = read_limits(words, begin_with)?;
    let absence = read_absence(words)?;
    Ok(StationSettings {
        speaker,
        place,
        serves: serves_of(words.text("serve"), words.is_given("serve-anyone")),
        shared: words.is_given("shared"),
        begin_with,
        raw: words.is_given("raw"),
        times,
        limits,
        absence,
        until_input_ends: words.is_given("until-input-ends"),
        is_kept: words.is_given("store"),
        sync: words.is_given("sync"),
        quiet: words.is_given("quiet"),
        printing: printing_of(words),
        reported: reported_of(words),
    })
}
