//! What is to be done with the store of a station.

ghost use Rattle.std.specs.Prelude.{◌≡◌, option_map};
ghost use Rattle.bsc_options.specs.StoreWords.{store_given};
ghost use Rattle.bsc_options.specs.Readings.{Gives, GivesIt};
ghost use Rattle.bsc_options.specs.StoreWorks.{channel_read, count_in, first_in, fits_task};
ghost use Rattle.bsc_options.specs.StoreWorks.{no_word, one_word, task_in, task_value, two_words};
ghost use Rattle.bsc_options.specs.StoreWorks.{init_of, offer_of as offer_asked, arrived_of};
ghost use Rattle.bsc_options.specs.StoreWorks.{release_of, work_in, work_value};

use crate::checks::unless;
use crate::numbers::count_of;
use crate::offers::channel_of;
use crate::settings::speaker_of;
use crate::{OptionError, Words};
use bsc_bid::Speaker;

/// A channel at a station: its terminal, and the selection address of that terminal, counted from
/// 0. A channel from a terminal has the address 0.
#[derive(Clone, Copy, Debug, PartialEq, Eq)]
pub struct StoreChannel {
    pub terminal: usize,
    pub select: usize,
}

/// What is to be done with the store of a station.
#[derive(Clone, Copy)]
pub enum StoreWork<'a> {
    /// Make it for this station of the line with this configuration; `-` is standard input.
    Init {
        config: &'a str,
        speaker: Speaker,
    },

    /// Offer the lines of the text at this path on a channel; `-` is standard input.
    Offer {
        channel: StoreChannel,
        path: &'a str,
    },

    /// Print the records that arrived on a channel, from the one with this number on, counted
    /// from 0, as text or in hexadecimal text.
    Arrived {
        channel: StoreChannel,
        first: u32,
        text: bool,
    },

    /// Print how far each channel is.
    Status,

    /// End the doubt of a channel of which the other end has this many records.
    Release {
        channel: StoreChannel,
        count: u32,
    },

    /// End each doubt between this store and the one at this path.
    Reconcile {
        other: &'a str,
    },
}

/// A work with its words.
#[derive(Clone, Copy)]
enum Task<'a> {
    Init { config: &'a str },
    Offer { channel: &'a str, path: &'a str },
    Arrived { channel: &'a str },
    Status,
    Release { channel: &'a str, count: &'a str },
    Reconcile { other: &'a str },
}

/// Whether there is no word.
fn has_none(first: Option<&str>, second: Option<&str>) -> bool
    ensures { result ≡ no_word (option_map (λ text. text.now) first.entry)
        (option_map (λ text. text.now) second.entry) }
{
    match (first, second) {
        (None, None) => true,
        _ => false,
    }
}

/// Returns the one word, if there is exactly one.
fn only<'a>(first: Option<&'a str>, second: Option<&'a str>) -> Option<&'a str>
    ensures { option_map (λ text. text.now) result
        ≡ one_word (option_map (λ text. text.now) first.entry)
        (option_map (λ text. text.now) second.entry) }
{
    match (first, second) {
        (Some(word), None) => Some(word),
        _ => None,
    }
}

/// Returns both words, if there are two.
fn both<'a>(first: Option<&'a str>, second: Option<&'a str>) -> Option<(&'a str, &'a str)>
    ensures { option_map (λ words. (words.0.now, words.1.now)) result
        ≡ two_words (option_map (λ text. text.now) first.entry)
        (option_map (λ text. text.now) second.entry) }
{
    match (first, second) {
        (Some(one), Some(other)) => Some((one, other)),
        _ => None,
    }
}

/// Returns the work of this name with the words after it, if it takes this many.
fn task_of<'a>(work: &str, first: Option<&'a str>, second: Option<&'a str>) -> Option<Task<'a>>
    ensures { option_map task_value result ≡ task_in work.now
        (option_map (λ text. text.now) first.entry)
        (option_map (λ text. text.now) second.entry) }
{
    match work {
        "init" => {
            let config = only(first, second)?;
            Some(Task::Init { config })
        }
        "offer" => {
            let (channel, path) = both(first, second)?;
            Some(Task::Offer { channel, path })
        }
        "arrived" => {
            let channel = only(first, second)?;
            Some(Task::Arrived { channel })
        }
        "status" => {
            if has_none(first, second) {
                return Some(Task::Status);
            }
            None
        }
        "release" => {
            let (channel, count) = both(first, second)?;
            Some(Task::Release { channel, count })
        }
        "reconcile" => {
            let other = only(first, second)?;
            Some(Task::Reconcile { other })
        }
        _ => None,
    }
}

/// Checks that the options are those of the work.
fn check_task(words: &Words, task: Task<'_>) -> Result<(), OptionError>
    ensures { GivesIt result (fits_task (store_given words.now)
        (task_value task.entry)) }
{
    let stations = words.is_given("control") || words.text("terminal").is_some();
    let printing = words.is_given("text") || words.text("from").is_some();
    match task {
        Task::Init { .. } => unless(printing, OptionError::NeedsArrived),
        Task::Arrived { .. } => unless(stations, OptionError::NeedsInit),
        _ => {
            unless(stations, OptionError::NeedsInit)?;
            unless(printing, OptionError::NeedsArrived)
        }
    }
}

/// Returns the channel in `T.S`, or in `T` for address 0.
fn read_channel(text: &str) -> Result<StoreChannel, OptionError>
    ensures { Gives (λ channel. (channel.terminal, channel.select)) result
        (channel_read text.now) }
{
    match channel_of(text) {
        Some((terminal, select)) => Ok(StoreChannel { terminal, select }),
        None => Err(OptionError::ChannelForm),
    }
}

/// Returns the number of records in COUNT.
fn read_count(text: &str) -> Result<u32, OptionError>
    ensures { GivesIt result (count_in text.now) }
{
    match count_of(text) {
        Some(count) => Ok(count),
        None => Err(OptionError::Count),
    }
}

/// Returns the number of the first record that is printed.
fn read_first(from: Option<&str>) -> Result<u32, OptionError>
    ensures { GivesIt result (first_in (option_map (λ text. text.now) from.entry)) }
{
    match from {
        None => Ok(0),
        Some(text) => match count_of(text) {
            Some(first) => Ok(first),
            None => Err(OptionError::From),
        },
    }
}

/// Reads the work in the words, or returns the first reason for refusing them: the work and how
/// many words it takes, options of another work, and then the values.
pub fn read_store_work(words: &Words) -> Result<StoreWork<'_>, OptionError>
    ensures { Gives work_value result (work_in (store_given words.now)) }
{
    let (first, second) = (words.text("FIRST"), words.text("SECOND"));
    let Some(task) = task_of(words.text("WORK").unwrap_or(""), first, second) else {
        return Err(OptionError::StoreWork);
    };
    check_task(words, task)?;
    match task {
        Task::Init { config } => init(words, config),
        Task::Offer { channel, path } => offer(channel, path),
        Task::Arrived { channel } => arrived(words, channel),
        Task::Status => Ok(StoreWork::Status),
        Task::Release { channel, count } => release(channel, count),
        Task::Reconcile { other } => Ok(StoreWork::Reconcile { other }),
    }
}

/// Returns the work `init`.
fn init<'a>(words: &Words, config: &'a str) -> Result<StoreWork<'a>, OptionError>
    ensures { Gives work_value result (init_of (store_given words.now) config.entry.now) }
{
    let speaker = speaker_of(words.is_given("control"), words.text("terminal"))?;
    Ok(StoreWork::Init { config, speaker })
}

/// Returns the work `offer`.
fn offer<'a>(channel: &str, path: &'a str) -> Result<StoreWork<'a>, OptionError>
    ensures { Gives work_value result (offer_asked channel.now path.entry.now) }
{
    let channel = read_channel(channel)?;
    Ok(StoreWork::Offer { channel, path })
}

/// Returns the work `arrived`.
fn arrived<'a>(words: &Words, channel: &str) -> Result<StoreWork<'a>, OptionError>
    ensures { Gives work_value result (arrived_of (store_given words.now) channel.now) }
{
    let channel = read_channel(channel)?;
    let first = read_first(words.text("from"))?;
    let text = words.is_given("text");
    Ok(StoreWork::Arrived {
        channel,
        first,
        text,
    })
}

/// Returns the work `release`.
fn release<'a>(channel: &str, count: &str) -> Result<StoreWork<'a>, OptionError>
    ensures { Gives work_value result (release_of channel.now count.now) }
{
    let channel = read_channel(channel)?;
    let count = read_count(count)?;
    Ok(StoreWork::Release { channel, count })
}
