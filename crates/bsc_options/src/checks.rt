//! The rules by which options fit the station and one another.

ghost use Rattle.std.specs.Prelude.{map};
ghost use Rattle.bsc_options.specs.Entries.{entry_value, fits_entry, fits_station, fits_table};
ghost use Rattle.bsc_options.specs.Entries.{has_needed, has_none_of};
ghost use Rattle.bsc_options.specs.Errors.{refusal};
ghost use Rattle.bsc_options.specs.Readings.{GivesIt};
ghost use Rattle.bsc_options.specs.Settings.{fits_together, unless as error_unless};
ghost use Rattle.bsc_options.specs.Words.{words_value};

use crate::entry::Entry;
use crate::inputs::repeats_input;
use crate::serves::is_at_address;
use crate::tables::STATION;
use crate::{OptionError, Words};
use bsc_bid::Speaker;

/// Returns an error if a rule is broken.
pub(crate) fn unless(is_broken: bool, why: OptionError) -> Result<(), OptionError>
    ensures { GivesIt result (error_unless is_broken (refusal why)) }
{
    if is_broken { Err(why) } else { Ok(()) }
}

/// Checks that all options are given that this one needs.
fn check_needed(words: &Words, entry: &Entry) -> Result<(), OptionError>
    ensures { GivesIt result (has_needed (entry_value entry.now).id (words_value words.now)
        (entry_value entry.now).needs) }
{
    'needed: for needed in entry.needs {
        if !words.is_given(*needed) {
            return Err(OptionError::Needs {
                option: entry.id,
                needed: *needed,
            });
        }
    }
    Ok(())
}

/// Checks that no option is given that this one excludes.
fn check_excluded(words: &Words, entry: &Entry) -> Result<(), OptionError>
    ensures { GivesIt result (has_none_of (entry_value entry.now).id (words_value words.now)
        (entry_value entry.now).excludes) }
{
    'others: for other in entry.excludes {
        if words.is_given(*other) {
            return Err(OptionError::Both {
                one: *other,
                other: entry.id,
            });
        }
    }
    Ok(())
}

/// Checks that an option fits those that are given too.
fn check_entry(words: &Words, entry: &Entry) -> Result<(), OptionError>
    ensures { GivesIt result (fits_entry (words_value words.now) (entry_value entry.now)) }
{
    if !words.is_given(entry.id) {
        return Ok(());
    }
    check_needed(words, entry)?;
    check_excluded(words, entry)
}

/// Checks that all options of a table fit one another.
fn check_table(words: &Words, entries: &[Entry]) -> Result<(), OptionError>
    ensures { GivesIt result (fits_table (words_value words.now) (map entry_value entries.now)) }
{
    'entries: for entry in entries {
        check_entry(words, entry)?;
    }
    Ok(())
}

/// Checks that all options of a station fit one another.
#[tactic(auto, unfolding(crate::specs::Entries::fits_station))]
pub(crate) fn check_station(words: &Words) -> Result<(), OptionError>
    ensures { GivesIt result (fits_station (words_value words.now)) }
{
    check_table(words, STATION.entries)
}

/// Checks what a table does not say of how the options fit the station and one another.
pub(crate) fn check_together(words: &Words, speaker: Speaker) -> Result<(), OptionError>
    ensures { GivesIt result (fits_together (words_value words.now) speaker) }
{
    let is_unshared = words.is_given("control") && !words.is_given("shared");
    let is_broken = is_unshared && words.is_given("connect");
    unless(is_broken, OptionError::ConnectNeedsShared)?;
    let is_broken = words.is_given("serve-anyone") && !is_at_address(words.text("serve"));
    unless(is_broken, OptionError::ServeAnyoneNeedsServe)?;
    unless(repeats_input(words, speaker), OptionError::RepeatedInput)
}
