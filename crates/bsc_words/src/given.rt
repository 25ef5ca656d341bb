//! What `clap` has matched of the rows of a table.
ghost use Rattle.std.specs.Prelude.{◌≡◌, [], map, IfOk, option_map, string_bytes, unwrap_or};
ghost use Rattle.clap.specs.Words.{first_value, found_of, matched_of, raw_values, rows_of};
ghost use Rattle.bsc_options.specs.Entries.{entry_value};
ghost use Rattle.bsc_options.specs.Inputs.{one_if};
ghost use Rattle.bsc_options.specs.Words.{given_value, words_value};
ghost use Rattle.bsc_words.specs.Options.{given_in, is_true_text, words_in};

use bsc_options::{Entry, Given, Takes, Words};
use clap::ArgMatches;
use std::alloc::{AllocError, Global};

/// Returns what was given of these rows.
pub(crate) fn words_of(
    alloc: Global,
    entries: &[Entry],
    matches: &ArgMatches<'_>,
) -> Result<Words, AllocError>
    ensures { IfOk result (λ words. words_value words
        ≡ words_in (map entry_value entries.now) (rows_of (found_of matches.now))) }
{
    let mut given = Vec::new(alloc);
    'entries: for entry in entries {
        given.push(given_of(alloc, entry, matches)?)?;
    }
    Ok(Words { given })
}

/// Returns what was given of a row.
fn given_of(alloc: Global, entry: &Entry, matches: &ArgMatches<'_>) -> Result<Given, AllocError>
    ensures { IfOk result (λ given. given_value given
        ≡ given_in (rows_of (found_of matches.now)) (entry_value entry.now)) }
{
    let id = entry.id;
    match entry.takes {
        Takes::Flag => Ok(flagged(alloc, id, is_given(matches, id))),
        Takes::Count => Ok(counted(alloc, id, matches.get_count(id))),
        _ => Ok(Given {
            id,
            times: 0,
            texts: texts_at(alloc, matches, id)?,
        }),
    }
}

/// Returns what was given of a flag.
fn flagged(alloc: Global, id: &'static str, is_given: bool) -> Given
    ensures { given_value result ≡ record { id = id.now; times = one_if is_given; texts = [] } }
{
    counted(alloc, id, if is_given { 1 } else { 0 })
}

/// Returns what was given of an option without a value.
fn counted(alloc: Global, id: &'static str, times: u8) -> Given
    ensures { given_value result ≡ record { id = id.now; times = times; texts = [] } }
{
    Given {
        id,
        times,
        texts: Vec::new(alloc),
    }
}

/// Returns the texts of an argument, one for each time that it was given.
fn texts_at(alloc: Global, matches: &ArgMatches<'_>, id: &str) -> Result<Vec<String>, AllocError>
    ensures { IfOk result (λ s. map string_bytes s.items
        ≡ unwrap_or (option_map raw_values (matched_of (found_of matches.now) id.now)) []) }
{
    match matches.get_strs(id) {
        Some(texts) => texts_of(alloc, texts),
        None => Ok(Vec::new(alloc)),
    }
}

/// Returns owned copies of the texts.
fn texts_of(alloc: Global, texts: &[&str]) -> Result<Vec<String>, AllocError>
    ensures { IfOk result (λ s. map string_bytes s.items ≡ map (λ t. t.now) texts.now) }
{
    let mut own = Vec::new(alloc);
    'texts: for text in texts {
        own.push(String::from_str(alloc, text)?)?;
    }
    Ok(own)
}

/// Whether the flag was given. `clap` gives such a flag the text `true`.
fn is_given(matches: &ArgMatches<'_>, id: &str) -> bool
    ensures { result ≡ is_true_text (unwrap_or (first_value (found_of matches.now) id.now) []) }
{
    match matches.get_str(id) {
        Some(text) => text == "true",
        None => false,
    }
}
