//! The arguments of the command line.
ghost use Rattle.std.specs.Prelude.{◌≡◌, ◌⊎◌, [], map, IfOk, IfErr, IfSome, OnOk};
ghost use Rattle.std.specs.Prelude.{string_bytes};
ghost use Rattle.clap.specs.Words.{HasKind, app_of, kind_of, subcommand_rows_of};
ghost use Rattle.bsc_options.specs.Asked.{asked};
ghost use Rattle.bsc_text.specs.Forms.{escaped};
ghost use Rattle.bsc_words.specs.CommandLine.{asked_of, asked_sub, bscline_app, faults_at};
ghost use Rattle.bsc_words.specs.CommandLine.{line_shapes, program_app};
ghost use Rattle.bsc_words.specs.Options.{with_shapes};

use crate::entries::{command_of, with_subcommands};
use crate::given::words_of;
use bsc_options::{
    Asked, CHART, FEED, LINE_COMMANDS, NAME, RUN, STATION, STATION_COMMANDS, STORE, Subcommand,
};
use bsc_text::Escaped;
use clap::error::ErrorKind;
use clap::{ArgMatches, Command, Error};
use std::alloc::{AllocError, Global};

/// Returns the program without its commands. Its usage names it so, whatever the first argument is.
fn program<'a>(alloc: Global) -> Result<Command<'a>, AllocError>
    ensures { IfOk result (λ c. app_of c ≡ program_app) }
{
    Command::new(alloc, "bscline")
        .about("Print the names of the transmissions on standard input, one a line")
        .after_help("Example: echo 16 16 10 B0 FF | bscline")
        .version("0.2.0")
        .bin_name("bscline")
}

/// Returns the program with its commands for transmissions, traces and whole lines.
fn with_lines<'a>(alloc: Global) -> Result<Command<'a>, AllocError>
    ensures { IfOk result (λ c. app_of c ≡ with_shapes program_app line_shapes) }
{
    let program = program(alloc)?;
    with_subcommands(alloc, program, LINE_COMMANDS)
}

/// Returns the command line of `bscline`.
fn command_line<'a>(alloc: Global) -> Result<Command<'a>, AllocError>
    ensures { IfOk result (λ c. app_of c ≡ bscline_app) }
{
    let program = with_lines(alloc)?;
    with_subcommands(alloc, program, STATION_COMMANDS)
}

/// Returns the work that the matches ask for.
fn work_of(alloc: Global, matches: &ArgMatches<'_>) -> Result<Asked, AllocError>
    ensures { IfOk result (λ w. asked w ≡ asked_sub (subcommand_rows_of matches.now)) }
{
    match matches.subcommand() {
        None => Ok(Asked::Names),
        Some((sub, inner)) => match sub {
            "name" => Ok(Asked::Name {
                words: words_of(alloc, NAME.entries, inner)?,
            }),
            "chart" => Ok(Asked::Chart {
                words: words_of(alloc, CHART.entries, inner)?,
            }),
            "run" => Ok(Asked::Run {
                words: words_of(alloc, RUN.entries, inner)?,
            }),
            "station" => Ok(Asked::Station {
                words: words_of(alloc, STATION.entries, inner)?,
            }),
            "feed" => Ok(Asked::Feed {
                words: words_of(alloc, FEED.entries, inner)?,
            }),
            "store" => Ok(Asked::Store {
                words: words_of(alloc, STORE.entries, inner)?,
            }),
            _ => Ok(Asked::Show),
        },
    }
}

/// Returns the arguments as they are printed.
fn words_in_print(alloc: Global, words: &[&str]) -> Result<Vec<String>, AllocError>
    ensures { IfOk result (λ printed.
        map string_bytes printed.items ≡ map (λ s. escaped s.now) words.now) }
{
    let mut printed = Vec::new(alloc);
    'words: for word in words {
        printed.push(Escaped(word.as_bytes()).to_string(alloc)?)?;
    }
    Ok(printed)
}

/// Returns the error of `clap` for the arguments as they are printed, or `None` if there is none.
fn refusal_in_print(alloc: Global, words: &[&str]) -> Result<Option<Error>, AllocError>
    ensures { IfOk result (λ refusal. IfSome refusal (HasKind (faults_at
        (map (λ s. escaped s.now) words.now)))) }
{
    let printed = words_in_print(alloc, words)?;
    let command_line = command_line(alloc)?;
    match command_line.try_get_matches_from(&printed) {
        Ok(_) => Ok(None),
        Err(error) => Ok(Some(error)),
    }
}

/// Returns the error that is shown for arguments that `clap` refuses with this error: the one for
/// the arguments as they are printed, since `clap` shows them as they are. The help and the version
/// show none of them.
fn in_print(alloc: Global, words: &[&str], error: Error) -> Error
    ensures { (kind_of result ≡ kind_of error) ⊎ (kind_of result ≡ ErrorKind.OutOfMemory) }
{
    let kind = error.kind();
    match kind {
        ErrorKind::DisplayHelp | ErrorKind::DisplayVersion | ErrorKind::OutOfMemory => error,
        _ => match refusal_in_print(alloc, words) {
            Ok(Some(refusal)) if refusal.kind() == kind => refusal,
            Ok(_) => wrong_words(alloc, Shown::Program, kind, "the words are wrong"),
            Err(error) => Error::from(error),
        },
    }
}

/// Returns the work that the arguments ask for. The first argument is the name of the program. The
/// text of an error has the arguments as [`Escaped`] prints them.
pub fn read_words(alloc: Global, words: &[&str]) -> Result<Asked, Error>
    ensures asked { IfOk result (λ w. asked w ≡ asked_of (map (λ s. s.now) words.now)) }
    ensures kinds { IfErr result (HasKind (faults_at (map (λ s. s.now) words.now))) }
    ensures fits { OnOk result (faults_at (map (λ s. s.now) words.now) ≡ []) }
{
    let command_line = command_line(alloc)?;
    match command_line.try_get_matches_from(words) {
        Ok(matches) => Ok(work_of(alloc, &matches)?),
        Err(error) => Err(in_print(alloc, words, error)),
    }
}

/// The command whose usage an error shows.
#[derive(Clone, Copy)]
pub enum Shown {
    /// The program with the names of its commands.
    Program,

    /// `chart`.
    Chart,

    /// `run`.
    Run,

    /// `station`.
    Station,

    /// `feed`.
    Feed,

    /// `store`.
    Store,
}

/// Returns the command whose usage is shown.
fn shown_command<'a>(alloc: Global, shown: Shown) -> Result<Command<'a>, AllocError> {
    match shown {
        Shown::Program => command_line(alloc),
        Shown::Chart => named_command(alloc, &CHART, "bscline chart"),
        Shown::Run => named_command(alloc, &RUN, "bscline run"),
        Shown::Station => named_command(alloc, &STATION, "bscline station"),
        Shown::Feed => named_command(alloc, &FEED, "bscline feed"),
        Shown::Store => named_command(alloc, &STORE, "bscline store"),
    }
}

/// Returns the command for a row, with this name in its usage.
fn named_command<'a>(
    alloc: Global,
    row: &'a Subcommand,
    name: &'a str,
) -> Result<Command<'a>, AllocError> {
    command_of(alloc, row)?.bin_name(name)
}

/// Returns the error of `clap` for a wrong value, or for values that conflict, with this reason and
/// the usage of a command.
pub fn wrong_words(alloc: Global, shown: Shown, kind: ErrorKind, why: &str) -> Error
    ensures { (kind_of result ≡ kind) ⊎ (kind_of result ≡ ErrorKind.OutOfMemory) }
{
    match wrong_words_error(alloc, shown, kind, why) {
        Ok(error) => error,
        Err(error) => Error::from(error),
    }
}

/// Returns the error of [`wrong_words`], or out of memory.
fn wrong_words_error(
    alloc: Global,
    shown: Shown,
    kind: ErrorKind,
    why: &str,
) -> Result<Error, AllocError>
    ensures { IfOk result (λ e. kind_of e ≡ kind) }
{
    let mut command = shown_command(alloc, shown)?;
    command.error(kind, why)
}
