//! The faults that end the command, with the text and the exit status of each.
ghost use Rattle.std.specs.Prelude.{◌≡◌, ◌≢◌};
ghost use Rattle.bsc_command.specs.Faults.{IsAttendingFault, IsChartFault, IsFeedingFault};
ghost use Rattle.bsc_command.specs.Faults.{IsRunningFault};
ghost use Rattle.bsc_command.specs.Faults.{IsTraceFault, IsUsageOf, storing_status_of};
ghost use Rattle.bsc_command.specs.Faults.{attending_status_of, options_kind, running_status_of};
ghost use Rattle.bsc_command.specs.Faults.{status_of};

use bsc_attending::AttendingError;
use bsc_chart::{ChartError, TraceError};
use bsc_clients::command::FeedError;
use bsc_options::OptionError;
use bsc_run::{RunError, RunningError};
use bsc_storing::StoringError;
use bsc_trace::naming::NamingError;
use bsc_words::{Shown, wrong_words};
use clap::error::ErrorKind;
use std::alloc::{AllocError, Global};
use thiserror::Error;

/// The reason why the command failed. [`fail`](crate::fail) prints the text on standard error, as
/// one line after the name of the program.
#[derive(Debug, Drop, Error)]
pub enum Fault {
    /// Not all names were printed.
    #[error(transparent)]
    Naming { error: NamingError },

    /// Not all of a trace was drawn.
    #[error(transparent)]
    Charting { error: TraceError },

    /// A run failed.
    #[error(transparent)]
    Running { error: RunningError },

    /// A station failed, or ended with a line that is not trusted, or with records not delivered or
    /// in doubt.
    #[error(transparent)]
    Attending { error: AttendingError },

    /// A station was not fed with all that was given.
    #[error(transparent)]
    Feeding { error: FeedError },

    /// A work on a store was not done.
    #[error(transparent)]
    Storing { error: StoringError },

    /// Standard output did not accept the text.
    #[error("output fault")]
    Output,

    /// An allocation failed while the arguments were read.
    #[error("out of memory")]
    OutOfMemory,

    /// The arguments are not a valid command line. The text is that of `clap`, several lines.
    #[error(transparent)]
    Usage(clap::Error),
}

impl From<AllocError> for Fault {
    ghost use Rattle.bsc_command.specs.declared.fault.Fault.TheVariants.{OutOfMemory};

    ghost from_gives = { λ _ fault. fault ≡ OutOfMemory };

    fn from(_error: AllocError) -> Fault {
        Fault::OutOfMemory
    }
}

impl From<NamingError> for Fault {
    ghost use Rattle.bsc_command.specs.declared.fault.Fault.TheVariants.{Naming};

    ghost from_gives = { λ error fault. fault ≡ Naming error };

    fn from(error: NamingError) -> Fault {
        Fault::Naming { error }
    }
}

impl From<clap::Error> for Fault {
    ghost use Rattle.bsc_command.specs.Faults.{IsWordsFault};

    ghost from_gives = { IsWordsFault };

    /// `clap` has one error type for out of memory and wrong usage; this separates the two.
    fn from(error: clap::Error) -> Fault {
        match error.kind() {
            ErrorKind::OutOfMemory => Fault::OutOfMemory,
            _ => Fault::Usage(error),
        }
    }
}

/// Returns the fault for wrong arguments, with this reason and the usage of a command.
fn words_fault(alloc: Global, shown: Shown, kind: ErrorKind, why: &str) -> Fault
    requires { kind ≢ ErrorKind.OutOfMemory }
    ensures { IsUsageOf kind result }
{
    Fault::from(wrong_words(alloc, shown, kind, why))
}

/// Returns the fault for the trace that was named and not drawn.
pub(crate) fn trace_fault(alloc: Global, error: TraceError) -> Fault
    ensures { IsTraceFault error result }
{
    match error {
        TraceError::Chart { error } => chart_fault(alloc, error),
        error => Fault::Charting { error },
    }
}

/// Returns the fault for a trace that was not drawn. Several forms, a wrong width and a wrong line
/// are wrong usage.
fn chart_fault(alloc: Global, error: ChartError) -> Fault
    ensures { IsChartFault error result }
{
    match error {
        ChartError::Forms => {
            let why = "--text, --svg and --html exclude one another";
            words_fault(alloc, Shown::Chart, ErrorKind::ArgumentConflict, why)
        }
        ChartError::Lines => {
            let why = "--from or --to is not the number of a line";
            words_fault(alloc, Shown::Chart, ErrorKind::InvalidValue, why)
        }
        ChartError::Width => {
            let why = "--width is not from 40 to 1000";
            words_fault(alloc, Shown::Chart, ErrorKind::InvalidValue, why)
        }
        error => Fault::Charting {
            error: TraceError::Chart { error },
        },
    }
}

/// Returns the fault for a failed run. Wrong arguments are wrong usage.
pub(crate) fn running_fault(alloc: Global, error: RunningError) -> Fault
    ensures { IsRunningFault error result }
{
    match error {
        RunningError::BothStandardInput => {
            let why = "CONFIG and SCRIPT cannot both be standard input";
            words_fault(alloc, Shown::Run, ErrorKind::ArgumentConflict, why)
        }
        error => Fault::Running { error },
    }
}

/// Returns the fault for refused options of a command: they conflict, or one is missing, or a value
/// is wrong.
fn options_fault(alloc: Global, shown: Shown, error: OptionError) -> Fault
    ensures { IsUsageOf (options_kind error) result }
{
    let Ok(why) = error.to_string(alloc) else {
        return Fault::OutOfMemory;
    };
    if error.is_conflict() {
        words_fault(alloc, shown, ErrorKind::ArgumentConflict, why.as_str())
    } else {
        words_fault(alloc, shown, ErrorKind::InvalidValue, why.as_str())
    }
}

/// Returns the fault for a failed station. Wrong arguments are wrong usage.
pub(crate) fn attending_fault(alloc: Global, error: AttendingError) -> Fault
    ensures { IsAttendingFault error result }
{
    match error {
        AttendingError::Options { error } => options_fault(alloc, Shown::Station, error),
        error => Fault::Attending { error },
    }
}

/// Returns the fault for a station that was not fed. Words that are more than one line are wrong
/// usage.
pub(crate) fn feeding_fault(alloc: Global, error: FeedError) -> Fault
    ensures { IsFeedingFault error result }
{
    match error {
        FeedError::NotOneLine => {
            let why = "COMMAND is more than one line";
            words_fault(alloc, Shown::Feed, ErrorKind::InvalidValue, why)
        }
        error => Fault::Feeding { error },
    }
}

/// Returns the fault for words of `store` that are refused.
pub(crate) fn store_words_fault(alloc: Global, error: OptionError) -> Fault
    ensures { IsUsageOf (options_kind error) result }
{
    options_fault(alloc, Shown::Store, error)
}

/// Returns the fault for an argument that is not UTF-8, with the error kind of any other wrong
/// value in `clap`.
pub fn not_text(alloc: Global) -> Fault
    ensures { IsUsageOf ErrorKind.InvalidValue result }
{
    let why = "a word is not UTF-8";
    words_fault(alloc, Shown::Program, ErrorKind::InvalidValue, why)
}

/// Returns the exit status of the program: 2 for wrong usage, and for a station also for a wrong
/// configuration; 3 if the line refused an event of a
/// script, a station ended in doubt, or a doubt was not released; 4 if a station ended with
/// undelivered records; 5 if a control station ended and could not trust its line; 6 if a station
/// could not print records that arrived; 7 if it could not keep what happened; 1 for every other
/// fault.
pub fn status(fault: &Fault) -> u8
    ensures { result ≡ status_of fault.now }
{
    match fault {
        Fault::Usage(_) => 2,
        Fault::Running { error } => running_status(error),
        Fault::Attending { error } => attending_status(error),
        Fault::Storing { error } => storing_status(error),
        _ => 1,
    }
}

/// Returns the exit status of a failed run.
fn running_status(error: &RunningError) -> u8
    ensures { result ≡ running_status_of error.now }
{
    match error {
        RunningError::BothStandardInput => 2,
        RunningError::Run {
            error: RunError::Refused { .. },
        } => 3,
        _ => 1,
    }
}

/// Returns the exit status of a failed station.
fn attending_status(error: &AttendingError) -> u8
    ensures { result ≡ attending_status_of error.now }
{
    match error {
        AttendingError::Options { .. } | AttendingError::Config { .. } => 2,
        AttendingError::InDoubt => 3,
        AttendingError::Undelivered => 4,
        AttendingError::NotTrusted => 5,
        AttendingError::Unprinted => 6,
        AttendingError::Unkept { .. } => 7,
        _ => 1,
    }
}

/// Returns the exit status of a work on a store that was not done.
fn storing_status(error: &StoringError) -> u8
    ensures { result ≡ storing_status_of error.now }
{
    match error {
        StoringError::NoTerminal => 2,
        StoringError::Release { .. } | StoringError::Apart => 3,
        _ => 1,
    }
}
