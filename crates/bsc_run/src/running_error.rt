//! The reasons why a run fails.
ghost use Rattle.std.specs.Prelude.{◌≡◌};

use crate::RunError;
use bsc_carrier::loopback::LoopbackError;
use bsc_config::ConfigError;
use bsc_config::script::ScriptError;
use bsc_text::TextError;
use thiserror::Error;

/// The reason why a run failed. Out of memory is always `Memory`.
#[derive(Debug, Drop, Error)]
pub enum RunningError {
    /// The configuration and the script cannot both be standard input.
    #[error("CONFIG and SCRIPT cannot both be standard input")]
    BothStandardInput,

    /// The text of the configuration or of the script could not be read.
    #[error("{error}")]
    Text { error: TextError },

    /// The configuration is refused.
    #[error("{error}")]
    Config { error: ConfigError },

    /// A line of the script is not an event.
    #[error("{error}")]
    Script { error: ScriptError },

    /// The connections of the line could not be made.
    #[error("cannot make the sockets")]
    Sockets,

    /// The run ended before the end of the script.
    #[error("{error}")]
    Run { error: RunError },

    /// An allocation failed.
    #[error("out of memory")]
    Memory,
}

impl From<TextError> for RunningError {
    ghost use Rattle.bsc_run.specs.Errors.{text_error};

    ghost from_gives = { λ error running. running ≡ text_error error };

    fn from(error: TextError) -> RunningError {
        match error {
            TextError::Memory => RunningError::Memory,
            error => RunningError::Text { error },
        }
    }
}

impl From<ConfigError> for RunningError {
    ghost use Rattle.bsc_run.specs.Errors.{config_error};

    ghost from_gives = { λ error running. running ≡ config_error error };

    fn from(error: ConfigError) -> RunningError {
        match error {
            ConfigError::Memory => RunningError::Memory,
            error => RunningError::Config { error },
        }
    }
}

impl From<ScriptError> for RunningError {
    ghost use Rattle.bsc_run.specs.Errors.{script_error};

    ghost from_gives = { λ error running. running ≡ script_error error };

    fn from(error: ScriptError) -> RunningError {
        match error {
            ScriptError::Memory => RunningError::Memory,
            error => RunningError::Script { error },
        }
    }
}

impl From<LoopbackError> for RunningError {
    ghost use Rattle.bsc_run.specs.Errors.{loopback_error};

    ghost from_gives = { λ error running. running ≡ loopback_error error };

    fn from(error: LoopbackError) -> RunningError {
        match error {
            LoopbackError::Sockets => RunningError::Sockets,
            LoopbackError::Memory => RunningError::Memory,
        }
    }
}

impl From<RunError> for RunningError {
    ghost use Rattle.bsc_run.specs.Errors.{run_error};

    ghost from_gives = { λ error running. running ≡ run_error error };

    fn from(error: RunError) -> RunningError {
        match error {
            RunError::Memory => RunningError::Memory,
            error => RunningError::Run { error },
        }
    }
}
