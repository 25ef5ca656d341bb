//! The reasons for refusing the options of a station, and the words of `store`.

ghost use Rattle.std.specs.Prelude.{◌≡◌, ◌++◌, codes};
ghost use Rattle.std.specs.Fmt.{WritesOnOk};
ghost use Rattle.bsc_options.specs.Errors.{is_conflict, plain_reason, refusal};

use std::fmt;

/// The reason for refusing the options of a station: the first of these, in the order of the
/// checks, that applies, up to `NoChannel`. Its last four are found after the configuration is
/// read, those of offers offer by offer. The other reasons are for refusing the words of `store`.
#[derive(Clone, Copy, Debug)]
pub enum OptionError {
    /// The value of an option is none of those that it takes.
    Value {
        option: &'static str,
        takes: &'static str,
    },

    /// An option is given without another one that it needs.
    Needs {
        option: &'static str,
        needed: &'static str,
    },

    /// Two options are given that exclude each other.
    Both {
        one: &'static str,
        other: &'static str,
    },

    /// Not exactly one of `--control` and `--terminal` is given.
    Station,

    /// The value of `--terminal` is not a number from 0 to 255.
    TerminalNumber,

    /// Not exactly one of `--listen` and `--connect` is given.
    Place,

    /// `--control` and `--connect` are given without `--shared`.
    ConnectNeedsShared,

    /// `--serve-anyone` is given with `--serve` at `unix:PATH`.
    ServeAnyoneNeedsServe,

    /// Standard input is used more than once, by CONFIG, `--offer` and `--until-input-ends`.
    RepeatedInput,

    /// The gap of `--raw` is not less than the time-out.
    GapNotBelowTimeOut,

    /// The pause that `--pause` gives is not less than half of the time-out.
    PauseNotBelowHalf,

    /// The value of an `--allow` is not an IP address, with or without a number of leading bits.
    AllowForm,

    /// `--allow` is given more than 16 times.
    TooManyNetworks,

    /// The value of a `--peer` is not `T=ADDRESS`.
    PeerForm,

    /// More than one `--peer` names the same terminal.
    RepeatedPeer,

    /// `--terminal` names a terminal that is not in the configuration.
    NoTerminal,

    /// A `--peer` names a terminal that is not in the configuration.
    NoPeer,

    /// The value of an `--offer` of the control station is not `T.S=PATH`.
    OfferForm,

    /// An `--offer` names a channel that is not in the configuration.
    NoChannel,

    /// WORK is not one of a store, or it does not take this many words.
    StoreWork,

    /// `--control` or `--terminal` is given with another work than `init`.
    NeedsInit,

    /// `--from` or `--text` is given with another work than `arrived`.
    NeedsArrived,

    /// CHANNEL is not `T` or `T.S`.
    ChannelForm,

    /// COUNT is not a number below 2^32.
    Count,

    /// The value of `--from` is not a number below 2^32.
    From,
}

impl OptionError {
    /// Returns the reason in words of an error without fields; it names the options at fault.
    fn plain_reason(self) -> &'static str
        ensures { result.now ≡ plain_reason self }
    {
        match self {
            OptionError::Value { .. } | OptionError::Needs { .. } | OptionError::Both { .. } => "",
            OptionError::Station => {
                "exactly one of --control and --terminal must say which station it is"
            }
            OptionError::TerminalNumber => "--terminal takes the number of a terminal",
            OptionError::Place => {
                "exactly one of --listen and --connect must say where its connections are"
            }
            OptionError::ConnectNeedsShared => "--control with --connect needs --shared",
            OptionError::ServeAnyoneNeedsServe => "--serve-anyone needs --serve with HOST:PORT",
            OptionError::RepeatedInput => {
                "CONFIG, --offer and --until-input-ends cannot use standard input more than once"
            }
            OptionError::GapNotBelowTimeOut => "with --raw the gap must be less than the time-out",
            OptionError::PauseNotBelowHalf => "--pause must be less than half of the time-out",
            OptionError::AllowForm => "--allow takes ADDRESS/BITS",
            OptionError::TooManyNetworks => "--allow cannot be given more than 16 times",
            OptionError::PeerForm => "--peer takes T=ADDRESS",
            OptionError::RepeatedPeer => "--peer cannot name a terminal more than once",
            OptionError::NoTerminal => "--terminal names a terminal that is not in CONFIG",
            OptionError::NoPeer => "--peer names a terminal that is not in CONFIG",
            OptionError::OfferForm => "--offer takes T.S=PATH at the control station",
            OptionError::NoChannel => "--offer names a channel that is not in CONFIG",
            OptionError::StoreWork => {
                "a work is init CONFIG, offer CHANNEL PATH, arrived CHANNEL, status, \
                    release CHANNEL COUNT or reconcile OTHER"
            }
            OptionError::NeedsInit => "--control and --terminal need init",
            OptionError::NeedsArrived => "--from and --text need arrived",
            OptionError::ChannelForm => "CHANNEL takes T or T.S",
            OptionError::Count => "COUNT takes a number, 0 to 4294967295",
            OptionError::From => "--from takes a number, 0 to 4294967295",
        }
    }

    /// Whether options contradict one another or one is missing; otherwise the value of one is
    /// wrong.
    pub fn is_conflict(self) -> bool
        ensures { result ≡ is_conflict (refusal self) }
    {
        match self {
            OptionError::Needs { .. }
            | OptionError::Both { .. }
            | OptionError::Station
            | OptionError::Place
            | OptionError::ConnectNeedsShared
            | OptionError::ServeAnyoneNeedsServe
            | OptionError::RepeatedInput
            | OptionError::GapNotBelowTimeOut
            | OptionError::PauseNotBelowHalf
            | OptionError::RepeatedPeer
            | OptionError::NeedsInit
            | OptionError::NeedsArrived => true,
            OptionError::Value { .. }
            | OptionError::TerminalNumber
            | OptionError::AllowForm
            | OptionError::TooManyNetworks
            | OptionError::PeerForm
            | OptionError::NoTerminal
            | OptionError::NoPeer
            | OptionError::OfferForm
            | OptionError::NoChannel
            | OptionError::StoreWork
            | OptionError::ChannelForm
            | OptionError::Count
            | OptionError::From => false,
        }
    }
}

/// Writes two words with a text between them, the first as the name of an option.
fn write_pair<W: fmt::Write>(
    f: &mut fmt::Formatter<W>,
    one: &str,
    between: &str,
    other: &str,
) -> fmt::Result
    ensures { WritesOnOk W.write_str_gives f.old result
        (codes "--" ++ one.now ++ between.now ++ other.now) f.new }
{
    f.write_str("--")?;
    f.write_str(one)?;
    f.write_str(between)?;
    f.write_str(other)
}

impl fmt::Display for OptionError {
    ghost use Rattle.std.specs.Prelude.{Some};
    ghost use Rattle.bsc_options.specs.Errors.{reason, refusal};

    ghost output = { λ error. Some (reason (refusal error)) };

    /// Writes the reason in words; it names the options at fault.
    fn fmt<W: fmt::Write>(&self, f: &mut fmt::Formatter<W>) -> fmt::Result {
        match *self {
            OptionError::Value { option, takes } => write_pair(f, option, " takes ", takes),
            OptionError::Needs { option, needed } => write_pair(f, option, " needs --", needed),
            OptionError::Both { one, other } => {
                write_pair(f, one, " and --", other)?;
                f.write_str(" cannot both be given")
            }
            error => f.write_str(error.plain_reason()),
        }
    }
}
