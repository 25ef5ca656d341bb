//! The commands of the program with their arguments and options, as tables: their names, what they
//! take, what they need and exclude, and their help.

pub(crate) mod station;

use crate::entry::Takes::{Optional, Required, Rest, Value};
use crate::entry::{Entry, FLAG, Subcommand};
pub use station::STATION;

/// Prints the name of one transmission.
pub const NAME: Subcommand = Subcommand {
    name: "name",
    about: "Print the name of one transmission",
    example: "Example: bscline name 161610B0FF",
    entries: &[Entry {
        id: "HEX",
        takes: Required,
        help: "The octets in hexadecimal text; spaces are dropped",
        ..FLAG
    }],
};

/// Prints the names of transmissions, with the units of texts.
const SHOW: Subcommand = Subcommand {
    name: "show",
    about: "Print the names of standard input, with the units of texts",
    example: "Example: echo 16 16 02 C8 49 19 83 9B FF | bscline show",
    entries: &[],
};

/// Draws the ladder of a trace.
pub const CHART: Subcommand = Subcommand {
    name: "chart",
    about: "Draw a trace as a ladder of stations",
    example: "Example: bscline chart examples/ladder/trace.txt",
    entries: &[
        Entry {
            id: "FILE",
            takes: Optional,
            help: "The trace; - or none is standard input",
            ..FLAG
        },
        Entry {
            id: "text",
            help: "Draw a text, as without a form",
            ..FLAG
        },
        Entry {
            id: "svg",
            help: "Draw a picture, as an SVG document of at most 5000 arrows",
            ..FLAG
        },
        Entry {
            id: "html",
            help: "Draw a page, as an HTML document: that picture under a summary",
            ..FLAG
        },
        Entry {
            id: "ascii",
            help: "Draw a text in ASCII characters only",
            ..FLAG
        },
        Entry {
            id: "width",
            takes: Value,
            value: "N",
            help: "Cut the notes of a text to lines of N characters, 40 to 1000",
            ..FLAG
        },
        Entry {
            id: "from",
            takes: Value,
            value: "N",
            help: "Draw from line N of the trace on; its first line is 1",
            ..FLAG
        },
        Entry {
            id: "to",
            takes: Value,
            value: "M",
            help: "Draw up to line M of the trace",
            ..FLAG
        },
    ],
};

/// Runs a whole line.
pub const RUN: Subcommand = Subcommand {
    name: "run",
    about: "Run a line over loopback sockets, and print what is on it",
    example: "Example: bscline run examples/lossy_line/line.toml examples/lossy_line/script.txt",
    entries: &[
        Entry {
            id: "CONFIG",
            takes: Required,
            help: "The configuration, in TOML; - is standard input",
            ..FLAG
        },
        Entry {
            id: "SCRIPT",
            takes: Required,
            help: "The events, one a line; - is standard input",
            ..FLAG
        },
        Entry {
            id: "check",
            help: "Read and check both, and run nothing",
            ..FLAG
        },
        Entry {
            id: "trace",
            help: "Print what became of each transmission on standard error",
            ..FLAG
        },
        Entry {
            id: "quiet",
            help: "Do not show progress on a terminal",
            ..FLAG
        },
    ],
};

/// Feeds a running station.
pub const FEED: Subcommand = Subcommand {
    name: "feed",
    about: "Feed a running station: send commands to it and print its answers",
    example: "Example: bscline feed unix:line.sock offer to 0 HELLO",
    entries: &[
        Entry {
            id: "ADDRESS",
            takes: Required,
            help: "Where the station serves: HOST:PORT or unix:PATH",
            ..FLAG
        },
        Entry {
            id: "COMMAND",
            takes: Rest,
            help: "The command; without it, each line of standard input is one",
            ..FLAG
        },
    ],
};

/// Does a work on the store of a station.
pub const STORE: Subcommand = Subcommand {
    name: "store",
    about: "Do a work on the store of a station, while no station runs on it",
    example: "Example: bscline store deck.db init examples/lossy_line/line.toml --terminal 0",
    entries: &[
        Entry {
            id: "FILE",
            takes: Required,
            help: "The store",
            ..FLAG
        },
        Entry {
            id: "WORK",
            takes: Required,
            help: "init CONFIG, offer CHANNEL PATH, arrived CHANNEL, status, \
                release CHANNEL COUNT, or reconcile OTHER",
            ..FLAG
        },
        Entry {
            id: "FIRST",
            takes: Optional,
            help: "CONFIG in TOML, CHANNEL as T or T.S, or OTHER, the store of the other station",
            ..FLAG
        },
        Entry {
            id: "SECOND",
            takes: Optional,
            help: "PATH of records, one a line, - is standard input; or COUNT, how many the other \
                station has",
            ..FLAG
        },
        Entry {
            id: "control",
            help: "Make the store of the control station; needs init",
            ..FLAG
        },
        Entry {
            id: "terminal",
            takes: Value,
            value: "T",
            help: "Make the store of terminal T, counted from 0; needs init",
            ..FLAG
        },
        Entry {
            id: "from",
            takes: Value,
            value: "N",
            help: "Print from record N on, counted from 0; needs arrived",
            ..FLAG
        },
        Entry {
            id: "text",
            help: "Print records as text, with escapes; needs arrived",
            ..FLAG
        },
    ],
};

/// The commands for transmissions, traces and whole lines, in the order of the help.
pub const LINE_COMMANDS: &[Subcommand] = &[NAME, SHOW, CHART, RUN];

/// Those for one station, which come after them.
pub const STATION_COMMANDS: &[Subcommand] = &[STATION, FEED, STORE];
