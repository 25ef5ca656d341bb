//! The options of `bscline station`, as a table.

use crate::entry::Takes::{Count, Derived, Number, Required, Value, Values};
use crate::entry::{Entry, FLAG, Subcommand};

/// One hour, in milliseconds.
const HOUR: u64 = 3_600_000;

/// `--gap`.
pub(crate) const GAP: Entry = Entry {
    id: "gap",
    takes: Number {
        least: 1,
        most: HOUR,
        absent: 50,
    },
    value: "MS",
    kind: "milliseconds, 1 to 3600000",
    help: "The gap in milliseconds, less than the time-out, 50 unless given; needs --raw",
    needs: &["raw"],
    ..FLAG
};

/// `--time-out`.
pub(crate) const TIME_OUT: Entry = Entry {
    id: "time-out",
    takes: Number {
        least: 1,
        most: HOUR,
        absent: 3_000,
    },
    value: "MS",
    kind: "milliseconds, 1 to 3600000",
    help: "The time-out in milliseconds, 1 to 3600000, 3000 unless given",
    ..FLAG
};

/// `--patience`.
pub(crate) const PATIENCE: Entry = Entry {
    id: "patience",
    takes: Derived {
        least: 1,
        most: HOUR,
    },
    value: "MS",
    kind: "milliseconds, 1 to 3600000",
    help: "How long to try to connect, in milliseconds; the time-out unless given",
    needs: &["connect"],
    ..FLAG
};

/// `--replace-after`.
pub(crate) const REPLACE_AFTER: Entry = Entry {
    id: "replace-after",
    takes: Derived {
        least: 1,
        most: HOUR,
    },
    value: "MS",
    kind: "milliseconds, 1 to 3600000",
    help: "Let a newcomer replace what has not answered for MS, 3 time-outs unless given",
    needs: &["control", "listen"],
    ..FLAG
};

/// `--begin-with`.
pub(crate) const BEGIN_WITH: Entry = Entry {
    id: "begin-with",
    takes: Number {
        least: 0,
        most: 64,
        absent: 0,
    },
    value: "N",
    kind: "a number, 0 to 64",
    help: "Wait for N terminals before the first call, 0 to 64, 0 unless given",
    needs: &["control", "listen"],
    ..FLAG
};

/// `--pause`.
pub(crate) const PAUSE: Entry = Entry {
    id: "pause",
    takes: Derived {
        least: 0,
        most: HOUR,
    },
    value: "MS",
    kind: "milliseconds, 0 to 3600000",
    help: "Pause after a round in which nothing got through, in milliseconds, up to 20 \
        unless given, with --serve 100",
    needs: &["control"],
    ..FLAG
};

/// `--rounds`.
pub(crate) const ROUNDS: Entry = Entry {
    id: "rounds",
    takes: Derived {
        least: 1,
        most: u64::MAX,
    },
    value: "N",
    kind: "a number from 1 up",
    help: "End after N rounds of the poll list",
    needs: &["control"],
    ..FLAG
};

/// `--idle-rounds`.
pub(crate) const IDLE_ROUNDS: Entry = Entry {
    id: "idle-rounds",
    takes: Derived {
        least: 1,
        most: u64::MAX,
    },
    value: "N",
    kind: "a number from 1 up",
    help: "End after N idle rounds in a row",
    needs: &["control"],
    ..FLAG
};

/// `--batch`.
const BATCH: Entry = Entry {
    id: "batch",
    help: "End once all is done, after 2 idle rounds in a row",
    needs: &["control"],
    excludes: &["idle-rounds"],
    ..FLAG
};

/// `--absent-after`.
pub(crate) const ABSENT_AFTER: Entry = Entry {
    id: "absent-after",
    takes: Number {
        least: 0,
        most: u64::MAX,
        absent: 2,
    },
    value: "N",
    kind: "a number from 0 up",
    help: "Call a terminal less often after N visits without an answer, 2 unless given; 0 \
        for never",
    needs: &["control"],
    ..FLAG
};

/// `--retry-absent`.
pub(crate) const RETRY_ABSENT: Entry = Entry {
    id: "retry-absent",
    takes: Number {
        least: 1,
        most: 3_600,
        absent: 30,
    },
    value: "S",
    kind: "seconds, 1 to 3600",
    help: "Call it again after S seconds, 1 to 3600, 30 unless given",
    needs: &["control"],
    ..FLAG
};

/// Runs one station.
pub const STATION: Subcommand = Subcommand {
    name: "station",
    about: "Run one station of a line over TCP",
    example: "Example: bscline station examples/lossy_line/line.toml --control \
        --listen 127.0.0.1:2780 --text",
    entries: &[
        Entry {
            id: "CONFIG",
            takes: Required,
            help: "The configuration, in TOML; - is standard input",
            ..FLAG
        },
        Entry {
            id: "control",
            help: "Be the control station",
            ..FLAG
        },
        Entry {
            id: "terminal",
            takes: Value,
            value: "T",
            help: "Be terminal T, counted from 0",
            ..FLAG
        },
        Entry {
            id: "listen",
            takes: Value,
            value: "ADDRESS",
            help: "Let peers connect at this address",
            ..FLAG
        },
        Entry {
            id: "allow",
            takes: Values,
            value: "NETWORK",
            help: "Let only peers of this network, ADDRESS/BITS, connect; needs --listen",
            needs: &["listen"],
            ..FLAG
        },
        Entry {
            id: "peer",
            takes: Values,
            value: "T=ADDRESS",
            help: "Hear terminal T from this IP address only; needs --control and --listen",
            needs: &["control", "listen"],
            excludes: &["shared"],
            ..FLAG
        },
        Entry {
            id: "connect",
            takes: Value,
            value: "ADDRESS",
            help: "Connect to a peer at this address",
            ..FLAG
        },
        Entry {
            id: "serve",
            takes: Value,
            value: "ADDRESS",
            help: "Let programs feed the station at HOST:PORT or unix:PATH",
            ..FLAG
        },
        Entry {
            id: "serve-anyone",
            help: "Let programs of other machines feed it; needs --serve with HOST:PORT",
            needs: &["serve"],
            ..FLAG
        },
        Entry {
            id: "shared",
            help: "Reach all terminals by one connection",
            needs: &["control"],
            ..FLAG
        },
        Entry {
            id: "raw",
            help: "Send octets as they stand; a gap ends a transmission",
            ..FLAG
        },
        GAP,
        TIME_OUT,
        PATIENCE,
        REPLACE_AFTER,
        BEGIN_WITH,
        PAUSE,
        ROUNDS,
        IDLE_ROUNDS,
        BATCH,
        ABSENT_AFTER,
        RETRY_ABSENT,
        Entry {
            id: "until-input-ends",
            help: "End when standard input ends",
            ..FLAG
        },
        Entry {
            id: "offer",
            takes: Values,
            value: "OFFER",
            help: "Offer the lines of PATH: at a terminal PATH, at the control station T.S=PATH",
            excludes: &["store"],
            ..FLAG
        },
        Entry {
            id: "store",
            takes: Value,
            value: "FILE",
            help: "Keep the records in FILE, and begin with those that it has",
            ..FLAG
        },
        Entry {
            id: "text",
            help: "Print records as text on one line, with escapes",
            ..FLAG
        },
        Entry {
            id: "bytes",
            help: "Print records as they stand",
            excludes: &["text"],
            ..FLAG
        },
        Entry {
            id: "numbers",
            help: "Print with each record its number on its channel, counted from 0",
            ..FLAG
        },
        Entry {
            id: "report-records",
            help: "Repeat the records that arrived in the report",
            ..FLAG
        },
        Entry {
            id: "sync",
            help: "Sync standard output, if it is a file, before records are acknowledged",
            ..FLAG
        },
        Entry {
            id: "trace",
            takes: Count,
            help: "Print what is sent and heard on standard error; given twice, idle polls too",
            ..FLAG
        },
        Entry {
            id: "quiet",
            help: "Do not show progress on a terminal",
            ..FLAG
        },
    ],
};
