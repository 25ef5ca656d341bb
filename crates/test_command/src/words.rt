//! What the command prints for words that ask for help.

use crate::cases::{run, words_of};
use crate::machine::SILENT;
use crate::record::{Record, has};
use std::alloc::Global;
use std::test::Fail;

/// The help of the program.
const HELP: &str = "Print the names of the transmissions on standard input, one a line

Usage: bscline [COMMAND]

Commands:
  name     Print the name of one transmission
  show     Print the names of standard input, with the units of texts
  chart    Draw a trace as a ladder of stations
  run      Run a line over loopback sockets, and print what is on it
  station  Run one station of a line over TCP
  feed     Feed a running station: send commands to it and print its answers
  store    Do a work on the store of a station, while no station runs on it
  help     Print this message or the help of the given subcommand(s)

Options:
  -h, --help     Print help
  -V, --version  Print version

Example: echo 16 16 10 B0 FF | bscline
";

/// The help of `name`.
const NAME_HELP: &str = "Print the name of one transmission

Usage: bscline name <HEX>

Arguments:
  <HEX>  The octets in hexadecimal text; spaces are dropped

Options:
  -h, --help  Print help

Example: bscline name 161610B0FF
";

/// The help of `show`.
const SHOW_HELP: &str = "Print the names of standard input, with the units of texts

Usage: bscline show

Options:
  -h, --help  Print help

Example: echo 16 16 02 C8 49 19 83 9B FF | bscline show
";

/// The help of `chart`.
const CHART_HELP: &str = "Draw a trace as a ladder of stations

Usage: bscline chart [OPTIONS] [FILE]

Arguments:
  [FILE]  The trace; - or none is standard input

Options:
      --text       Draw a text, as without a form
      --svg        Draw a picture, as an SVG document of at most 5000 arrows
      --html       Draw a page, as an HTML document: that picture under a summary
      --ascii      Draw a text in ASCII characters only
      --width <N>  Cut the notes of a text to lines of N characters, 40 to 1000
      --from <N>   Draw from line N of the trace on; its first line is 1
      --to <M>     Draw up to line M of the trace
  -h, --help       Print help

Example: bscline chart examples/ladder/trace.txt
";

/// The help of `run`.
const RUN_HELP: &str = "Run a line over loopback sockets, and print what is on it

Usage: bscline run [OPTIONS] <CONFIG> <SCRIPT>

Arguments:
  <CONFIG>  The configuration, in TOML; - is standard input
  <SCRIPT>  The events, one a line; - is standard input

Options:
      --check  Read and check both, and run nothing
      --trace  Print what became of each transmission on standard error
      --quiet  Do not show progress on a terminal
  -h, --help   Print help

Example: bscline run examples/lossy_line/line.toml examples/lossy_line/script.txt
";

/// The help of `station`.
const STATION_HELP: &str = "Run one station of a line over TCP

Usage: bscline station [OPTIONS] <CONFIG>

Arguments:
  <CONFIG>  The configuration, in TOML; - is standard input

Options:
      --control             Be the control station
      --terminal <T>        Be terminal T, counted from 0
      --listen <ADDRESS>    Let peers connect at this address
      --allow <NETWORK>     Let only peers of this network, ADDRESS/BITS, connect; needs --listen
      --peer <T=ADDRESS>    Hear terminal T from this IP address only; needs --control and --listen
      --connect <ADDRESS>   Connect to a peer at this address
      --serve <ADDRESS>     Let programs feed the station at HOST:PORT or unix:PATH
      --serve-anyone        Let programs of other machines feed it; needs --serve with HOST:PORT
      --shared              Reach all terminals by one connection
      --raw                 Send octets as they stand; a gap ends a transmission
      --gap <MS>            The gap in milliseconds, less than the time-out, 50 unless given; \
needs --raw
      --time-out <MS>       The time-out in milliseconds, 1 to 3600000, 3000 unless given
      --patience <MS>       How long to try to connect, in milliseconds; the time-out unless given
      --replace-after <MS>  Let a newcomer replace what has not answered for MS, 3 time-outs \
unless given
      --begin-with <N>      Wait for N terminals before the first call, 0 to 64, 0 unless given
      --pause <MS>          Pause after a round in which nothing got through, in milliseconds, \
up to 20 unless given, with --serve 100
      --rounds <N>          End after N rounds of the poll list
      --idle-rounds <N>     End after N idle rounds in a row
      --batch               End once all is done, after 2 idle rounds in a row
      --absent-after <N>    Call a terminal less often after N visits without an answer, 2 unless \
given; 0 for never
      --retry-absent <S>    Call it again after S seconds, 1 to 3600, 30 unless given
      --until-input-ends    End when standard input ends
      --offer <OFFER>       Offer the lines of PATH: at a terminal PATH, at the control station \
T.S=PATH
      --store <FILE>        Keep the records in FILE, and begin with those that it has
      --text                Print records as text on one line, with escapes
      --bytes               Print records as they stand
      --numbers             Print with each record its number on its channel, counted from 0
      --report-records      Repeat the records that arrived in the report
      --sync                Sync standard output, if it is a file, before records are acknowledged
      --trace...            Print what is sent and heard on standard error; given twice, idle \
polls too
      --quiet               Do not show progress on a terminal
  -h, --help                Print help

Example: bscline station examples/lossy_line/line.toml --control --listen 127.0.0.1:2780 --text
";

/// The help of `feed`.
const FEED_HELP: &str = "Feed a running station: send commands to it and print its answers

Usage: bscline feed <ADDRESS> [COMMAND]...

Arguments:
  <ADDRESS>     Where the station serves: HOST:PORT or unix:PATH
  [COMMAND]...  The command; without it, each line of standard input is one

Options:
  -h, --help  Print help

Example: bscline feed unix:line.sock offer to 0 HELLO
";

/// The help of `store`.
const STORE_HELP: &str = "Do a work on the store of a station, while no station runs on it

Usage: bscline store [OPTIONS] <FILE> <WORK> [FIRST] [SECOND]

Arguments:
  <FILE>    The store
  <WORK>    init CONFIG, offer CHANNEL PATH, arrived CHANNEL, status, release CHANNEL COUNT, or \
reconcile OTHER
  [FIRST]   CONFIG in TOML, CHANNEL as T or T.S, or OTHER, the store of the other station
  [SECOND]  PATH of records, one a line, - is standard input; or COUNT, how many the other \
station has

Options:
      --control       Make the store of the control station; needs init
      --terminal <T>  Make the store of terminal T, counted from 0; needs init
      --from <N>      Print from record N on, counted from 0; needs arrived
      --text          Print records as text, with escapes; needs arrived
  -h, --help          Print help

Example: bscline store deck.db init examples/lossy_line/line.toml --terminal 0
";

/// Words, and what is printed for them.
const HELPED: &[(&str, &str)] = &[
    ("--help", HELP),
    ("help", HELP),
    ("-h", HELP),
    ("name -h", NAME_HELP),
    ("help name", NAME_HELP),
    ("help show", SHOW_HELP),
    ("chart --help", CHART_HELP),
    ("run --help", RUN_HELP),
    ("station --help", STATION_HELP),
    ("help station", STATION_HELP),
    ("feed --help", FEED_HELP),
    ("store --help", STORE_HELP),
    ("--version", "bscline 0.2.0\n"),
    ("-V", "bscline 0.2.0\n"),
];

/// Whether a command with these words prints this text and reads and requests nothing.
fn is_helped(alloc: Global, words: &str, text: &str) -> Result<bool, Fail> {
    let (record, mut input) = (Record::new(alloc), b"16 04".as_slice());
    let words = words_of(alloc, words)?;
    let status = run(alloc, Ok(words), &mut input, SILENT, &record)?;
    Ok(status == 0 && record.has_printed(text, "") && has(&record.asked, "") && input.len() == 5)
}

#[test]
fn help_is_printed(rt: HostRuntime) -> Result<(), Fail> {
    for (words, text) in HELPED {
        assert!(rt; is_helped(rt.alloc(), words, text)?, "{words}");
    }
    Ok(())
}
