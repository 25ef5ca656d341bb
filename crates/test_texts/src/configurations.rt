//! Configurations that are read, or refused: a row for each form, each error and each bound, and
//! the longest ones.

use crate::inputs::repeated;
use bsc_bid::{Setup, Terminal};
use bsc_config::{Config, ConfigError, read_config};
use bsc_text::MAX_INPUT;
use std::alloc::Global;
use std::test::Fail;
use test_fixtures::configurations::TWO_TERMINALS;

/// Whether a document has this result: `read` if it is a configuration, otherwise the message of
/// the error after `config: `.
fn is_answer(alloc: Global, document: &str, answer: &str) -> Result<bool, Fail> {
    match read_config(alloc, document.as_bytes()) {
        Ok(_) => Ok(answer == "read"),
        Err(error) => {
            let text = error.to_string(alloc)?;
            Ok(text.as_str().strip_prefix("config: ") == Some(answer))
        }
    }
}

/// Whether a document has the result that follows it in its row after `=>`. This text stands at the
/// end of the document.
fn is_told(alloc: Global, row: &str, end: &str) -> Result<bool, Fail> {
    let (front, answer) = row.split_once(" => ").ok_or("no row")?;
    let document = format!(in alloc; "{front}{end}")?;
    is_answer(alloc, &document, answer)
}

/// The addresses of a terminal: its polling address, and its selection addresses.
type Addresses<'a> = (&'a str, &'a [&'a str]);

/// A document, and the configuration that it describes.
struct Configuration<'a> {
    document: &'a str,

    /// The full length, the characters of a block, the tries and the waits.
    settings: (u8, u16, u8, u8),

    terminals: &'a [Addresses<'a>],
    poll_list: &'a [u8],
}

/// Two terminals, each with one selection address.
const TWO: &[Addresses<'static>] = &[("A", &["a"]), ("B", &["b"])];

const CONFIGURATIONS: &[Configuration<'static>] = &[
    Configuration {
        document: "version = 1
poll_list = [0, 1]

[[terminals]]
poll = \"A\"
select = \"a\"

[[terminals]]
poll = \"B\"
select = \"b\"
",
        settings: (80, 400, 3, 10),
        terminals: TWO,
        poll_list: &[0, 1],
    },
    // The same line in version 2, with its keys in another order.
    Configuration {
        document: "terminals = [
  { select = [\"a\"], poll = \"A\" }, # the first
  { poll = \"B\", select = [\"b\"] },
]
poll_list = [0, 1]
version = 2
",
        settings: (80, 400, 3, 10),
        terminals: TWO,
        poll_list: &[0, 1],
    },
    // The same line with each number given, in lines that end with a carriage return.
    Configuration {
        document: "version = 1\r\npoll_list = [0, 1]\r\nfull = 0x51\r\nblock_chars = 3_00\r
tries = +7\r\nwaits = 255\r\n\r\n[[terminals]]\r\npoll = \"A\"\r\nselect = \"a\"\r
[[terminals]]\r\npoll = \"B\"\r\nselect = \"b\"\r\n",
        settings: (81, 300, 7, 255),
        terminals: TWO,
        poll_list: &[0, 1],
    },
    // Four selection addresses of up to seven characters, whose order is kept.
    Configuration {
        document: "version = 2
poll_list = [0, 0]
terminals = [{ poll = \"A\", select = [\"!\", \"c\", \"abcdefg\", \"~\"] }]
",
        settings: (80, 400, 3, 10),
        terminals: &[("A", &["!", "c", "abcdefg", "~"])],
        poll_list: &[0, 0],
    },
];

/// Whether a terminal has exactly this polling address and these selection addresses.
fn has_addresses(terminal: &Terminal, (poll, selects): &Addresses<'_>) -> bool {
    if terminal.poll().codes() != poll.as_bytes() || terminal.selects() != selects.len() {
        return false;
    }
    for (place, select) in selects.iter().enumerate() {
        if terminal.select(place).codes() != select.as_bytes() {
            return false;
        }
    }
    true
}

/// Whether the terminals have exactly these addresses.
fn have_addresses(terminals: &[Terminal], wanted: &[Addresses<'_>]) -> bool {
    if terminals.len() != wanted.len() {
        return false;
    }
    for (place, addresses) in wanted.iter().enumerate() {
        if !has_addresses(&terminals[place], addresses) {
            return false;
        }
    }
    true
}

/// Whether these are the expected settings.
fn is_setup(setup: Setup, (full, block_chars, tries, waits): (u8, u16, u8, u8)) -> bool {
    match Setup::new(full, block_chars, tries, waits) {
        Ok(other) => other == setup,
        Err(_) => false,
    }
}

/// Whether a document is read as the expected configuration.
fn is_read(alloc: Global, wanted: &Configuration<'_>) -> bool {
    match read_config(alloc, wanted.document.as_bytes()) {
        Ok(config) => {
            is_setup(config.setup(), wanted.settings)
                && config.terminals() == wanted.terminals.len()
                && have_addresses(config.terminal_list(), wanted.terminals)
                && config.poll_list() == wanted.poll_list
        }
        Err(_) => false,
    }
}

#[test]
fn a_configuration_keeps_what_its_document_says(rt: HostRuntime) {
    for wanted in CONFIGURATIONS {
        assert!(rt; is_read(rt.alloc(), wanted), "{}", wanted.document);
    }
}

/// Documents and, after `=>`, their results.
const DOCUMENTS: &[&str] = &[
    // Texts that are not TOML documents.
    "version => not toml: line 1",
    "version = 1\nversion = 1\n => not toml: line 2",
    // The least unknown key of the document, and then those of the terminals, before any missing
    // key. A key is printed as it is read.
    "zz = 1\nyy = 2 => unknown key yy",
    "version = 2\n'é k' = 0 => unknown key é k",
    "[[terminals]]\nready = true\n[other] => unknown key other",
    "[[terminals]]\n[[terminals]]\nready = 1\nname = 1 => unknown key terminals[1].name",
    // Missing keys in their order, before any wrong value.
    "full = 0 => missing key version",
    "version = 9 => missing key poll_list",
    "version = 9\npoll_list = 9 => missing key terminals",
    "version = 9\npoll_list = 9\n[[terminals]]\n[[terminals]] => missing key terminals[0].poll",
    "version = 9\npoll_list = 9\n[[terminals]]\npoll = 9 => missing key terminals[0].select",
    // Wrong values in their order, before any refusal.
    "tries = 0\nversion = 0\npoll_list = 0\nterminals = 0 => wrong value of version",
    "version = 3\npoll_list = 0\nterminals = 0 => wrong value of version",
    "version = 2\npoll_list = [0, 256]\nterminals = 0 => wrong value of poll_list",
    "version = 2\npoll_list = []\nterminals = [{x = 1}, 1] => wrong value of terminals",
    // Refusals of the line.
    "version = 2\npoll_list = []\nterminals = [] => no terminal",
];

/// A line before the two terminals of the examples, and the result.
const LINES: &[&str] = &[
    "full = 0\n => wrong value of full",
    "full = 1\n => read",
    "full = 144\n => read",
    "full = 145\n => wrong value of full",
    "full = 80.0\n => wrong value of full",
    "full = 9223372036854775808\n => not toml: line 1",
    "block_chars = 145\n => wrong value of block_chars",
    "block_chars = 146\n => read",
    "block_chars = 400\n => read",
    "block_chars = 401\n => wrong value of block_chars",
    "tries = 0\n => wrong value of tries",
    "tries = 1\n => read",
    "tries = 15\n => read",
    "tries = 16\n => wrong value of tries",
    "waits = 0\n => wrong value of waits",
    "waits = 1\n => read",
    "waits = 255\n => read",
    "waits = 256\n => wrong value of waits",
];

/// A version and a poll list, after `:` the first terminal, and the result. The second terminal is
/// polled by B, and selected by b as in version 2.
const TERMINALS: &[&str] = &[
    "1\npoll_list = [0]: {poll = 'A B', select = 'a'} => wrong value of terminals[0].poll",
    "1\npoll_list = [0]: {poll = 'A', select = ['a']} => wrong value of terminals[0].select",
    "2\npoll_list = [0]: {poll = 'A', select = 'a'} => wrong value of terminals[0].select",
    "2\npoll_list = [0]: {poll = 'A', select = []} => wrong value of terminals[0].select",
    "2\npoll_list = [0]: {poll = 'A', select = ['a', 'c', 'd', 'e', 'f']} => wrong value of \
    terminals[0].select",
    // Addresses that are the same are reported with their numbers, before an empty poll list.
    "2\npoll_list = []: {poll = 'A', select = ['A']} => addresses 0 and 1 are the same",
    "2\npoll_list = []: {poll = 'A', select = ['a', 'b']} => addresses 2 and 4 are the same",
    "2\npoll_list = []: {poll = 'A', select = ['a']} => poll list is empty",
    "2\npoll_list = [0, 2]: {poll = 'A', select = ['a']} => poll list entry 1 is wrong",
    "2\npoll_list = [1]: {poll = 'A', select = ['a']} => read",
];

/// Whether a configuration with the first terminal of the row has its result.
fn is_terminal_told(alloc: Global, row: &str) -> Result<bool, Fail> {
    let (version, rest) = row.split_once(": ").ok_or("no row")?;
    let row = format!(in alloc; "version = {version}\nterminals = [{rest}")?;
    is_told(alloc, &row, ", {poll = 'B', select = ['b']}]\n")
}

#[test]
fn the_first_fault_of_a_configuration_is_told(rt: HostRuntime) -> Result<(), Fail> {
    for row in DOCUMENTS {
        assert!(rt; is_told(rt.alloc(), row, "")?, "{row}");
    }
    for row in LINES {
        assert!(rt; is_told(rt.alloc(), row, TWO_TERMINALS)?, "{row}");
    }
    for row in TERMINALS {
        assert!(rt; is_terminal_told(rt.alloc(), row)?, "{row}");
    }
    Ok(())
}

/// Octets that are not UTF-8 are not a TOML document.
#[test]
fn octets_that_are_no_text_are_not_toml(rt: HostRuntime) -> Result<(), Fail> {
    let error = read_config(rt.alloc(), b"# \xff\n").err();
    assert!(rt; matches!(error, Some(ConfigError::NotToml { .. })));
    Ok(())
}

/// A document with the greatest settings, the most terminals, the most selection addresses of each,
/// the longest addresses and the longest poll list, in as many octets as an input may have.
fn longest(alloc: Global) -> Result<String, Fail> {
    let mut text = format!(in alloc;
        "version = 2\nfull = 144\nblock_chars = 400\ntries = 15\nwaits = 255\npoll_list = [0"
    )?;
    for entry in 1..255usize {
        write!(text, ", {}", entry % 64)?;
    }
    text.push_str("]\n")?;
    for number in 10..74usize {
        write!(
            text,
            "[[terminals]]\npoll = \"POLL-{number}\"\n\
            select = [\"ONE--{number}\", \"TWO--{number}\", \"THREE{number}\", \"FOUR-{number}\"]\n"
        )?;
    }
    for _ in text.len()..MAX_INPUT {
        text.push_str("\n")?;
    }
    Ok(text)
}

/// Parts of the longest configuration that are replaced, and what is told of it then.
const LAST_PARTS: &[(&str, &str, &str)] = &[
    ("FOUR-73", "FIVE-73", "read"),
    ("FOUR-73", "THREE73", "addresses 318 and 319 are the same"),
    ("FOUR-73", "FOUR--73", "wrong value of terminals[63].select"),
    ("poll = \"POLL-73\"", "", "missing key terminals[63].poll"),
    (
        "poll = \"POLL-73\"",
        "pole = \"POLL-73\"",
        "unknown key terminals[63].pole",
    ),
    (", 62]", ", 62, 0]", "poll list entry 255 is wrong"),
];

/// Whether this is the answer to the document if a part is replaced by another one.
fn is_replaced(
    alloc: Global,
    document: &str,
    (part, other, answer): &(&str, &str, &str),
) -> Result<bool, Fail> {
    let Some((before, after)) = document.split_once(*part) else {
        return Ok(false);
    };
    let document = format!(in alloc; "{before}{other}{after}")?;
    is_answer(alloc, document.as_str(), answer)
}

/// The longest configuration is read, and a fault at its end has its own message.
#[test]
fn the_last_parts_of_the_longest_configuration_are_checked(rt: HostRuntime) -> Result<(), Fail> {
    let document = longest(rt.alloc())?;
    assert!(rt; document.len() == 1_048_576);
    for row in LAST_PARTS {
        assert!(rt;
            is_replaced(rt.alloc(), document.as_str(), row)?,
            "{}",
            row.1
        );
    }
    Ok(())
}

/// How often parts of documents and of their results are repeated. A fault after a million lines
/// has their number, 65 terminals are too many, and the longest key is told whole.
const LONG: &[(usize, &str)] = &[
    (1_000_000, "<\n>? => not toml: line 1000001"),
    (
        65,
        "version = 2\npoll_list = []\nterminals = [<{poll = 'A', select = ['a']}, >] => too many \
        terminals",
    ),
    (1_000_000, "<k> = 1\n => unknown key <k>"),
];

/// Whether the document of a row whose parts are repeated has its result.
fn is_long_told(alloc: Global, (count, row): &(usize, &str)) -> Result<bool, Fail> {
    is_told(alloc, &repeated(alloc, row, *count)?, "")
}

#[test]
fn a_fault_is_told_whatever_its_length(rt: HostRuntime) -> Result<(), Fail> {
    for row in LONG {
        assert!(rt; is_long_told(rt.alloc(), row)?, "{}", row.1);
    }
    Ok(())
}
