//! What each operation of `bscline store` prints and keeps, also on stores of which calls fail. The
//! standard input of each is the longest record.

use crate::machine::LONGEST;
use crate::script::{Row, play};
use std::test::Fail;

/// Both stores of a line are made, and nothing is made twice.
const MADE: &[Row] = &[
    "control init line.toml --control => control station: store made\n",
    "terminal init line.toml --terminal 0 => terminal 0: store made\n",
    "terminal init line.toml --terminal 0 => refused: there is something in the file already",
];

/// What the terminal has after its records were offered, and after two of them are known.
const OFFERED: Row = "terminal status => from 0: offered 3, known 0, in doubt 0\n\
    to 0.0: arrived 0, printed 0\nto 0.1: arrived 0, printed 0\n";

const RELEASED: Row = "terminal status => from 0: offered 3, known 2, in doubt 0\n\
    to 0.0: arrived 0, printed 0\nto 0.1: arrived 0, printed 0\n";

/// What is offered, from a file and from standard input, and what the stores have then.
const OFFERS: &[Row] = &[
    "terminal offer 0 cards.txt => from 0: offered 3\n",
    OFFERED,
    "terminal offer 0 - => from 0: offered 1\n",
    "terminal offer 0 wrong.txt => refused: wrong.txt line 2: wrong character at 0",
    "terminal offer 0 long.txt => refused: long.txt line 2: record too long",
    "control offer 0.1 cards.txt => to 0.1: offered 3\n",
    "control status => from 0: arrived 0, printed 0\nto 0.0: offered 0, known 0, in doubt 0\n\
    to 0.1: offered 3, known 0, in doubt 0\nfrom 1: arrived 0, printed 0\n\
    to 1: offered 0, known 0, in doubt 0\n",
];

#[test]
fn what_is_offered_is_told(rt: HostRuntime) -> Result<(), Fail> {
    play(rt.alloc(), LONGEST, MADE, OFFERS)
}

/// What arrived, all of it, from the second record on, and after the last.
const ARRIVED: &[Row] = &[
    "control hears ONE",
    "control hears TWO",
    "control arrived 0 --text => ONE\nTWO\n",
    "control arrived 0 --from 1 => 54574f\n",
    "control arrived 0 --from 2 --text => ",
    "control arrived 0 --from 4294967295 => ",
];

#[test]
fn what_arrived_is_printed(rt: HostRuntime) -> Result<(), Fail> {
    play(rt.alloc(), LONGEST, MADE, ARRIVED)
}

/// What is refused. A text is read before the store is opened.
const REFUSED: &[Row] = &[
    "terminal offer 0.1 cards.txt => refused: the station has no such channel",
    "terminal offer 1 cards.txt => refused: the station has no such channel",
    "terminal arrived 0.2 --text => refused: the station has no such channel",
    "none offer 0 none.txt => refused: cannot read none.txt: no such file",
    "control reconcile control => refused: the other store: it is the same store",
    "none status => refused: there is no store",
    "new init line.toml --terminal 2 => refused: --terminal names a terminal that is not in CONFIG",
    "new init cards.txt --terminal 0 => refused: config: not toml: line 1",
    "terminal release 0 4294967295 => refused: not in doubt",
];

#[test]
fn each_refusal_has_its_text(rt: HostRuntime) -> Result<(), Fail> {
    play(rt.alloc(), LONGEST, MADE, REFUSED)
}

/// Both stores are made, and the terminal has a doubt about the first two of its three records.
const IN_DOUBT: &[Row] = &[
    "control init line.toml --control => control station: store made\n",
    "terminal init line.toml --terminal 0 => terminal 0: store made\n",
    "terminal offer 0 cards.txt => from 0: offered 3\n",
    "terminal knows 0 2",
];

/// A doubt about two records is ended by 0 or 2 only.
const RELEASES: &[Row] = &[
    "terminal release 0 1 => refused: count mismatch",
    "terminal release 0 2 => from 0: released at 2\n",
    RELEASED,
];

#[test]
fn a_doubt_is_released_by_a_right_count(rt: HostRuntime) -> Result<(), Fail> {
    play(rt.alloc(), LONGEST, IN_DOUBT, RELEASES)
}

/// One of two doubtful records has arrived, and the doubt stays; both have, and it is ended; then
/// the store of the control station is an older copy.
const COMPARED: &[Row] = &[
    "control hears ONE",
    "control reconcile terminal => from 0: arrived but not known: 1\n\
    refused: the stores do not fit together: one of them is an older copy",
    "terminal status => from 0: offered 3, known 0, in doubt 2\nto 0.0: arrived 0, printed 0\n\
    to 0.1: arrived 0, printed 0\n",
    "control hears TWO",
    "terminal reconcile control => from 0: released at 2\n",
    RELEASED,
    "control reconcile terminal => nothing in doubt\n",
    "terminal knows 3 0",
    "terminal reconcile control => from 0: known but not arrived: 1\n\
    refused: the stores do not fit together: one of them is an older copy",
];

#[test]
fn a_doubt_is_released_by_what_both_have(rt: HostRuntime) -> Result<(), Fail> {
    play(rt.alloc(), LONGEST, IN_DOUBT, COMPARED)
}

/// The doubt of the control station fits, that of the terminal does not, and both stay; then both
/// fit; then the store of the control station is an older copy, on a channel in each direction.
const COMPARED_BOTH_WAYS: &[Row] = &[
    "control offer 0.1 cards.txt => to 0.1: offered 3\n",
    "control knows 0 2",
    "terminal hears BACK",
    "terminal hears BACK",
    "control hears ONE",
    "control reconcile terminal => from 0: arrived but not known: 1\n\
    refused: the stores do not fit together: one of them is an older copy",
    "control status => from 0: arrived 1, printed 0\nto 0.0: offered 0, known 0, in doubt 0\n\
    to 0.1: offered 3, known 0, in doubt 2\nfrom 1: arrived 0, printed 0\n\
    to 1: offered 0, known 0, in doubt 0\n",
    "control hears TWO",
    "terminal reconcile control => from 0: released at 2\nto 0.1: released at 2\n",
    "terminal status => from 0: offered 3, known 2, in doubt 0\nto 0.0: arrived 0, printed 0\n\
    to 0.1: arrived 2, printed 0\n",
    "control status => from 0: arrived 2, printed 0\nto 0.0: offered 0, known 0, in doubt 0\n\
    to 0.1: offered 3, known 2, in doubt 0\nfrom 1: arrived 0, printed 0\n\
    to 1: offered 0, known 0, in doubt 0\n",
    "terminal knows 3 0",
    "terminal hears BACK",
    "terminal reconcile control => from 0: known but not arrived: 1\n\
    to 0.1: arrived but not known: 1\n\
    refused: the stores do not fit together: one of them is an older copy",
];

#[test]
fn each_channel_of_two_stores_is_compared(rt: HostRuntime) -> Result<(), Fail> {
    play(rt.alloc(), LONGEST, IN_DOUBT, COMPARED_BOTH_WAYS)
}

/// What is kept although it could not be printed: offers, and the end of a doubt about two records
/// that have arrived.
const UNPRINTED: &[(&[Row], &[Row])] = &[
    (MADE, &["unprinted terminal offer 0 cards.txt", OFFERED]),
    (
        IN_DOUBT,
        &[
            "control hears ONE",
            "control hears TWO",
            "unprinted terminal release 0 2",
            RELEASED,
        ],
    ),
    (
        IN_DOUBT,
        &[
            "control hears ONE",
            "control hears TWO",
            "unprinted control reconcile terminal",
            RELEASED,
        ],
    ),
];

#[test]
fn what_could_not_be_printed_is_kept(rt: HostRuntime) -> Result<(), Fail> {
    for (before, rows) in UNPRINTED {
        play(rt.alloc(), LONGEST, before, rows)?;
    }
    Ok(())
}

/// What fails while the terminal has a doubt about two records that have arrived, which stays until
/// a close is what fails. What was kept is kept in the log then, so that nothing is told of it.
const FAILING: &[Row] = &[
    "control hears ONE",
    "control hears TWO",
    "terminal fails at commits",
    "terminal offer 0 cards.txt => refused: the disk is full",
    "terminal release 0 2 => refused: the disk is full",
    "control reconcile terminal => refused: the other store: the disk is full",
    "terminal reconcile control => refused: the disk is full",
    "terminal fails at reads",
    "terminal status => refused: the store cannot be read or written",
    "terminal release 0 2 => refused: the store cannot be read or written",
    "control reconcile terminal => \
    refused: the other store: the store cannot be read or written",
    "terminal reconcile control => refused: the store cannot be read or written",
    "control fails at reads",
    "control arrived 0 --text => refused: the store cannot be read or written",
    "control reconcile terminal => refused: the store cannot be read or written",
    "terminal reconcile control => \
    refused: the other store: the store cannot be read or written",
    "terminal fails at closes",
    "terminal offer 0 cards.txt => from 0: offered 3\n",
    "control reconcile terminal => from 0: released at 2\n",
    "control fails at closes",
    "control arrived 0 --text => ONE\nTWO\n",
    "control reconcile terminal => nothing in doubt\n",
];

#[test]
fn what_fails_of_a_store_is_told_by_its_name(rt: HostRuntime) -> Result<(), Fail> {
    play(rt.alloc(), LONGEST, IN_DOUBT, FAILING)
}
