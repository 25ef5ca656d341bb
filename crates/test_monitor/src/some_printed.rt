//! Records that are printed a few at a time.

use crate::stations::{add, control_of};
use bsc_control::Control;
use bsc_report::{RecordLines, print_some};
use bsc_station::Party;
use bsc_text::Form;
use std::alloc::Global;
use std::test::Fail;
use test_fixtures::Full;
use test_fixtures::configurations::TWO_TERMINALS;

/// The lines of records as text, with their numbers.
const LINES: RecordLines = RecordLines {
    form: Form::Text,
    numbers: true,
};

/// How many records may be printed, in turn, at a station at which two records arrived on the first
/// channel and three on the other; how many more could have been, and what is printed.
const TURNS: &[(usize, usize, &str)] = &[
    (0, 0, ""),
    (1, 0, "from 0 0: A\n"),
    (3, 0, "from 0 1: A\nfrom 1 0: B\nfrom 1 1: B\n"),
    (5, 4, "from 1 2: B\n"),
];

/// Prints in a turn; `None` if it cannot be.
fn print_turn(
    alloc: Global,
    control: &Control<Global>,
    printed: &mut [usize],
    most: usize,
    out: &mut Vec<u8>,
) -> Option<usize> {
    if printed.len() != control.spools() {
        return None;
    }
    print_some(alloc, LINES, control, printed, most, out).ok()
}

/// Whether a record is told that is not taken.
fn is_refused(alloc: Global, control: &Control<Global>) -> bool {
    if control.spools() != 2 {
        return false;
    }
    print_some(alloc, LINES, control, &mut [0; 2], 2, &mut Full { left: 1 }).is_err()
}

/// Whether the records are printed in turns.
fn are_printed(alloc: Global, control: &Control<Global>) -> bool {
    let mut printed = [0; 2];
    for (most, left, text) in TURNS {
        let mut out = Vec::new(alloc);
        let told = print_turn(alloc, control, &mut printed, *most, &mut out);
        if told != Some(*left) || out.as_slice() != text.as_bytes() {
            return false;
        }
    }
    true
}

#[test]
fn records_are_printed_in_turns(rt: HostRuntime) -> Result<(), Fail> {
    let mut control = control_of(rt.alloc(), TWO_TERMINALS)?;
    let is_full = add(&mut control, 0, b"A", 2).is_some()
        && add(&mut control, 1, b"B", 3).is_some();
    assert!(rt; is_full && are_printed(rt.alloc(), &control) && is_refused(rt.alloc(), &control));
    Ok(())
}

/// The octets of the line of a record of 144 characters each of which is printed as four.
const LONGEST: usize = "from 0 0: \n".len() + 4 * 144;

#[test]
fn the_longest_line_has_less_than_640_octets(rt: HostRuntime) -> Result<(), Fail> {
    let mut control = control_of(rt.alloc(), TWO_TERMINALS)?;
    assert!(rt; add(&mut control, 0, &[0x07; 144], 1).is_some());
    let mut out = Vec::new(rt.alloc());
    let left = print_turn(rt.alloc(), &control, &mut [0; 2], 1, &mut out);
    assert!(rt; left == Some(0) && out.len() == LONGEST);
    // The longest number has 19 digits more, and the longest name of a channel two characters.
    assert!(rt; LONGEST + 19 + 2 <= 640);
    Ok(())
}
