//! The text of a line in a store, right and damaged.

use bsc_spool::StoreFault;
use bsc_storing::read_line_text;
use std::alloc::Global;
use std::test::Fail;

/// The station, the full length, the number of terminals, and the lines of these in right texts.
const RIGHT: &[(&str, u8, usize, &str)] = &[
    ("control station", 1, 1, "polled 41 selected 61"),
    ("terminal 0", 2, 1, "polled 41 selected 61 62"),
    ("terminal 255", 79, 1, "polled 41 selected 61 62 63 64"),
    ("terminal 1", 144, 2, TWO),
];

const TWO: &str = "polled 41 selected 61 62 63\npolled 42303030303030 selected 65303030303030";

/// Damaged texts: lines that are missing, doubled, or have wrong words, numbers or addresses.
const DAMAGED: &[&str] = &[
    "",
    "control station",
    "control station\nfull length 80",
    "full length 80\npolled 41 selected 61\n",
    "control station\npolled 41 selected 61\n",
    "control station\ncontrol station\nfull length 80\npolled 41 selected 61\n",
    "control station\nfull length 80\nfull length 80\npolled 41 selected 61\n",
    "control\nfull length 80\npolled 41 selected 61\n",
    "terminal\nfull length 80\npolled 41 selected 61\n",
    "terminal 256\nfull length 80\npolled 41 selected 61\n",
    "terminal 1x\nfull length 80\npolled 41 selected 61\n",
    "terminal 0\nfull length 0\npolled 41 selected 61\n",
    "terminal 0\nfull length 145\npolled 41 selected 61\n",
    "terminal 0\nfull length 256\npolled 41 selected 61\n",
    "terminal 0\nfull length \npolled 41 selected 61\n",
    "terminal 0\nlength 80\npolled 41 selected 61\n",
    "terminal 0\nfull length 80\n\npolled 41 selected 61\n",
    "terminal 0\nfull length 80\npolled 41 selected 61\nand more\npolled 42 selected 62\n",
    "terminal 0\nfull length 80\npolled 41 selected 61\npolled 42 selected 62\n\n",
    "terminal 0\nfull length 80\npolled 41\n",
    "terminal 0\nfull length 80\nselected 61\n",
    "terminal 0\nfull length 80\npolled 41 selected \n",
    "terminal 0\nfull length 80\npolled  selected 61\n",
    "terminal 0\nfull length 80\npolled 4 selected 61\n",
    "terminal 0\nfull length 80\npolled 41 selected 6\n",
    "terminal 0\nfull length 80\npolled 4g selected 61\n",
    "terminal 0\nfull length 80\npolled 41 selected c1\n",
    "terminal 0\nfull length 80\npolled 4141414141414141 selected 61\n",
    "terminal 0\nfull length 80\npolled 41 selected 61  62\n",
    "terminal 0\nfull length 80\npolled 41 selected 61 62 63 64 65\n",
];

/// Whether a right text is read with this full length and this number of terminals.
fn is_read(alloc: Global, text: &str, full: u8, terminals: usize) -> bool {
    match read_line_text(alloc, text) {
        Ok(line) => line.full == full && line.terminals.len() == terminals,
        Err(_) => false,
    }
}

/// Whether a text is refused as damaged.
fn is_damaged(alloc: Global, text: &str) -> bool {
    matches!(read_line_text(alloc, text), Err(StoreFault::Damaged))
}

#[test]
fn only_the_text_of_a_line_is_read(rt: HostRuntime) -> Result<(), Fail> {
    for (station, full, count, terminals) in RIGHT {
        let text = format!(in rt.alloc(); "{station}\nfull length {full}\n{terminals}\n")?;
        assert!(rt; is_read(rt.alloc(), &text, *full, *count), "{text}");
    }
    for text in DAMAGED {
        assert!(rt; is_damaged(rt.alloc(), text), "{text}");
    }
    Ok(())
}
