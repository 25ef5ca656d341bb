//! Lines and words that are refused, by their bounds, streams that fail, refused growths, and large
//! traces: the longest lines, and the most rows.

use crate::ladders::{drawn, words_of};
use bsc_chart::{ChartError, draw};
use bsc_text::{MAX_INPUT, Unreadable};
use std::alloc::{AllocError, Global};
use std::io;
use std::io::{Error, ErrorKind, Read};
use std::test::Fail;
use test_alloc::{Refusal, Refusing};
use test_fixtures::Full;

/// Two lines of a trace among others: one that is skipped, and two that are passed over.
const JOURNAL: &str = "\n+7 silence\n+8\n+9 silence\nfrom 0: HI";

/// Whether as many lines of a text are passed over, and the same is drawn of the others.
fn are_passed(alloc: Global, asked: &str, count: u64) -> Result<bool, ChartError> {
    let (mut out, mut plain) = (Vec::new(alloc), Vec::new(alloc));
    drawn(alloc, "+7 silence\n+9 silence", asked, &mut plain)?;
    let passed = drawn(alloc, JOURNAL, asked, &mut out)?;
    Ok(passed == count && out.as_slice() == plain.as_slice())
}

#[test]
fn other_lines_are_passed_over(rt: HostRuntime) -> Result<(), Fail> {
    for asked in FORMS {
        assert!(rt; are_passed(rt.alloc(), asked, 2)?, "{asked}");
    }
    Ok(())
}

/// Words, and whether they are taken: widths at their bounds, a width that the terminal tells and
/// that is none, two forms, and numbers of lines that are none.
const WORDS: &[(&str, bool)] = &[
    ("width=1000", true),
    ("width=40", true),
    ("width=39", false),
    ("width=1001", false),
    ("width=18446744073709551617", false),
    ("columns=x", true),
    ("text svg", false),
    ("text html", false),
    ("svg html", false),
    ("from=0", false),
    ("to=x", false),
];

/// Whether words are taken, or refused by a fault of words with nothing written.
fn are_taken(alloc: Global, asked: &str) -> Result<bool, ChartError> {
    let mut out = Vec::new(alloc);
    match drawn(alloc, "+7 silence", asked, &mut out) {
        Ok(_) => Ok(true),
        Err(ChartError::Width | ChartError::Forms | ChartError::Lines) => Ok(!out.is_empty()),
        Err(error) => Err(error),
    }
}

#[test]
fn words_are_taken_up_to_their_bounds(rt: HostRuntime) -> Result<(), Fail> {
    for (asked, is_right) in WORDS {
        assert!(rt; are_taken(rt.alloc(), asked)? == *is_right, "{asked}");
    }
    Ok(())
}

/// Each form, and a number of writes, of which it needs more for this trace.
const WRITES: &[(&str, usize)] = &[("", 11), ("svg", 20), ("html", 20)];

/// Whether a write that fails after this many others is told.
fn is_told(alloc: Global, asked: &str, left: usize) -> bool {
    let Ok(words) = words_of(alloc, asked) else {
        return false;
    };
    let mut trace = "+7 silence\n+8 terminal 0 heard TEXT ETX 1 161602c84919839bff".as_bytes();
    let answer = draw(alloc, &words, None, &mut trace, &mut Full { left });
    matches!(answer, Err(ChartError::Output))
}

#[test]
fn failing_writes_are_told(rt: HostRuntime) {
    for (asked, most) in WRITES {
        for left in 0..=*most {
            assert!(rt; is_told(rt.alloc(), asked, left), "{asked} {left}");
        }
    }
}

/// Gives this text, and then fails.
#[derive(Drop)]
struct Broken {
    text: &'static [u8],
}

impl Read for Broken {
    fn read(&mut self, buffer: &mut [u8]) -> io::Result<usize> {
        if self.text.is_empty() {
            return Err(Error::from(ErrorKind::Interrupted));
        }
        self.text.read(buffer)
    }
}

/// Whether a read that fails after a part of a line is told, and the same is drawn as of the rows
/// before it.
fn is_drawn_before(alloc: Global, text: &'static [u8], rows: &str) -> Result<bool, ChartError> {
    let (mut out, mut before) = (Vec::new(alloc), Vec::new(alloc));
    drawn(alloc, rows, "", &mut before)?;
    let answer = draw(
        alloc,
        &words_of(alloc, "")?,
        None,
        &mut Broken { text },
        &mut out,
    );
    let why = Unreadable::ReadFault;
    Ok(answer == Err(ChartError::Input { why }) && out.as_slice() == before.as_slice())
}

#[test]
fn failing_read(rt: HostRuntime) -> Result<(), Fail> {
    assert!(rt; is_drawn_before(rt.alloc(), b"+7 silence\n+8 silence", "+7 silence")?);
    Ok(())
}

/// A silence and a text.
const TRACE: &str = "+7 silence\n+8 terminal 0 heard TEXT ETX 1 161602c84919839bff\n";

/// Whether the result is right: out of memory if a growth was refused, and otherwise the ladder.
fn is_due(alloc: Global, asked: &str, refusing: &Refusing<Global>) -> bool {
    let Ok(words) = words_of(alloc, asked) else {
        return false;
    };
    let mut out = Vec::new(alloc);
    let answer = draw(refusing, &words, None, &mut TRACE.as_bytes(), &mut out);
    let is_refused = refusing.refused() > 0;
    match answer {
        Ok(_) => !is_refused,
        Err(ChartError::Memory) => is_refused,
        Err(_) => false,
    }
}

/// Each growth is refused in turn, and all from each one on.
#[test]
fn each_growth_is_refused(rt: HostRuntime) -> Result<(), Fail> {
    let alloc = Refusing::new(rt.alloc());
    for asked in ["", "html"] {
        for refusal in [Refusal::Nth, Refusal::From] {
            for number in alloc.in_turn(refusal, 4..99) {
                number?;
                assert!(rt; is_due(rt.alloc(), asked, &alloc), "{asked}");
            }
        }
    }
    Ok(())
}

/// The forms.
const FORMS: &[&str] = &["", "svg", "html"];

/// The longest line with digits after this front, and then this end.
fn longest(alloc: Global, front: &str, end: &str) -> Result<String, AllocError> {
    let count = (MAX_INPUT - front.len().min(99)) / 2;
    let digits = "16".repeat(alloc, count)?;
    format!(in alloc; "{front}{digits}{end}")
}

/// Whether a line is drawn; if not, whether it is too long.
fn is_drawn(alloc: Global, line: &str, asked: &str) -> Result<bool, ChartError> {
    match drawn(alloc, line, asked, &mut Vec::new(alloc)) {
        Ok(_) => Ok(true),
        Err(ChartError::TooLongAt { line: 1 } | ChartError::TooMany) => Ok(false),
        Err(error) => Err(error),
    }
}

/// Whether a line is drawn in each form, or in none.
fn is_each_drawn(alloc: Global, line: &str, is_due: bool) -> Result<bool, ChartError> {
    for asked in FORMS {
        if is_drawn(alloc, line, asked)? != is_due {
            return Ok(false);
        }
    }
    Ok(true)
}

/// Whether the longest transmission is drawn in each form, and so is the longest text that is told;
/// a longer one is refused.
const LONGEST: &[(&str, &str, bool)] = &[
    ("+0 control sent NOISE ", "", true),
    ("+0 not ", "", true),
    ("+0 not ", "99", false),
];

#[test]
fn the_longest_lines_are_drawn(rt: HostRuntime) -> Result<(), Fail> {
    for (front, end, is_due) in LONGEST {
        let line = longest(rt.alloc(), front, end)?;
        assert!(rt; is_each_drawn(rt.alloc(), &line, *is_due)?, "{front}{end}");
    }
    Ok(())
}

/// Lines of which a picture has at most 20,000: rows, and addresses of stations.
const KEPT: &[&str] = &["+7 silence\n", "+0 terminal 0 is A, selected as a\n"];

/// Whether a picture has this line so many times.
fn is_kept(alloc: Global, line: &str, count: usize) -> Result<bool, ChartError> {
    is_drawn(alloc, &line.repeat(alloc, count)?, "svg")
}

#[test]
fn a_picture_may_have_20000_rows(rt: HostRuntime) -> Result<(), Fail> {
    for line in KEPT {
        assert!(rt; is_kept(rt.alloc(), line, 20_000)?, "{line}");
        assert!(rt; !is_kept(rt.alloc(), line, 20_001)?, "{line}");
    }
    Ok(())
}
