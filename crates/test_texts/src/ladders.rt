//! Traces, and the ladders that are drawn of them.

use bsc_chart::{ChartError, draw};
use bsc_options::{Given, Words};
use std::alloc::{AllocError, Global};

/// A trace, the words with which it is drawn, and the ladder.
type Row = (&'static str, &'static str, &'static str);

/// The options without a value.
const FLAGS: &[&str] = &["text", "svg", "html", "ascii"];

/// Those with one, and what comes before it.
const VALUES: &[(&str, &str)] = &[("width", "width="), ("from", "from="), ("to", "to=")];

/// The value after this name and before a space, if the name is there.
fn value_of(alloc: Global, asked: &str, name: &str) -> Result<Option<String>, AllocError> {
    let Some((_, rest)) = asked.split_once(name) else {
        return Ok(None);
    };
    let value = match rest.split_once(' ') {
        Some((value, _)) => value,
        None => rest,
    };
    Ok(Some(String::from_str(alloc, value)?))
}

/// The words that are asked for: `text`, `svg`, `html`, `ascii`, `width=`, `from=` and `to=`. If
/// there are none, a text in box-drawing characters is drawn.
pub(crate) fn words_of(alloc: Global, asked: &str) -> Result<Words, AllocError> {
    let mut given = Vec::new(alloc);
    for id in FLAGS {
        given.push(Given {
            id: *id,
            times: if asked.contains(*id) { 1 } else { 0 },
            texts: Vec::new(alloc),
        })?;
    }
    for (id, name) in VALUES {
        let mut texts = Vec::new(alloc);
        if let Some(text) = value_of(alloc, asked, *name)? {
            texts.push(text)?;
        }
        given.push(Given {
            id: *id,
            times: 0,
            texts,
        })?;
    }
    Ok(Words { given })
}

/// Each fate of what the control station and another station sent, to all and to one.
const FATES: &str = "+0 listening at 127.0.0.1:2780
+12 control sent CALL B 161604ff1616c285ff
+15 terminal 1 heard TEXT ETX 2 161602c849191f0719831aff
+17 control heard ACK1 16161031ff

+18 control heard at 0 ACK1 16161031ff
+19 control lost at 1 ACK1 16161031ff
+20 control turned at 1 EOT 161604ff
+21 terminal 1 turned ENQ 161685ff
+22 terminal 1 heard FAILED 16160285ff
+23 terminal 0 lost NAK 161615ff
+24 control withheld ACK0 161610b0ff
+25 connection 0 ignored NOISE -
+26 terminal 1 turned NOISE ff
+27 control heard at 1 FAILED 16160285ff
+28 control ignored at 0 EOT 161604ff
+29 terminal 1 sent ENQ 161685ff
+30 connection 1 lost EOT 161604ff
+31 control lost NAK 161615ff
+32 control withheld at 1 NAK 161615ff
+33 terminal 1 withheld ACK0 161610b0ff
+3026 silence
+3027 terminal 0 has not answered
";

const IN_ASCII: &str = "    time control            0
       0 = listening at 127.0.0.1:2780
      12 *- CALL B ---------)
    time control            0   1
      15 <- TEXT ETX 2 -----+---*  |HI|
      17 *- ACK1 ----------->--->
      18 *- ACK1 ----------->   |
      19 *- ACK1 -----------+-x |  lost at 1
      20 *- EOT ------------+---#  turned
      21 #- ENQ ------------+---*  turned
      22 ?- FAILED ---------+---*  failed
      23 | x NAK -----------*   |  lost
      24 *- ACK0 ---------! |   |  withheld
      25 o- NOISE ----------*   |  ignored
      26 ?- NOISE ----------+---*  failed
      27 *- FAILED ---------+---?  failed
      28 *- EOT ------------o   |  ignored
      29 (- ENQ ------------+---*
      30 | x EOT -----------+---*  lost
      31 *- NAK ----------x |   |  lost
      32 *- NAK ------------+-! |  withheld at 1
      33 | ! ACK0 ----------+---*  withheld
    3026 :. silence ........:...:
    3027 = terminal 0 has not answered
";

const IN_BOXES: &str = "    time control            0
       0 ● listening at 127.0.0.1:2780
      12 ├─ CALL B ─────────→
    time control            0   1
      15 ◀─ TEXT ETX 2 ─────┼───┤  |HI|
      17 ├─ ACK1 ───────────▶───▶
      18 ├─ ACK1 ───────────▶   │
      19 ├─ ACK1 ───────────┼─✕ │  lost at 1
      20 ├─ EOT ────────────┼───◈  turned
      21 ◈─ ENQ ────────────┼───┤  turned
      22 ◁─ FAILED ─────────┼───┤  failed
      23 │ ✕ NAK ───────────┤   │  lost
      24 ├─ ACK0 ─────────‖ │   │  withheld
      25 ○─ NOISE ──────────┤   │  ignored
      26 ◁─ NOISE ──────────┼───┤  failed
      27 ├─ FAILED ─────────┼───▷  failed
      28 ├─ EOT ────────────○   │  ignored
      29 ←─ ENQ ────────────┼───┤
      30 │ ✕ EOT ───────────┼───┤  lost
      31 ├─ NAK ──────────✕ │   │  lost
      32 ├─ NAK ────────────┼─‖ │  withheld at 1
      33 │ ‖ ACK0 ──────────┼───┤  withheld
    3026 ┊┄ silence ┄┄┄┄┄┄┄┄┊┄┄┄┊
    3027 ● terminal 0 has not answered
";

/// Seven empty records that were turned, and that were lost, messages that are longer than a narrow
/// line, and one with characters that a terminal obeys.
const LONG: &str =
    "+1 terminal 1 turned TEXT ETB 7 161602191f86191f86191f86191f86191f86191f8619970eff
+2 control lost at 1 TEXT ETB 7 161602191f86191f86191f86191f86191f86191f8619970eff
+3 connection 0 from 127.0.0.1:40404 joined in place of one that did not answer
+4 arrived to 1.0: |A RECORD THAT IS LONGER THAN A NARROW LINE|
+123456789 a\tb\x1bc\u{e9}
";

const LONG_CUT: &str = "    time control            0   1
       1 #- TEXT ETB 7 -----+---*  turned  ||||||
       2 *- TEXT ETB 7 -----+-x |  lost at 1  |
       3 = connection 0 from 127.0.0.1:40404 join
       4 |                  |   @ arrived to 1.0
123456789 = a.b.c..
";

const LONG_WHOLE: &str = "    time control            0   1
       1 ◈─ TEXT ETB 7 ─────┼───┤  turned  |||||||
       2 ├─ TEXT ETB 7 ─────┼─✕ │  lost at 1  |||||||
       3 ● connection 0 from 127.0.0.1:40404 joined in place of one that did not
       4 │                  │   ◆ arrived to 1.0: |A RECORD THAT IS LONGER THAN
123456789 ● a.b.c..
";

/// The addresses of stations, and each mark; texts that are nearly marks.
const MARKS: &str = "+0 terminal 0 is A, selected as a
+0 terminal 1 is B, selected as b c
+3 control heard CALL A 161604ff1616c185ff
+4 arrived from 1: |HI|
+5 arrived to 1.0: |BYE|
+6 the doubt from 1 begins
+7 the doubt to 0.0 is ended
+8 terminal 1 began again
+9 control began again
+10 the line is no longer trusted
+11 terminal 1 is ready
+12 arrived to 1: |NO|
+13 not trusted: an answer took longer than the time-out
+14 terminal 0 answers on connection 1
bscline: the line is not trusted
";

const MARKS_IN_ASCII: &str = "    time control
       0 |                  0 A, selected as a
       0 |                  |   1 B, selected as b c
       3 *- CALL A --------->--->
       4 @ arrived from 1: |HI|
       5 |                  |   @ arrived to 1.0: |BYE|
       6 |                  |   ~ the doubt from 1 begins
       7 ^ the doubt to 0.0 is ended
       8 |                  |   % terminal 1 began again
       9 % control began again
      10 & the line is no longer trusted
      11 = terminal 1 is ready
      12 = arrived to 1: |NO|
      13 & not trusted: an answer took longer than the time-out
      14 |                  |   = terminal 0 answers on connection 1
";

const MARKS_IN_BOXES: &str = "    time control
       0 │                  0 A, selected as a
       0 │                  │   1 B, selected as b c
       3 ├─ CALL A ─────────▶───▶
       4 ◆ arrived from 1: |HI|
       5 │                  │   ◆ arrived to 1.0: |BYE|
       6 │                  │   ◇ the doubt from 1 begins
       7 ✓ the doubt to 0.0 is ended
       8 │                  │   ↻ terminal 1 began again
       9 ↻ control began again
      10 ✗ the line is no longer trusted
      11 ● terminal 1 is ready
      12 ● arrived to 1: |NO|
      13 ✗ not trusted: an answer took longer than the time-out
      14 │                  │   ● terminal 0 answers on connection 1
";

/// The fifth line and the sixth, and the addresses.
const PART_DRAWN: &str = "    time control
       0 |                  0 A, selected as a
       0 |                  |   1 B, selected as b c
       5 |                  |   @ arrived to 1.0: |BYE|
       6 |                  |   ~ the doubt from 1 begins
";

/// Up to 64 stations beside the control station.
const WIDE: &str = "+0 terminal 9 is J, selected as j
+1 terminal 9 heard ENQ 161685ff
+2 control heard at 10 ACK1 16161031ff
+3 control lost at 63 ACK1 16161031ff
";

const WIDE_DRAWN: &str = "    time control            0   1   2   3   4   5   6   7   8
       0 |                  |   |   |   |   |   |   |   |   |   9 J, selected a
       1 <- ENQ ------------+---+---+---+---+---+---+---+---+---*
    time control            0   1   2   3   4   5   6   7   8   9  10
       2 *- ACK1 -----------+---+---+---+---+---+---+---+---+---+--->
    time control            0   1   2   3   4   5   6   7   8   9  10  11  12  13  14  15  \
16  17  18  19  20  21  22  23  24  25  26  27  28  29  30  31  32  33  34  35  36  37  38  \
39  40  41  42  43  44  45  46  47  48  49  50  51  52  53  54  55  56  57  58  59  60  61  \
62  63
       3 *- ACK1 -----------+---+---+---+---+---+---+---+---+---+---+---+---+---+---+---+\
---+---+---+---+---+---+---+---+---+---+---+---+---+---+---+---+---+---+---+---+---+---+---+\
---+---+---+---+---+---+---+---+---+---+---+---+---+---+---+---+---+---+---+---+---+---+---+\
---+-x |  lost at 63
";

/// Ladders.
const DRAWN: &[Row] = &[
    (FATES, "text ascii", IN_ASCII),
    (FATES, "", IN_BOXES),
    (LONG, "ascii width=49", LONG_CUT),
    (LONG, "", LONG_WHOLE),
    (MARKS, "ascii", MARKS_IN_ASCII),
    (MARKS, "", MARKS_IN_BOXES),
    (MARKS, "ascii from=5 to=6", PART_DRAWN),
    (WIDE, "ascii", WIDE_DRAWN),
    ("\n \r\n", "", ""),
];

/// Draws a trace, on a terminal whose width is told by `columns=`, and returns the answer.
pub(crate) fn drawn(
    alloc: Global,
    trace: &str,
    asked: &str,
    out: &mut Vec<u8>,
) -> Result<u64, ChartError> {
    let words = words_of(alloc, asked)?;
    let told = value_of(alloc, asked, "columns=")?;
    let columns = match &told {
        Some(columns) => Some(columns.as_str()),
        None => None,
    };
    draw(alloc, &words, columns, &mut trace.as_bytes(), out)
}

/// Whether this ladder is drawn of a trace.
fn is_drawn(alloc: Global, trace: &str, asked: &str, ladder: &str) -> bool {
    let mut out = Vec::new(alloc);
    let answer = drawn(alloc, trace, asked, &mut out);
    answer.is_ok() && out.as_slice() == ladder.as_bytes()
}

#[test]
fn traces_are_drawn(rt: HostRuntime) {
    for (trace, asked, ladder) in DRAWN {
        assert!(rt; is_drawn(rt.alloc(), trace, asked, ladder), "{ladder}");
    }
}
