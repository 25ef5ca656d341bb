//! Runs of two terminals with their complete output and trace.

use crate::written::Ended;
use bsc_line::LineError;
use bsc_run::RunError;

/// A script on the line of two terminals, and what it does if nothing goes wrong.
#[derive(Clone, Copy)]
pub(crate) struct Worked {
    pub(crate) script: &'static str,

    /// The complete output, with the report.
    pub(crate) printed: &'static str,

    /// For each line of output before the report, the line of the script whose event it is printed
    /// for.
    pub(crate) lines: &'static [u64],

    pub(crate) traced: &'static str,
    pub(crate) answer: Result<(), RunError>,
}

/// A record is offered at terminal 0, which is then polled.
pub(crate) const POLLED: Worked = Worked {
    script: "offer-at 0 HI\nsilence\ncarry\ncarry\ncarry\ncarry\ncarry\ncarry\n",
    printed: "control CALL A
terminal 0 TEXT ETX 1
control ACK1
terminal 0 EOT
control CALL B
terminal 1 EOT
control CALL A
from 0: offered 1, known 1, spooled 1
  4849
to 0: offered 0, known 0, spooled 0
from 1: offered 0, known 0, spooled 0
to 1: offered 0, known 0, spooled 0
trusted
",
    lines: &[2, 3, 4, 5, 6, 7, 8],
    traced: "+0 terminal 0 is A, selected as a.
+0 terminal 1 is B, selected as b.
+1 offered at terminal 0: |HI|
+2 silence
+3 control heard CALL A 161604ff1616c185ff
+4 terminal 0 heard TEXT ETX 1 161602c84919839bff
+4 arrived from 0: |HI|
+5 control heard ACK1 16161031ff
+6 terminal 0 heard EOT 161604ff
+7 control heard CALL B 161604ff1616c285ff
+8 terminal 1 heard EOT 161604ff
",
    answer: Ok(()),
};

/// A record for a selected terminal, with hearings that cross both connections in turn, or one.
const HEARD: Worked = Worked {
    script: "offer-for 0 HI
silence
heard-each 161610 161610
silence
carry
carry
heard-each 16160285FF -
carry
heard-each 161602C84919839BFF 161602C84919839BFF
",
    printed: "control CALL a
quiet
control CALL a
terminal 0 ACK0
control TEXT ETX 1
terminal 0 NAK
control TEXT ETX 1
terminal 0 ACK1
from 0: offered 0, known 0, spooled 0
to 0: offered 1, known 0, spooled 1
  4849
from 1: offered 0, known 0, spooled 0
to 1: offered 0, known 0, spooled 0
trusted
",
    lines: &[2, 3, 4, 5, 6, 7, 8, 9],
    traced: "+0 terminal 0 is A, selected as a.
+0 terminal 1 is B, selected as b.
+1 offered for terminal 0.0: |HI|
+2 silence
+3 control heard at 0 NOISE 161610
+3 control heard at 1 NOISE 161610
+4 silence
+5 control heard CALL a 161604ff16166185ff
+6 terminal 0 heard ACK0 161610b0ff
+7 control heard at 0 FAILED 16160285ff
+7 control lost at 1 TEXT ETX 1 161602c84919839bff
+8 terminal 0 heard NAK 161615ff
+9 control heard at 0 TEXT ETX 1 161602c84919839bff
+9 control heard at 1 TEXT ETX 1 161602c84919839bff
+9 arrived to 0.0: |HI|
",
    answer: Ok(()),
};

/// A spoiled ENQ causes the text to be sent twice, and the release is refused.
pub(crate) const COUNTED_TWICE: Worked = Worked {
    script: "offer-at 0 HI
silence
carry
carry
lose
silence
heard 16 16 02 85 ff
carry
carry
lose
silence
lose
silence
release 0 from
",
    printed: "control CALL A
terminal 0 TEXT ETX 1
control ACK1
quiet
terminal 0 ENQ
control NAK
terminal 0 TEXT ETX 1
control ACK0
quiet
terminal 0 ENQ
quiet
terminal 0 EOT
from 0: offered 1, known 0, spooled 2, in doubt
  4849
  4849
to 0: offered 0, known 0, spooled 0
from 1: offered 0, known 0, spooled 0
to 1: offered 0, known 0, spooled 0
not trusted
",
    lines: &[2, 3, 4, 5, 6, 7, 8, 9, 10, 11, 12, 13],
    traced: "+0 terminal 0 is A, selected as a.
+0 terminal 1 is B, selected as b.
+1 offered at terminal 0: |HI|
+2 silence
+3 control heard CALL A 161604ff1616c185ff
+4 terminal 0 heard TEXT ETX 1 161602c84919839bff
+4 arrived from 0: |HI|
+5 control lost ACK1 16161031ff
+6 silence
+7 terminal 0 heard FAILED 16160285ff
+7 the line is no longer trusted
+8 control heard NAK 161615ff
+9 terminal 0 heard TEXT ETX 1 161602c84919839bff
+9 arrived from 0: |HI|
+10 control lost ACK0 161610b0ff
+11 silence
+12 terminal 0 lost ENQ 161685ff
+13 silence
+13 the doubt from 0 begins
",
    answer: Err(RunError::Refused {
        line: 14,
        why: LineError::CountMismatch,
    }),
};

/// Terminal 0 is passed over, then both are, and then terminal 0 is polled.
const PASSED_OVER: Worked = Worked {
    script: "offer-at 0 HI
poll-off 0
silence
poll-off 1
carry
carry
silence
poll-on 0
silence
carry
carry
",
    printed: "control CALL B
terminal 1 EOT
quiet
quiet
control CALL A
terminal 0 TEXT ETX 1
control ACK1
from 0: offered 1, known 0, spooled 1
  4849
to 0: offered 0, known 0, spooled 0
from 1: offered 0, known 0, spooled 0
to 1: offered 0, known 0, spooled 0
trusted
",
    lines: &[3, 5, 6, 7, 9, 10, 11],
    traced: "+0 terminal 0 is A, selected as a.
+0 terminal 1 is B, selected as b.
+1 offered at terminal 0: |HI|
+2 terminal 0 is not polled
+3 silence
+4 terminal 1 is not polled
+5 control heard CALL B 161604ff1616c285ff
+6 terminal 1 heard EOT 161604ff
+7 silence
+8 terminal 0 is polled
+9 silence
+10 control heard CALL A 161604ff1616c185ff
+11 terminal 0 heard TEXT ETX 1 161602c84919839bff
+11 arrived from 0: |HI|
",
    answer: Ok(()),
};

pub(crate) const WORKED: &[Worked] = &[POLLED, HEARD, COUNTED_TWICE, PASSED_OVER];

impl Worked {
    /// Whether a run printed and answered what it does without faults.
    pub(crate) fn is_whole(&self, ended: &Ended) -> bool {
        ended.has_printed(self.printed) && ended.answer == self.answer
    }

    /// Whether a run printed a beginning of the complete output, and not all of it.
    pub(crate) fn is_part(&self, ended: &Ended) -> bool {
        let printed = ended.out.as_slice();
        printed.len() < self.printed.len() && self.printed.as_bytes().starts_with(printed)
    }

    /// Whether the trace of a run is a beginning of the complete one.
    pub(crate) fn is_traced(&self, ended: &Ended) -> bool {
        self.traced.as_bytes().starts_with(ended.trace.as_slice())
    }
}
