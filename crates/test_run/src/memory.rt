//! Growths of a whole run are refused: each one in turn, all from each one on, and all above each
//! size.

use crate::runs::REPORT;
use crate::watched::{NO_TROUBLE, Plan, TRACED};
use crate::worked::{POLLED, WORKED, Worked};
use crate::written::{Case, Ended};
use bsc_line::LineError;
use bsc_run::RunError;
use std::alloc::Global;
use std::test::Fail;
use test_alloc::{Refusal, Refusing};
use test_fixtures::configurations::TWO_TERMINALS;

/// Whether the first line that differs from a run without faults is a NAK or a WACK.
fn is_delayed(worked: &Worked, printed: &[u8]) -> bool {
    let lines = printed.split(|octet| *octet == b'\n');
    let expected = worked.printed.as_bytes().split(|octet| *octet == b'\n');
    for (line, other) in lines.zip(expected) {
        if line != other {
            return line.ends_with(b" NAK") || line.ends_with(b" WACK");
        }
    }
    false
}

/// How often a run was out of memory without a report, how often the offer on the first line was
/// refused, and how often a text was accepted later, because a growth of its spool was refused.
type Counts = [usize; 3];

/// How a run ended in which growths may have been refused: as one of these counts, or without
/// faults. None if no run may end so. If only one growth was refused, what was written before out
/// of memory is a beginning of what is written without faults.
fn ending(worked: &Worked, ended: &Ended, is_one: bool) -> Option<Counts> {
    let is_reported = ended.out.ends_with(b"trusted\n");
    let is_front = worked.is_part(ended) && worked.is_traced(ended);
    match ended.answer {
        Err(RunError::Memory) if !is_reported && (!is_one || is_front) => Some([1, 0, 0]),
        Err(
            RunError::Refused {
                line: 1,
                why: LineError::Memory,
            },
        ) if ended.has_printed(REPORT) && worked.is_traced(ended) => Some([0, 1, 0]),
        Err(RunError::Output | RunError::Socket { .. } | RunError::Memory) => None,
        _ if worked.is_whole(ended) => Some([0, 0, 0]),
        _ if is_reported && is_delayed(worked, &ended.out) => Some([0, 0, 1]),
        _ => None,
    }
}

/// Runs a script while growths are refused, and returns how it ended.
fn run_refused(
    alloc: Global,
    worked: &Worked,
    case: &Case<'_>,
    refusing: &Refusing,
    (plan, is_one): (Plan, bool),
) -> Result<Counts, Fail> {
    let ended = case.run(alloc, refusing, plan)?;
    match ending(worked, &ended, is_one) {
        Some(counts) if refusing.refused() > 0 || counts == [0, 0, 0] => Ok(counts),
        Some(_) => Err(Fail::new("told without a refusal")),
        None => Err(Fail::new("something else is told")),
    }
}

/// The sums of two counts.
fn sums(counts: Counts, others: Counts) -> Counts {
    let ([memory, offers, delays], [more, further, later]) = (counts, others);
    [
        memory.saturating_add(more),
        offers.saturating_add(further),
        delays.saturating_add(later),
    ]
}

/// Runs a script with refusals from each number in turn, until no growth is refused. Returns how
/// often the run ended in each way.
fn count_endings(
    alloc: Global,
    worked: &Worked,
    case: &Case<'_>,
    refusal: Refusal,
    plan: Plan,
) -> Result<Counts, Fail> {
    let refusing = Refusing::new(alloc);
    let how = (plan, refusal == Refusal::Nth);
    let mut counts = [0usize; 3];
    for number in refusing.in_turn(refusal, 1..99_999) {
        number?;
        counts = sums(counts, run_refused(alloc, worked, case, &refusing, how)?);
    }
    Ok(counts)
}

/// Whether so many runs ended in each way. A list of records grows in two allocations: two growths
/// are those of the offer, and two are those of the spool before the text comes.
fn are_enough(counts: Counts, refusal: Refusal) -> bool {
    let [memory, offers, delays] = counts;
    let is_counted = match refusal {
        Refusal::Nth => offers == 2 && delays == 2,
        Refusal::From => offers == 2,
        Refusal::Above { .. } => true,
    };
    memory > 3 && is_counted
}

#[test]
fn each_growth_of_a_run_is_refused(rt: HostRuntime) -> Result<(), Fail> {
    for worked in WORKED {
        let case = Case::read(rt.alloc(), TWO_TERMINALS, worked.script)?;
        for plan in [NO_TROUBLE, TRACED] {
            for refusal in [Refusal::Nth, Refusal::From, Refusal::Above { octets: 8 }] {
                let counts = count_endings(rt.alloc(), worked, &case, refusal, plan)?;
                assert!(rt; are_enough(counts, refusal), "{refusal:?}");
            }
        }
    }
    Ok(())
}

/// The output of `POLLED` if the control station at first has no room for the text.
const NO_ROOM_FOR_IT: &str = "control CALL A
terminal 0 TEXT ETX 1
control NAK
terminal 0 TEXT ETX 1
control ACK1
terminal 0 EOT
control CALL B
from 0: offered 1, known 1, spooled 1
  4849
to 0: offered 0, known 0, spooled 0
from 1: offered 0, known 0, spooled 0
to 1: offered 0, known 0, spooled 0
trusted
";

/// Seven records are offered at terminal 0, which is then polled, and an eighth one while they are
/// sent.
const EIGHT_POLLED: &str = "offer-at 0 HI\noffer-at 0 HI\noffer-at 0 HI\noffer-at 0 HI
offer-at 0 HI\noffer-at 0 HI\noffer-at 0 HI\nsilence\ncarry\noffer-at 0 HI\ncarry\ncarry
carry\ncarry\ncarry\ncarry\ncarry\ncarry\ncarry\ncarry\ncarry\n";

/// The output of these if the control station, after the eighth record, at first has no room for a
/// further text.
const NO_ROOM_FOR_ANOTHER: &str = "control CALL A
terminal 0 TEXT ETX 7
control ACK1
terminal 0 EOT
control CALL B
terminal 1 EOT
control CALL A
terminal 0 TEXT ETX 1
control WACK
terminal 0 ENQ
control ACK1
terminal 0 EOT
control CALL B
from 0: offered 8, known 8, spooled 8
  4849\n  4849\n  4849\n  4849\n  4849\n  4849\n  4849\n  4849
to 0: offered 0, known 0, spooled 0
from 1: offered 0, known 0, spooled 0
to 1: offered 0, known 0, spooled 0
trusted
";

/// How often this is printed for the script if each growth is refused in turn.
fn count_printed(alloc: Global, script: &str, printed: &str) -> Result<usize, Fail> {
    let case = Case::read(alloc, TWO_TERMINALS, script)?;
    let refusing = Refusing::new(alloc);
    let mut count = 0usize;
    for number in refusing.in_turn(Refusal::Nth, 1..99_999) {
        number?;
        let ended = case.run(alloc, &refusing, NO_TROUBLE)?;
        count = count.saturating_add(usize::from(ended.has_printed(printed)));
    }
    Ok(count)
}

#[test]
fn a_text_is_put_off_until_there_is_room(rt: HostRuntime) -> Result<(), Fail> {
    assert_eq!(rt;
        count_printed(rt.alloc(), POLLED.script, NO_ROOM_FOR_IT)?,
        2
    );
    assert!(rt; count_printed(rt.alloc(), EIGHT_POLLED, NO_ROOM_FOR_ANOTHER)? > 0);
    Ok(())
}
