//! Exchanges on new lines, with all that is sent.

use crate::fixtures::{On, line_on};
use crate::play::play;
use std::test::Fail;
use test_alloc::Refusing;

/// The name of the line, the words of the events, and what comes of them, with a bar between them.
const EXCHANGES: &[&str] = &[
    // A polled terminal delivers its record.
    "Two|at0 . > > > > > >|A 0:HI ACK1 0:EOT B 1:EOT A; from 0: 1/1 HI",
    // An acknowledgement is lost, and then a text.
    "Two|at0 . > > lose . > >|A 0:HI ACK1 - 0:ENQ ACK1 0:EOT; from 0: 1/1 HI",
    "Two|at0 . > lose . > > > >|A 0:HI - 0:ENQ ACK0 0:HI ACK1 0:EOT; from 0: 1/1 HI",
    // A block without an answer waits for its release.
    "OneTry|at0 . > > lose . lose . = > > > > release-from = release-from|A 0:HI ACK1 - 0:ENQ - \
    0:EOT; from 0: 0/1? HI B 1:EOT A 0:EOT; from 0: 1/1 HI !not in doubt; from 0: 1/1 HI",
    // An ENQ that is heard as a text repeats a record, in either direction; then no count fits.
    "Two|at0 . > > lose . broken > > = > > = > release-from|A 0:HI ACK1 - 0:ENQ NAK* 0:HI* \
    ACK0*; from 0: 0/1 HI HI 0:HI* ACK1*; from 0: 0/1 HI HI HI 0:EOT* !not in doubt; from 0: \
    1/1 HI HI HI",
    "Two|at0 . > > lose . broken > > lose . lose . release-from release-from|A 0:HI ACK1 - 0:ENQ \
    NAK* 0:HI* ACK0* -* 0:ENQ* -* 0:EOT* !count mismatch !count mismatch; from 0: 0/1? HI HI",
    "Two|to0 . > > > lose . broken > > lose . lose . release-to|a 0:ACK0 HI 0:ACK1 - ENQ 0:NAK* \
    HI* 0:ACK0* -* ENQ* -* A* !count mismatch; to 0.0: 0/1? HI HI",
    // Seven records go in one block, and an eighth in a second.
    "Two|e0 e0 e0 e0 e0 e0 e0 . > > > >|a 0:ACK0 7ETX 0:ACK1 A; to 0.0: 7/7 - - - - - - -",
    "Two|e0 e0 e0 e0 e0 e0 e0 e0 . > > > > > >|a 0:ACK0 7ETB 0:ACK1 empty 0:ACK0 A; to 0.0: 8/8 \
    - - - - - - - -",
    // An urgent terminal sends between two blocks; an urgent control station polls again.
    "Two|e0 e0 e0 e0 e0 e0 e0 e0 at0 urgent . > > > = > = > > > > > >|a 0:ACK0 7ETB 0:RVI; from \
    0: 0/1; to 0.0: 0/8 - - - - - - - A; from 0: 0/1; to 0.0: 7/8 - - - - - - - 0:HI ACK1 0:EOT \
    B 1:EOT a; from 0: 1/1 HI; to 0.0: 7/8 - - - - - - -",
    "Two|at0 ask . > > > > > >|A 0:HI RVI 0:EOT A 0:EOT B; from 0: 1/1 HI",
    // A terminal that does not answer is left.
    "SecondFirst|to1 to0 . > > > > lose . lose . lose . > > > >|b 1:ACK0 HI 1:ACK1 B - B - a - a \
    0:ACK0 HI 0:ACK1 A; to 0.0: 1/1 HI; to 1.0: 1/1 HI",
    // What is pending, and the number of terminals, say what may happen.
    "Two|lose > . .|!nothing sent !nothing sent A !a transmission is pending",
    "Most|ready64 at64 ready63|!no such terminal !no such terminal",
    // A terminal that is not ready leaves no doubt.
    "Two|unready0 to0 . > > > >|a 0:NAK A 0:EOT B; to 0.0: 0/1",
    // A selection waits for room, and a text is asked for again until there is room.
    "Two|e0 e0 e0 e0 e0 e0 e0 starve . > > > > > >|a 0:WACK ENQ 0:ACK0 7ETX 0:ACK1 A; to 0.0: \
    7/7 - - - - - - -",
    "Two|at0 starve . > > > > >|A 0:HI NAK 0:HI ACK1 0:EOT; from 0: 1/1 HI",
    // An offer for which there is no memory changes nothing.
    "Two|starve at0 . at0|!out of memory A; from 0: 0/1",
    // Each terminal hears its own item; two that hear different calls lose a record.
    "Two|to0 . noise1 . > > broken0 > text0|a - a 0:ACK0 HI 0:NAK HI 0:ACK1; to 0.0: 0/1 HI",
    "Two|at0 at1 . calls > > >|A 0:HI* ACK1* 0:EOT* B*; from 0: 1/1 HI; from 1: 1/1",
    "Two|at0 each2 . each1 > each2|!nothing sent A !wrong number of hearings 0:HI !control is \
    not sending; from 0: 0/1",
    // Each selection address has its own bid and spool.
    "ByThree|to0 e0.1 to0.2 . > > > > > > > > > > > >|!no such address a 0:ACK0 HI 0:ACK1 c \
    0:ACK0 empty 0:ACK1 A 0:EOT B 1:EOT A; to 0.0: 1/1 HI; to 0.1: 1/1 -",
    // Terminals that are not polled are passed over, and keep their records. If there is no other,
    // the control station is at rest.
    "Most|off64|!no such terminal",
    "Two|off0 at0 to0 at1 . > > > > off1 > > . . on0 . > > > > > >|B 1:HI ACK1 1:EOT B 1:EOT - - \
    - a 0:ACK0 HI 0:ACK1 A 0:HI ACK1; from 0: 0/1 HI; to 0.0: 1/1 HI; from 1: 1/1 HI",
    // A call goes on to its end, and so does its bid; then the terminal is left.
    "Two|at0 . lose off0 . > > > > >|A - A 0:HI ACK1 0:EOT B 1:EOT; from 0: 1/1 HI",
    "OneTry|to0 . off0 lose . lose .|a - a - B; to 0.0: 0/1",
    "ByThree|to0 e0.1 . > off0 > > > >|a 0:ACK0 HI 0:ACK1 B 1:EOT; to 0.0: 1/1 HI; to 0.1: 0/1",
    "Two|to0 urgent . > off0 > > >|a 0:ACK0 HI 0:RVI B; to 0.0: 1/1 HI",
    // A control station that begins again polls all terminals.
    "Two|off0 off1 . restart .|- - A",
    // A station begins again while its block is unanswered.
    "Two|at0 . > > restart0 > . > > > = release-from release-from|A 0:HI ACK1 ACK1 - B 1:EOT A \
    0:EOT; from 0: 0/1? HI !not in doubt; from 0: 1/1 HI",
    "Two|to0 . > > restart = release-to . > > > >|a 0:ACK0 HI -; to 0.0: 0/1? a 0:ACK0 HI 0:ACK1 \
    A; to 0.0: 1/1 HI",
];

/// The line of this name.
fn on_of(name: &str) -> On {
    match name {
        "OneTry" => On::OneTry,
        "SecondFirst" => On::SecondFirst,
        "ByThree" => On::ByThree,
        "Most" => On::Most,
        _ => On::Two,
    }
}

#[test]
fn each_exchange_goes_as_its_row_says(rt: HostRuntime) -> Result<(), Fail> {
    let memory = Refusing::new(rt.alloc());
    for row in EXCHANGES {
        let (name, told) = row.split_once('|').ok_or("no words")?;
        let (words, expected) = told.split_once('|').ok_or("nothing expected")?;
        let mut line = line_on(rt.alloc(), &memory, on_of(name))?;
        let mut log = String::new(rt.alloc());
        play(&memory, &mut line, words, &mut log)?;
        assert_eq!(rt; log.as_str().strip_prefix(" "), Some(expected), "{row}");
    }
    Ok(())
}
