//! Calls by handles, as C makes them.
use crate::control::*;
use crate::errors::bsc_error_text;
use crate::handles::Handle;
use crate::interface::{Sending, Settings, StoredAddress, StoredAddresses, StoredKept};
use crate::line::*;
use crate::terminal::*;
use std::alloc::Global;
use std::test::Fail;

const DONE: u32 = 0;

const NOT_MADE: u32 = 1;

const OTHER_KIND: u32 = 2;

const ALREADY_MADE: u32 = 3;

const NO_ROOM: u32 = 5;

const SETTINGS: Settings = Settings {
    full: 80,
    block_chars: 400,
    tries: 3,
    waits: 10,
};

const NOTHING_SENT: Sending = Sending {
    offered: 9,
    known: 9,
    in_doubt: 9,
};

// An address of one character.
fn address(character: u8) -> StoredAddress {
    StoredAddress {
        chars: [character, 0, 0, 0, 0, 0, 0],
        len: 1,
    }
}

// A terminal with the polling address A and the selection addresses a and b.
fn addresses() -> StoredAddresses {
    StoredAddresses {
        poll: address(b'A'),
        selects: [address(b'a'), address(b'b'), address(0), address(0)],
        count: 2,
    }
}

// The first octets of a buffer.
fn part(octets: &[u8; 1033], len: usize) -> &[u8] {
    octets.get(..len).unwrap_or(&[])
}

// A silence passes at the control station, and then each hears the other eight times.
fn exchange(alloc: Global, control: &mut Handle, terminal: &mut Handle) {
    let mut down = [0; 1033];
    let mut up = [0; 1033];
    let mut down_len = 0;
    let mut up_len = 0;
    let _ = bsc_control_silence(alloc, control, &mut down, &mut down_len);
    for _ in 0..8 {
        let _ = bsc_terminal_hear(alloc, terminal, part(&down, down_len), &mut up, &mut up_len);
        let _ = bsc_control_hear(alloc, control, part(&up, up_len), &mut down, &mut down_len);
    }
}

// Whether a record of two characters is at the front of a buffer.
fn is_at_front(record: &[u8; 2], chars: &[u8; 144], len: usize) -> bool {
    len == 2 && chars[0] == record[0] && chars[1] == record[1]
}

// Whether a terminal and a control station were made.
fn make(alloc: Global, control: &mut Handle, terminal: &mut Handle) -> bool {
    make_terminal(alloc, terminal) && make_control(alloc, control)
}

// Whether a record is offered at each end.
fn offer(alloc: Global, control: &mut Handle, terminal: &mut Handle) -> bool {
    bsc_terminal_offer(alloc, terminal, b"HI") == DONE
        && bsc_control_offer(alloc, control, 0, 1, b"YO") == DONE
}

// Whether the record of the terminal arrived, and it knows.
fn arrived_at_control(alloc: Global, control: &mut Handle, terminal: &mut Handle) -> bool {
    let mut count = 0;
    let mut chars = [0; 144];
    let mut len = 0;
    let mut sending = NOTHING_SENT;
    let _ = bsc_control_arrivals(alloc, control, 0, &mut count);
    let _ = bsc_control_arrived(alloc, control, 0, 0, &mut chars, &mut len);
    let _ = bsc_terminal_sending(alloc, terminal, &mut sending);
    count == 1 && is_at_front(b"HI", &chars, len) && sending.known == 1 && sending.in_doubt == 0
}

// Whether the record of the control station arrived, and it knows.
fn arrived_at_terminal(alloc: Global, control: &mut Handle, terminal: &mut Handle) -> bool {
    let mut count = 0;
    let mut chars = [0; 144];
    let mut len = 0;
    let mut sending = NOTHING_SENT;
    let _ = bsc_terminal_arrivals(alloc, terminal, 1, &mut count);
    let _ = bsc_terminal_arrived(alloc, terminal, 1, 0, &mut chars, &mut len);
    let _ = bsc_control_sending(alloc, control, 0, 1, &mut sending);
    count == 1 && is_at_front(b"YO", &chars, len) && sending.known == 1 && sending.in_doubt == 0
}

// Whether both are freed, and nothing is left to be freed.
fn free(alloc: Global, control: &mut Handle, terminal: &mut Handle) -> bool {
    bsc_terminal_free(alloc, terminal) == DONE
        && bsc_control_free(alloc, control) == DONE
        && bsc_terminal_free(alloc, terminal) == NOT_MADE
        && bsc_control_free(alloc, control) == NOT_MADE
}

// Whether the record of each end arrives at the other one.
fn arrive(alloc: Global, control: &mut Handle, terminal: &mut Handle) -> bool {
    let is_offered = make(alloc, control, terminal) && offer(alloc, control, terminal);
    exchange(alloc, control, terminal);
    exchange(alloc, control, terminal);
    is_offered
        && arrived_at_control(alloc, control, terminal)
        && arrived_at_terminal(alloc, control, terminal)
}

#[test]
fn records_arrive_each_way(rt: HostRuntime) {
    let mut control = Handle::new();
    let mut terminal = Handle::new();
    assert!(rt; arrive(rt.alloc(), &mut control, &mut terminal));
    assert!(rt; free(rt.alloc(), &mut control, &mut terminal));
}

// What is kept of a terminal that began again after it had sent a text.
fn keep_terminal(alloc: Global, terminal: &mut Handle) -> StoredKept {
    let call = [0x16, 0x16, 0x04, 0xff, 0x16, 0x16, 0xc1, 0x85, 0xff];
    let mut sent = [0; 1033];
    let mut len = 0;
    let mut kept = StoredKept { known: 9, doubt: 9 };
    let _ = bsc_terminal_offer(alloc, terminal, b"HI");
    let _ = bsc_terminal_hear(alloc, terminal, &call, &mut sent, &mut len);
    let _ = bsc_terminal_restart(alloc, terminal);
    let _ = bsc_terminal_kept(alloc, terminal, &mut kept);
    kept
}

// Whether a new terminal recalls this, and ends the doubt.
fn recall_terminal(alloc: Global, terminal: &mut Handle, kept: &StoredKept) -> bool {
    bsc_terminal_offer(alloc, terminal, b"HI") == DONE
        && bsc_terminal_keep_arrived(alloc, terminal, 1, &[b'X'; 144]) == DONE
        && bsc_terminal_recall(alloc, terminal, kept) == DONE
        && bsc_terminal_release(alloc, terminal, 1) == DONE
}

// Whether flags and a silence are taken.
fn set_flags(alloc: Global, terminal: &mut Handle) -> bool {
    let mut sent = [0; 1033];
    let mut len = 9;
    bsc_terminal_ready(alloc, terminal, 0) == DONE
        && bsc_terminal_urgent(alloc, terminal) == DONE
        && bsc_terminal_silence(alloc, terminal, &mut sent, &mut len) == DONE
        && len == 0
}

// Whether a terminal is made.
fn make_terminal(alloc: Global, terminal: &mut Handle) -> bool {
    bsc_terminal_new(alloc, terminal, &SETTINGS, &addresses()) == DONE
}

// Whether a terminal knows of one record, and both are freed.
fn end_terminals(alloc: Global, old: &mut Handle, new: &mut Handle) -> bool {
    let mut sending = NOTHING_SENT;
    bsc_terminal_sending(alloc, new, &mut sending) == DONE
        && sending.known == 1
        && bsc_terminal_free(alloc, old) == DONE
        && bsc_terminal_free(alloc, new) == DONE
}

#[test]
fn a_terminal_is_made_again(rt: HostRuntime) {
    let alloc = rt.alloc();
    let mut old = Handle::new();
    let mut new = Handle::new();
    assert!(rt; make_terminal(alloc, &mut old) && make_terminal(alloc, &mut new));
    let kept = keep_terminal(alloc, &mut old);
    assert!(rt; kept.known == 0 && kept.doubt == 1);
    assert!(rt; recall_terminal(alloc, &mut new, &kept) && set_flags(alloc, &mut new));
    assert!(rt; end_terminals(alloc, &mut old, &mut new));
}

// What is kept of a control station that began again after it had sent a text.
fn keep_control(alloc: Global, control: &mut Handle) -> StoredKept {
    let ack0 = [0x16, 0x16, 0x10, 0xb0, 0xff];
    let mut sent = [0; 1033];
    let mut len = 0;
    let mut kept = StoredKept { known: 9, doubt: 9 };
    let _ = bsc_control_offer(alloc, control, 0, 0, b"YO");
    let _ = bsc_control_silence(alloc, control, &mut sent, &mut len);
    let _ = bsc_control_hear(alloc, control, &ack0, &mut sent, &mut len);
    let _ = bsc_control_restart(alloc, control);
    let _ = bsc_control_kept(alloc, control, 0, 0, &mut kept);
    kept
}

// Whether a new control station recalls this, and ends the doubt.
fn recall_control(alloc: Global, control: &mut Handle, kept: &StoredKept) -> bool {
    bsc_control_offer(alloc, control, 0, 0, b"YO") == DONE
        && bsc_control_keep_arrived(alloc, control, 0, b"OLD") == DONE
        && bsc_control_recall(alloc, control, 0, 0, kept) == DONE
        && bsc_control_release(alloc, control, 0, 0, 1) == DONE
        && bsc_control_urgent(alloc, control, 0) == DONE
}

// Whether a control station is made.
fn make_control(alloc: Global, control: &mut Handle) -> bool {
    bsc_control_new(alloc, control, &SETTINGS, &[addresses()], &[0]) == DONE
}

// Whether a control station is freed.
fn free_control(alloc: Global, control: &mut Handle) -> bool {
    bsc_control_free(alloc, control) == DONE
}

#[test]
fn a_control_station_is_made_again(rt: HostRuntime) {
    let alloc = rt.alloc();
    let mut old = Handle::new();
    let mut new = Handle::new();
    assert!(rt; make_control(alloc, &mut old) && make_control(alloc, &mut new));
    let kept = keep_control(alloc, &mut old);
    assert!(rt; kept.doubt == 1 && recall_control(alloc, &mut new, &kept));
    assert!(rt; free_control(alloc, &mut old) && free_control(alloc, &mut new));
}

// Whether records and flags are taken.
fn offer_on_line(alloc: Global, line: &mut Handle) -> bool {
    bsc_line_offer_at(alloc, line, 0, b"HI") == DONE
        && bsc_line_offer_for(alloc, line, 0, 1, b"YO") == DONE
        && bsc_line_ready(alloc, line, 0, 1) == DONE
        && bsc_line_urgent_at(alloc, line, 0) == DONE
        && bsc_line_urgent_for(alloc, line, 0) == DONE
}

// Whether a call is lost, called again, heard by each terminal, and what is pending is given.
fn begin_on_line(alloc: Global, line: &mut Handle) -> bool {
    let mut octets = [0; 1033];
    let mut len = 0;
    let mut sender = 0;
    bsc_line_silence(alloc, line) == DONE
        && bsc_line_lose(alloc, line) == DONE
        && bsc_line_silence(alloc, line) == DONE
        && bsc_line_pending(alloc, line, &mut octets, &mut len, &mut sender) == DONE
        && sender == 255
        && bsc_line_carry_each(alloc, line, part(&octets, len), &[len]) == DONE
        && bsc_line_pending(alloc, line, &mut octets, &mut len, &mut sender) == DONE
        && sender == 0
        && bsc_line_carry(alloc, line, part(&octets, len)) == DONE
}

// Lets twelve transmissions be heard as they were sent.
fn go_on(alloc: Global, line: &mut Handle) {
    for _ in 0..12 {
        let _ = bsc_line_silence(alloc, line);
        let _ = bsc_line_carry_sent(alloc, line);
    }
}

// Whether both records arrived, and both senders know.
fn arrived_on_line(alloc: Global, line: &mut Handle) -> bool {
    let mut from = NOTHING_SENT;
    let mut to = NOTHING_SENT;
    let mut up = 0;
    let mut down = 0;
    let _ = bsc_line_sending_from(alloc, line, 0, &mut from);
    let _ = bsc_line_sending_to(alloc, line, 0, 1, &mut to);
    let _ = bsc_line_arrivals_from(alloc, line, 0, &mut up);
    let _ = bsc_line_arrivals_to(alloc, line, 0, 1, &mut down);
    from.known == 1 && to.known == 1 && up == 1 && down == 1
}

// Whether the records are those that were offered.
fn records_on_line(alloc: Global, line: &mut Handle) -> bool {
    let mut up = [0; 144];
    let mut down = [0; 144];
    let mut up_len = 0;
    let mut down_len = 0;
    let _ = bsc_line_arrived_from(alloc, line, 0, 0, &mut up, &mut up_len);
    let _ = bsc_line_arrived_to(alloc, line, 0, 1, 0, &mut down, &mut down_len);
    is_at_front(b"HI", &up, up_len) && is_at_front(b"YO", &down, down_len)
}

// Whether stations begin again, and there is no doubt to be released.
fn begin_again(alloc: Global, line: &mut Handle) -> bool {
    let mut trusted = 9;
    bsc_line_restart_control(alloc, line) == DONE
        && bsc_line_restart_terminal(alloc, line, 0) == DONE
        && bsc_line_release_from(alloc, line, 0) == 22
        && bsc_line_release_to(alloc, line, 0, 1) == 22
        && bsc_line_trusted(alloc, line, &mut trusted) == DONE
        && trusted == 1
}

// Whether a line is made that carries a record each way.
fn carry(alloc: Global, line: &mut Handle) -> bool {
    let made = bsc_line_new(alloc, line, &SETTINGS, &[addresses()], &[0]);
    let is_begun = made == DONE && offer_on_line(alloc, line) && begin_on_line(alloc, line);
    go_on(alloc, line);
    is_begun && arrived_on_line(alloc, line) && records_on_line(alloc, line)
}

// Whether a line is freed, and is not there then.
fn free_line(alloc: Global, line: &mut Handle) -> bool {
    bsc_line_free(alloc, line) == DONE && bsc_line_free(alloc, line) == NOT_MADE
}

#[test]
fn a_line_carries_records(rt: HostRuntime) {
    let mut line = Handle::new();
    assert!(rt; carry(rt.alloc(), &mut line));
    assert!(rt; begin_again(rt.alloc(), &mut line));
    assert!(rt; free_line(rt.alloc(), &mut line));
}

// Whether a terminal is not made twice, and is told from a control station and a line.
fn is_terminal(alloc: Global, handle: &mut Handle) -> bool {
    bsc_terminal_new(alloc, handle, &SETTINGS, &addresses()) == ALREADY_MADE
        && bsc_control_restart(alloc, handle) == OTHER_KIND
        && bsc_line_silence(alloc, handle) == OTHER_KIND
        && bsc_control_free(alloc, handle) == OTHER_KIND
}

// Whether a terminal says nothing if there is too little room.
fn has_no_room(alloc: Global, terminal: &mut Handle) -> bool {
    let mut short = [0; 1032];
    let mut len = 9;
    bsc_terminal_silence(alloc, terminal, &mut short, &mut len) == NO_ROOM && len == 9
}

#[test]
fn what_is_not_there_is_told(rt: HostRuntime) {
    let alloc = rt.alloc();
    let mut handle = Handle::new();
    assert_eq!(rt; bsc_terminal_urgent(alloc, &mut handle), NOT_MADE);
    assert!(rt; make_terminal(alloc, &mut handle) && is_terminal(alloc, &mut handle));
    assert!(rt; has_no_room(alloc, &mut handle));
    assert_eq!(rt; bsc_terminal_free(alloc, &mut handle), DONE);
}

#[test]
fn errors_have_texts(rt: HostRuntime) {
    let mut text = [0; 12];
    let mut longer = [0x77; 14];
    assert_eq!(rt; bsc_error_text(4, &mut text), 0);
    assert_eq!(rt; bsc_error_text(4, &mut longer), 13);
    assert!(rt; &longer[..13] == b"out of memory".as_slice());
    assert_eq!(rt; longer[13], 0x77);
    assert_eq!(rt; bsc_error_text(0, &mut longer), 0);
    assert_eq!(rt; bsc_error_text(31, &mut longer), 0);
}
