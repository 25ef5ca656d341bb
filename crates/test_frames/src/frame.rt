//! Examples of transmissions.

ghost use Rattle.std.specs.Prelude.{◌<◌};

use bsc_frame::{Heard, Message, TextBuffer, Wire, decode, decode_short, encode};
use bsc_text::{Detail, read_octets, write_shown};
use std::alloc::{AllocError, Global};
use std::test::Fail;

/// Transmissions in hexadecimal text, in the form in which they are sent, and what they are heard
/// as, with the units of a text.
const SENT: &[&str] = &[
    "16 16 04 FF: EOT\n",
    "16 16 85 FF: ENQ\n",
    "16 16 15 FF: NAK\n",
    "16 16 10 B0 FF: ACK0\n",
    "16 16 10 31 FF: ACK1\n",
    "16 16 10 3B FF: WACK\n",
    "16 16 10 BC FF: RVI\n",
    "16 16 04 FF 16 16 C1 85 FF: CALL A\n",
    "16 16 04 FF 16 16 C1 C2 43 C4 45 46 C7 85 FF: CALL ABCDEFG\n",
    "16 16 02 C8 49 19 83 9B FF: TEXT ETX 1\nunit 4849 EM\n",
    "16 16 02 C8 49 83 02 FF: TEXT ETX 1\nunit 4849\n",
    // Each unit has its own check.
    "16 16 02 C8 49 19 1F 07 19 83 1A FF: TEXT ETX 2\nunit 4849 EM\nunit - EM\n",
    // The check of a form feed is the same octet as SYN.
    "16 16 02 8C 19 83 16 FF: TEXT ETX 1\nunit 0c EM\n",
    // A unit may be without characters and without EM.
    "16 16 02 83 83 FF: TEXT ETX 1\nunit -\n",
    // Seven units, and ETB.
    "16 16 02 19 1F 86 19 1F 86 19 1F 86 19 1F 86 19 1F 86 19 1F 86 19 97 0E FF: TEXT ETB 7\n\
    unit - EM\nunit - EM\nunit - EM\nunit - EM\nunit - EM\nunit - EM\nunit - EM\n",
];

/// Other octets, and what they are heard as.
const HEARD: &[&str] = &[
    ": NOISE\n",
    // The code 0 with even parity.
    "16 16 10 30 FF: NOISE\n",
    // One SYN, no PAD, and other leading pads.
    "16 04: EOT\n",
    "55 AA 16 04 FF FF: EOT\n",
    // A call without characters, and one with eight.
    "16 16 04 FF 16 16 85 FF: NOISE\n",
    "16 16 04 FF 16 16 C1 C2 43 C4 45 46 C7 C8 85 FF: NOISE\n",
    // A text that is ended by ENQ.
    "16 16 02 85 FF: FAILED\n",
    // Fill between the characters is dropped; before a check it is the check.
    "16 16 02 C8 16 16 49 19 83 9B FF: TEXT ETX 1\nunit 4849 EM\n",
    "16 16 02 C8 49 19 83 16 9B FF: FAILED\n",
    // A wrong check.
    "16 16 02 C8 49 19 83 9A FF: FAILED\n",
    "16 16 02 49 49 19 83 9B FF: FAILED\n",
    // Two inverted bits in each of two octets, a NUL that was SYN, and a check that is US or TAB.
    "16 16 02 49 C8 19 83 9B FF: TEXT ETX 1\nunit 4948 EM\n",
    "16 16 02 C1 80 19 83 5B FF: TEXT ETX 1\nunit 4100 EM\n",
    "16 16 02 C1 16 19 83 5B FF: TEXT ETX 1\nunit 41 EM\n",
    "16 16 02 89 1F 16 C1 83 C2 FF: TEXT ETX 2\nunit 09\nunit 41\n",
    "16 16 02 1F 1F 16 C1 83 C2 FF: TEXT ETX 2\nunit -\nunit 41\n",
    "16 16 02 89 89 16 C1 83 C2 FF: TEXT ETX 1\nunit 090941\n",
    // A call with one leading pad, and one whose pad has an inverted bit.
    "16 04 FF C1 85: CALL A\n",
    "16 04 FE C1 85: CALL ~A\n",
    // An STX after a check is included in the next sum.
    "16 16 02 C8 49 19 1F 07 02 19 83 98 FF: TEXT ETX 2\nunit 4849 EM\nunit - EM\n",
    // Eight units.
    "16 16 02 19 1F 86 19 1F 86 19 1F 86 19 1F 86 19 1F 86 19 1F 86 19 1F 86 19 83 1A FF: FAILED\n",
];

/// Whether this is printed for what was heard.
fn is_shown(alloc: Global, heard: &Heard<'_>, shown: &str) -> Result<bool, Fail> {
    let mut out = Vec::new(alloc);
    write_shown(alloc, Detail::Units, heard, &mut out)?;
    Ok(out.as_slice() == shown.as_bytes())
}

/// Whether this is printed for what the octets are heard as.
fn is_heard(alloc: Global, octets: &[u8], shown: &str) -> Result<bool, Fail> {
    is_shown(alloc, &decode(octets, &mut TextBuffer::new()), shown)
}

/// Whether this is printed for what the octets are heard as without a buffer, or they begin as a
/// text.
fn is_heard_short(alloc: Global, octets: &[u8], shown: &str) -> Result<bool, Fail> {
    match decode_short(octets) {
        Some(short) => is_shown(alloc, &short.heard(), shown),
        None => Ok(shown.as_bytes().starts_with(b"TEXT")),
    }
}

/// Whether the octets are what is sent for the message, whatever the buffer contained before.
fn sends(message: &Message<'_>, octets: &[u8]) -> bool {
    let mut wire = Wire::new();
    wire.push(0x55);
    encode(message, &mut wire);
    wire.as_slice() == octets
}

/// What the octets are heard as in place of what was sent: `WHOLE` if as that message.
fn kind_for(octets: &[u8], sent: &[u8]) -> &'static str {
    match &decode(octets, &mut TextBuffer::new()) {
        Heard::Whole(message) if sends(message, sent) => "WHOLE",
        Heard::Whole(Message::Eot) => "EOT",
        Heard::Whole(_) => "OTHER",
        Heard::Failed => "FAILED",
        Heard::Noise => "NOISE",
    }
}

/// Whether this is printed for what the octets are heard as, with a buffer and without one, and
/// they are what is sent for it.
fn is_read_and_sent(alloc: Global, octets: &[u8], shown: &str) -> Result<bool, Fail> {
    let is_read = is_heard(alloc, octets, shown)? && is_heard_short(alloc, octets, shown)?;
    Ok(is_read && kind_for(octets, octets) == "WHOLE")
}

/// Whether the octets of a row are heard as it says, and sent for that if they are a message in the
/// form in which it is sent.
fn is_right(alloc: Global, row: &str, is_sent: bool) -> Result<bool, Fail> {
    let (text, shown) = row.split_once(": ").ok_or("no row")?;
    let octets = read_octets(alloc, text.as_bytes())?.ok_or("not hexadecimal")?;
    if is_sent {
        is_read_and_sent(alloc, &octets, shown)
    } else {
        is_heard(alloc, &octets, shown)
    }
}

#[test]
fn messages_are_read_and_sent(rt: HostRuntime) -> Result<(), Fail> {
    for row in SENT {
        assert!(rt; is_right(rt.alloc(), row, true)?, "{row}");
    }
    Ok(())
}

#[test]
fn what_is_heard_is_named(rt: HostRuntime) -> Result<(), Fail> {
    for row in HEARD {
        assert!(rt; is_right(rt.alloc(), row, false)?, "{row}");
    }
    Ok(())
}

/// How often the parts of a row in angle brackets are repeated: units of characters A without EM,
/// of which the last one is too long, and SYN before EOT.
const LONG: &[(usize, &str)] = &[
    (81, "161602<C1>83C2FF: TEXT ETX 1\nunit <41>\n"),
    (144, "161602<C1>8383FF: TEXT ETX 1\nunit <41>\n"),
    (145, "161602<C1>83C2FF: FAILED\n"),
    (2047, "<16>04: EOT\n"),
    (2048, "<16>04: NOISE\n"),
];

/// The text with each of its parts in angle brackets this many times.
fn repeated(alloc: Global, text: &str, count: usize) -> Result<String, AllocError> {
    let mut all = String::new(alloc);
    for piece in text.split('<') {
        let (part, rest) = piece.split_once('>').unwrap_or(("", piece));
        for _ in 0..count {
            all.push_str(part)?;
        }
        all.push_str(rest)?;
    }
    Ok(all)
}

/// Whether a long transmission is heard as its row says.
fn is_long_right(alloc: Global, (count, row): &(usize, &str)) -> Result<bool, Fail> {
    is_right(alloc, &repeated(alloc, row, *count)?, false)
}

#[test]
fn units_have_144_characters_and_transmissions_2048_octets(rt: HostRuntime) -> Result<(), Fail> {
    for long in LONG {
        assert!(rt; is_long_right(rt.alloc(), long)?, "{}", long.1);
    }
    Ok(())
}

/// Transmissions of nine octets; what each of their fronts is heard as, from the empty one to the
/// whole; and how many of their 72 bits, the first ones, make noise of them when one is inverted.
/// With one of the others inverted they are a text that fails its check.
const DAMAGED: &[(&[u8], &str, usize)] = &[
    // A call of the character A.
    (
        b"\x16\x16\x04\xff\x16\x16\xc1\x85\xff",
        "NOISE NOISE NOISE EOT EOT NOISE NOISE NOISE WHOLE WHOLE",
        72,
    ),
    // The text of the one unit HI with EM.
    (
        b"\x16\x16\x02\xc8\x49\x19\x83\x9b\xff",
        "NOISE NOISE NOISE FAILED FAILED FAILED FAILED FAILED WHOLE WHOLE",
        24,
    ),
];

/// Whether the front of a transmission with this many octets is heard so.
fn is_front(sent: &[u8], count: usize, name: &str) -> bool {
    match sent.get(..count) {
        Some(front) => kind_for(front, sent) == name,
        None => false,
    }
}

#[test]
fn each_front_of_a_call_and_of_a_text(rt: HostRuntime) {
    for (sent, names, _) in DAMAGED {
        for (count, name) in names.split(' ').enumerate() {
            assert!(rt; is_front(sent, count, name), "{sent:?}, {count}");
        }
    }
}

// What a transmission of nine octets is heard as with the bit of this number inverted.
fn kind_without(sent: &[u8], bit: usize) -> &'static str
    requires { bit < 72 }
{
    let mut octets = [0; 9];
    if sent.len() != 9 {
        return "";
    }
    octets.copy_from_slice(sent);
    octets[bit / 8] ^= 1u8 << (bit % 8);
    kind_for(&octets, sent)
}

#[test]
fn each_bit_of_a_call_and_of_a_text_is_inverted(rt: HostRuntime) {
    for (sent, _, noisy) in DAMAGED {
        for bit in 0..72usize {
            let name = if bit < *noisy { "NOISE" } else { "FAILED" };
            assert!(rt; kind_without(sent, bit) == name, "{sent:?}, {bit}");
        }
    }
}
