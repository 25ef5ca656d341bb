//! From messages to octets: the one form in which each message is sent.
ghost use Rattle.std.specs.Prelude.{◌≡◌, ◌≤◌, ◌<◌, ◌+◌, [], ◌∷◌, ◌++◌, length, take, drop, map};
ghost use Rattle.std.specs.Prelude.{All, if◌then◌else◌};
ghost use Rattle.bsc_octet.specs.Octet.{IsCode, odd_octet};
ghost use Rattle.bsc_frame.specs.Texts.{IsUnit, IsText};
ghost use Rattle.bsc_frame.specs.Message.{IsMessage};
ghost use Rattle.bsc_frame.specs.Units.{text_unit, end_code, ending, unit_wire, units_wire};
ghost use Rattle.bsc_frame.specs.Wire.{wire as wire_of};

use crate::buffer::append;
use crate::limits::{MAX_SENT, MAX_UNIT_SENT, WIRE_ROOM};
use crate::{End, Message, Text, Unit};
use arrayvec::ArrayVec;
use bsc_octet::controls::{
    CALL_START, EM_CODE, ENQ, EOT, ETB_CODE, ETX_CODE, PAD, START, STX, US_CODE,
};
use bsc_octet::{carried, put_check};

/// The octets of one transmission that is sent: at most [`MAX_SENT`] of them.
pub type Wire = ArrayVec<u8, WIRE_ROOM>;

/// A buffer for the octets of a unit.
type UnitOctets = [u8; MAX_UNIT_SENT];

/// Writes the octets that carry the codes to the front of the buffer. The loop has no branch, so a
/// compiler vectorizes it.
#[tactic(auto, using(crate::proofs::WireSteps::put_more, crate::proofs::WireSteps::put_all))]
fn put_codes(octets: &mut UnitOctets, codes: &[u8])
    requires room { length codes.now ≤ MAX_UNIT_SENT }
    requires codes { All IsCode codes.now }
    ensures { take (length codes.now) octets.new ≡ map odd_octet codes.now }
{
    for (i, code) in codes.iter().enumerate() {
        octets[i] = carried(*code);
    }
}

/// Writes the octet after the first `count` octets and returns the new count.
#[tactic(auto, using(std::proofs::lemmas::List::take_more_set))]
fn put(octets: &mut UnitOctets, count: usize, octet: u8) -> usize
    requires { count < MAX_UNIT_SENT }
    ensures octets { take result octets.new ≡ take count octets.old ++ octet ∷ [] }
    ensures count { result ≡ count + 1 }
{
    octets[count] = octet;
    count + 1
}

/// Writes EM after the first `count` octets if the unit has EM, and returns the new count.
fn put_em(octets: &mut UnitOctets, count: usize, em: bool) -> usize
    requires { count < MAX_UNIT_SENT }
    ensures octets { take result octets.new
        ≡ take count octets.old ++ (if em then EM_CODE ∷ [] else []) }
    ensures count { result ≤ count + 1 }
{
    if em {
        return put(octets, count, EM_CODE);
    }
    count
}

/// Writes the octets of the unit and its check, and returns how many they are.
fn put_unit(octets: &mut UnitOctets, unit: Unit<'_>, ending: u8) -> usize
    requires unit { IsUnit (text_unit unit) }
    requires ending { IsCode ending }
    ensures octets { take result octets.new ≡ unit_wire (text_unit unit.entry) ending }
    ensures count { result ≤ MAX_UNIT_SENT }
{
    put_codes(octets, unit.chars);
    let count = put_em(octets, unit.chars.len(), unit.em);
    let count = put(octets, count, carried(ending));
    put_check(octets, count)
}

/// Appends the octets that carry the codes, one at a time.
fn append_codes(wire: &mut Wire, codes: &[u8])
    requires room { length wire.old.items + length codes.now ≤ MAX_SENT }
    requires codes { All IsCode codes.now }
    ensures { wire.new.items ≡ wire.old.items ++ map odd_octet codes.now }
{
    for code in codes {
        wire.push(carried(*code));
    }
}

/// Returns the code of the character that ends the last unit.
fn end_char(end: End) -> u8
    ensures { result ≡ end_code end }
{
    match end {
        End::Etb => ETB_CODE,
        End::Etx => ETX_CODE,
    }
}

/// Appends the unit and its check.
fn append_unit(wire: &mut Wire, unit: Unit<'_>, ending: u8)
    requires unit { IsUnit (text_unit unit) }
    requires ending { IsCode ending }
    requires room { length wire.old.items + length (unit_wire (text_unit unit) ending) ≤ MAX_SENT }
    ensures { wire.new.items ≡ wire.old.items ++ unit_wire (text_unit unit.entry) ending }
{
    let mut octets = [0; MAX_UNIT_SENT];
    let count = put_unit(&mut octets, unit, ending);
    append(wire, &octets[..count]);
}

/// Returns the code of the character that ends the unit at `place`: US for every unit but the last.
#[tactic(auto, using(crate::proofs::WireSteps::ending_more, crate::proofs::WireSteps::ending_last))]
fn ending_at(text: &Text<'_>, place: usize) -> u8
    requires { place < length text.now.units }
    ensures value { result ≡ ending (drop (place + 1) text.now.units) text.now.end }
    ensures code { IsCode result }
{
    let count = text.count();
    if place + 1 < count {
        US_CODE
    } else {
        end_char(text.end())
    }
}

/// Appends the units of the text. This is a function of its own because only a text needs a buffer
/// for the octets of a unit.
#[inline(never)]
#[tactic(auto, using(crate::proofs::WireSteps::wire_next))]
fn append_units(wire: &mut Wire, text: &Text<'_>)
    requires room { length wire.old.items ≤ 3 }
    ensures units { wire.new.items ≡ wire.old.items ++ units_wire text.now.units text.now.end }
    ensures short { length wire.new.items < MAX_SENT }
    ensures text { IsText text.now }
{
    for place in 0..text.count() {
        append_unit(wire, text.unit(place), ending_at(text, place));
    }
}

/// Replaces the contents of the wire by the octets of the message: two SYN, the body, one PAD. They
/// are at most 1,033, so there is always room. (GA27-3004: control sequences, polling and
/// selection, text blocks, VRC and LRC checking.)
pub fn encode(message: &Message<'_>, wire: &mut Wire)
    ensures wire { wire.new.items ≡ wire_of message.now }
    ensures message { IsMessage message.now }
{
    wire.clear();
    append(wire, &START);
    match message {
        Message::Eot => append(wire, &[EOT]),
        Message::Call(address) => {
            append(wire, &CALL_START);
            append_codes(wire, address.codes());
            append(wire, &[ENQ]);
        }
        Message::Enq => append(wire, &[ENQ]),
        Message::Reply(reply) => append(wire, reply.octets()),
        Message::Text(text) => {
            append(wire, &[STX]);
            append_units(wire, text);
        }
    }
    append(wire, &[PAD]);
}
