//! The content of a call or a text, in storage of fixed size that C declares.
ghost use Rattle.std.specs.Prelude.{◌≡◌, Some, option_map, drop};
ghost use Rattle.std.specs.List.{list_all};
ghost use Rattle.bsc_frame.specs.Octet.{is_record_char as is_record_code};
ghost use Rattle.bsc_frame.specs.Units.{text_unit};
ghost use Rattle.bsc_frame.specs.Texts.{IsUnit};
ghost use Rattle.bsc_embed.specs.Contents.{unit_in, end_at, text_in, address_in};
ghost use Rattle.bsc_embed.specs.Decoded.{KeepsRestOfCall, KeepsRestOfText};

use bsc_frame::controls::{ETB_CODE, ETX_CODE};
use bsc_frame::limits::{MAX_ADDRESS, MAX_CHARS, MAX_UNITS};
use bsc_frame::{Address, End, Text, TextBuffer, Unit, is_record_char};

/// A unit of a text: `struct bsc_unit` of `bsc.h`. C may put any octet into any field.
#[repr(C)]
#[derive(Clone, Copy)]
pub struct StoredUnit {
    /// The codes, of which only the first `len` count.
    pub chars: [u8; MAX_CHARS],

    /// The number of characters, 0 to 144.
    pub len: u8,

    /// Whether EM follows the characters: 0 if it does not, else any other number.
    pub em: u8,
}

/// The content of a call or a text: `struct bsc_content` of `bsc.h`. C may put any octet into any
/// field.
#[repr(C)]
#[derive(Clone, Copy)]
pub struct Content {
    /// The units of a text, of which only the first `count` count.
    pub units: [StoredUnit; MAX_UNITS],

    /// The number of units of the text, 1 to 7.
    pub count: u8,

    /// The code of the character that ends the text: 0x17 for ETB, 0x03 for ETX.
    pub end: u8,

    /// The codes of the address of a call, of which only the first `address_len` count.
    pub address: [u8; MAX_ADDRESS],

    /// The number of codes of the address, 1 to 7.
    pub address_len: u8,
}

impl StoredUnit {
    /// Stores the unit here.
    fn put(&mut self, unit: Unit<'_>)
        requires { IsUnit (text_unit unit) }
        ensures unit { unit_in self.new ≡ Some (text_unit unit.entry) }
        ensures kept { drop self.new.len self.new.chars ≡ drop self.new.len self.old.chars }
    {
        let len = unit.chars.len();
        self.chars[..len].copy_from_slice(unit.chars);
        self.len = len as u8;
        self.em = unit.em as u8;
    }

    /// Returns the unit stored here, if it is one.
    #[tactic(auto, unfolding(crate::specs::Contents::unit_in))]
    fn unit(&self) -> Option<Unit<'_>>
        ensures { option_map text_unit result ≡ unit_in self.now }
    {
        let len = self.len as usize;
        if len > MAX_CHARS {
            return None;
        }
        let chars = &self.chars[..len];
        if !are_record_chars(chars) {
            return None;
        }
        Some(Unit {
            chars,
            em: self.em > 0,
        })
    }
}

/// Returns whether each code is a record character. It does not stop at the first that is not, so
/// that the compiler can use lanes.
fn are_record_chars(codes: &[u8]) -> bool
    ensures { result ≡ list_all is_record_code codes.now }
{
    let mut all = true;
    for code in codes {
        all &= is_record_char(*code);
    }
    all
}

/// Returns the end of a text, by the code of its character.
fn end_of(code: u8) -> Option<End>
    ensures { result ≡ end_at code }
{
    match code {
        ETB_CODE => Some(End::Etb),
        ETX_CODE => Some(End::Etx),
        _ => None,
    }
}

/// Returns the code of the character that ends a text.
fn end_code(end: End) -> u8
    ensures { end_at result ≡ Some end }
{
    match end {
        End::Etb => ETB_CODE,
        End::Etx => ETX_CODE,
    }
}

impl Content {
    /// Stores the address here.
    pub(crate) fn put_address(&mut self, address: &Address)
        ensures address { address_in self.new ≡ Some address.now }
        ensures kept { KeepsRestOfCall self.old self.new }
    {
        let codes = address.codes();
        self.address[..codes.len()].copy_from_slice(codes);
        self.address_len = codes.len() as u8;
    }

    /// Returns the address stored here, if it is one.
    #[tactic(auto, unfolding(crate::specs::Contents::address_in))]
    pub(crate) fn address(&self) -> Option<Address>
        ensures { result ≡ address_in self.now }
    {
        let len = self.address_len as usize;
        if len > MAX_ADDRESS {
            return None;
        }
        Address::read(&self.address[..len]).ok()
    }

    /// Stores the text here.
    pub(crate) fn put_text(&mut self, text: &Text<'_>)
        ensures text { text_in self.new ≡ Some text.now }
        ensures kept { KeepsRestOfText self.old self.new }
    {
        for place in 0..text.count() {
            self.units[place].put(text.unit(place));
        }
        self.count = text.count() as u8;
        self.end = end_code(text.end());
    }

    /// Returns the text stored here, if it is one. Its units are copied into the buffer. It is a
    /// separate function so that only this call needs room for the units.
    #[inline(never)]
    pub(crate) fn text<'a>(&self, buffer: &'a mut TextBuffer) -> Option<Text<'a>>
        ensures { result ≡ text_in self.now }
    {
        let count = self.count as usize;
        if count == 0 || count > MAX_UNITS {
            return None;
        }
        let end = end_of(self.end)?;
        let mut units = [Unit {
            chars: &[],
            em: false,
        }; MAX_UNITS];
        for place in 0..count {
            units[place] = self.units[place].unit()?;
        }
        Some(buffer.hold(&units[..count], end))
    }
}
