//! The text of a line, as it is made.
ghost use Rattle.std.specs.Prelude.{◌≡◌, true, OnOk};
ghost use Rattle.bsc_trace.specs.Texts.{IsLine, Writes, is_graphic};
ghost use Rattle.bsc_text.specs.Forms.{is_printable};

use crate::ladder::Style;
use crate::ladder::glyphs::{Glyph, glyph_text};
use bsc_text::{PrintError, put};
use itoa::Buffer;
use std::alloc::{AllocError, Allocator};
use std::io::Write;
use std::marker::Model;

/// The text of a line without its line feed: whatever is added to it, it stays one line, which no
/// terminal obeys.
#[derive(Drop)]
pub(crate) struct LineText<A: Allocator> {
    /// The characters in which glyphs are drawn.
    style: Style,

    /// The octets so far.
    octets: Vec<u8, A>,
}

impl<A: Allocator> Model for LineText<A> {
    ghost use Rattle.std.specs.Prelude.{ℕ, List};
    ghost use Rattle.std.specs.List.{AllPass};
    ghost use Rattle.bsc_trace.specs.Texts.{is_graphic};

    ghost Value = { List ℕ };

    ghost view = { λ t. t.octets.items };

    ghost invariant = { λ t. AllPass is_graphic t.octets.items };
}

impl<A: Allocator> LineText<A> {
    /// Returns the text of an empty line.
    pub(crate) fn new(alloc: A, style: Style) -> LineText<A> {
        LineText {
            style,
            octets: Vec::new(alloc),
        }
    }

    /// Adds an octet, or a dot in place of a control code.
    fn push(&mut self, octet: u8) -> Result<(), AllocError> {
        self.octets.push(graphic(octet))?;
        Ok(())
    }

    /// Adds characters as they are.
    pub(crate) fn push_str(&mut self, text: &str) -> Result<(), AllocError> {
        'octets: for &octet in text.as_bytes() {
            self.push(octet)?;
        }
        Ok(())
    }

    /// Adds characters, each that is not printable as a dot.
    pub(crate) fn push_visible(&mut self, chars: &[u8]) -> Result<(), AllocError> {
        'chars: for &code in chars {
            self.push(shown(code))?;
        }
        Ok(())
    }

    /// Adds the first characters, at most this many, in the same way.
    pub(crate) fn push_first(&mut self, chars: &[u8], most: usize) -> Result<(), AllocError> {
        if chars.len() <= most {
            return self.push_visible(chars);
        }
        self.push_visible(&chars[..most])
    }

    /// Adds a number in decimal digits.
    pub(crate) fn push_number(&mut self, number: u8) -> Result<(), AllocError> {
        self.push_str(Buffer::new().format(number))
    }

    /// Adds a glyph.
    pub(crate) fn push_glyph(&mut self, glyph: Glyph) -> Result<(), AllocError> {
        self.push_str(glyph_text(self.style, glyph))
    }

    /// Adds a glyph this many times.
    pub(crate) fn push_glyphs(&mut self, glyph: Glyph, count: usize) -> Result<(), AllocError> {
        'glyphs: for _ in 0..count {
            self.push_glyph(glyph)?;
        }
        Ok(())
    }

    /// Writes the line, with a line feed.
    pub(crate) fn write<W: Write>(&self, out: &mut W) -> Result<(), PrintError>
        ensures { OnOk result (Writes IsLine (W.contents out.old) (W.contents out.new)) }
    {
        put(&self.octets, out)?;
        put(b"\n", out)?;
        Ok(())
    }
}

/// Returns the octet, or a dot if it is a control code.
fn graphic(octet: u8) -> u8
    ensures { is_graphic result ≡ true }
{
    match octet {
        128.. => octet,
        _ => shown(octet),
    }
}

/// Returns the character, or a dot if it is not printable.
fn shown(code: u8) -> u8
    ensures { is_printable result ≡ true }
{
    match code {
        b' '..=b'~' => code,
        _ => b'.',
    }
}
