//! Room for the units of a text. A text is built or decoded here, and then lent from here.
ghost use Rattle.std.specs.Prelude.{◌≡◌, ◌<◌, ◌≤◌, ◌++◌, [], ◌∷◌, length, map};
ghost use Rattle.std.specs.List.{AllByRecursion};
ghost use Rattle.bsc_frame.specs.Units.{text_unit};
ghost use Rattle.bsc_frame.specs.Texts.{IsUnit};

use crate::buffer::append;
use crate::limits::{MAX_TEXT_CHARS, MAX_UNITS};
use crate::text::Mark;
use crate::{End, Text, Unit};
use arrayvec::ArrayVec;

/// Room for the units of a text, 1 to 7 of at most 144 characters each. A [`Text`] borrows them
/// from here. A buffer that is used again costs less than a new one, since its 1,008 octets need
/// not be cleared.
#[derive(Drop)]
pub struct TextBuffer {
    chars: ArrayVec<u8, MAX_TEXT_CHARS>,
    marks: ArrayVec<Mark, MAX_UNITS>,

    /// The character that ends the text. It stands here and not in a [`Text`], which so is one
    /// reference and costs little to move.
    end: End,
}

impl TextBuffer {
    ghost use Rattle.bsc_frame.specs.TextBuffers.{buffer_units, buffer_text, IsTextBuffer};

    /// Returns a buffer without units.
    pub fn new() -> Self
        ensures units { buffer_units result ≡ [] }
        ensures buffer { IsTextBuffer result }
    {
        TextBuffer {
            chars: ArrayVec::new(),
            marks: ArrayVec::new(),
            end: End::Etx,
        }
    }

    /// Removes all units.
    pub(crate) fn clear(&mut self)
        ensures units { buffer_units self.new ≡ [] }
        ensures buffer { IsTextBuffer self.new }
    {
        self.chars.clear();
        self.marks.clear();
    }

    /// Adds the unit at the end.
    pub(crate) fn push(&mut self, unit: Unit<'_>)
        requires buffer { IsTextBuffer self.old }
        requires room { length (buffer_units self.old) < MAX_UNITS }
        requires unit { IsUnit (text_unit unit) }
        ensures units { buffer_units self.new ≡ buffer_units self.old ++ text_unit unit.entry ∷ [] }
        ensures buffer { IsTextBuffer self.new }
    {
        append(&mut self.chars, unit.chars);
        self.marks.push(Mark {
            end: self.chars.len(),
            em: unit.em,
        });
    }

    /// Replaces the units by these, at most 7.
    fn fill(&mut self, units: &[Unit])
        requires most { length units.now ≤ MAX_UNITS }
        requires each { AllByRecursion IsUnit (map text_unit units.now) }
        ensures units { buffer_units self.new ≡ map text_unit units.now }
        ensures buffer { IsTextBuffer self.new }
    {
        self.clear();
        for unit in units {
            self.push(*unit);
        }
    }

    /// Ends the text with this character.
    pub(crate) fn set_end(&mut self, end: End)
        requires buffer { IsTextBuffer self.old }
        ensures units { buffer_units self.new ≡ buffer_units self.old }
        ensures end { self.new.end ≡ end }
        ensures buffer { IsTextBuffer self.new }
    {
        self.end = end;
    }

    /// Replaces the text by these units, at most 7, with this end.
    pub(crate) fn set(&mut self, units: &[Unit], end: End)
        requires most { length units.now ≤ MAX_UNITS }
        requires each { AllByRecursion IsUnit (map text_unit units.now) }
        ensures units { buffer_units self.new ≡ map text_unit units.now }
        ensures end { self.new.end ≡ end }
        ensures buffer { IsTextBuffer self.new }
    {
        self.fill(units);
        self.set_end(end);
    }

    /// Lends the text, of 1 to 7 units.
    pub(crate) fn text(&self) -> Text<'_>
        requires buffer { IsTextBuffer self.now }
        requires some { 0 < length (buffer_units self.now) }
        ensures { result ≡ buffer_text self.entry.now }
    {
        Text { buffer: self }
    }

    /// Returns the characters of all units.
    pub(crate) fn chars(&self) -> &[u8]
        ensures { result.now ≡ self.now.chars.items }
    {
        self.chars.as_slice()
    }

    /// Returns the marks of the units.
    pub(crate) fn marks(&self) -> &[Mark]
        ensures { result.now ≡ self.now.marks.items }
    {
        self.marks.as_slice()
    }

    /// Returns the character that ends the text.
    pub(crate) fn end(&self) -> End
        ensures { result ≡ self.now.end }
    {
        self.end
    }

    /// Replaces the units by these, 1 to 7 of at most 144 record characters each, and lends the
    /// text of them with this end.
    pub fn hold(&mut self, units: &[Unit], end: End) -> Text<'_>
        requires some { 0 < length units.now }
        requires most { length units.now ≤ MAX_UNITS }
        requires each { AllByRecursion IsUnit (map text_unit units.now) }
        ensures { result ≡ record { units = map text_unit units.now; end = end } }
    {
        self.set(units, end);
        self.text()
    }
}
