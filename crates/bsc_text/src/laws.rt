//! The laws of texts in print. They are about the definitions only.

ghost use Rattle.bsc_text.specs.Forms.{HasOneReading, IsOneLine};
ghost use Rattle.bsc_text.specs.Lines.{AreLines, IsAsItIs};

/// A text in the form of [`Text`](crate::Form::Text) or [`Escaped`](crate::Escaped) has no line
/// feed and nothing else that a terminal obeys, and no other text has the same form. It is the text
/// itself, if that has only printable characters and no backslash.
pub fn text_form()
    ensures line { IsOneLine }
    ensures reading { HasOneReading }
    ensures same { IsAsItIs }
{}

/// A text in the form of [`Lines`](crate::Lines) has line feeds, but nothing else that a terminal
/// obeys, and is the text itself if that has nothing else.
pub fn lines_form()
    ensures { AreLines }
{}
