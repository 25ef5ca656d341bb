//! The law of texts in a document. It is about the definitions only.

ghost use Rattle.bsc_chart.specs.Escapes.{IsNamed, IsPlain};

/// The text of some characters has no `<`, no `>`, no quote and no control code, and an ampersand
/// only as the beginning of one of five names.
pub fn escapes()
    ensures plain { IsPlain }
    ensures named { IsNamed }
{}
