//! What holds of every client, stated over the definitions that the contracts cite.

ghost use Rattle.std.specs.Prelude.{◌≡◌, ℕ, List, [], map};
ghost use Rattle.std.specs.List.{concat};
ghost use Rattle.bsc_feed.specs.Answering.{serving_of};
ghost use Rattle.bsc_feed.specs.Sessions.{ChangesByLines, ObeysEachLine, TellsEachOnce};
ghost use Rattle.bsc_feed.specs.Lines.{AreLines, Divides, LinesValue, kept_of, line_of};

use crate::Served;

/// However the octets of a client arrive, the lines that end are those of all its octets, each once
/// and in order, and the octets after the last line feed end none.
pub fn lines()
    ensures any_pieces { (old new : LinesValue) (pieces kept : List (List ℕ))
        → old.begun ≡ [] → Divides old pieces kept new
        → (lines : List (List ℕ)) × (half : List ℕ) × AreLines (concat pieces) lines half
        × (kept ≡ map kept_of lines) × (new.begun ≡ kept_of half) }

    // What is kept of a line says all that the line says.
    ensures kept { (line : List ℕ) → line_of (kept_of line) ≡ line_of line }

    // All octets are lines and a half line, in exactly one way.
    ensures one { (octets : List ℕ)
        → (lines : List (List ℕ)) × (half : List ℕ) × AreLines octets lines half }
    ensures no_others { (octets : List ℕ) (lines others : List (List ℕ)) (half other : List ℕ)
        → AreLines octets lines half → AreLines octets others other
        → (lines ≡ others) × (half ≡ other) }
{}

/// In every session of a client, however its octets arrive and however seldom it is told something,
/// what it sends obeys the station line by line, and nothing but a line changes the station; and of
/// a channel that it follows it is told each record once, in order.
pub fn sessions<S: Served>()
    // The lines that were obeyed, and the one that waits for its answer, are all lines of the
    // client that are not skipped, each once and in order; a half line is not one of them.
    ensures lines { ObeysEachLine S.Party (serving_of S.Served.own) }

    // Where no line waits, the station is as it was, whatever is told.
    ensures quiet { ChangesByLines S.Party (serving_of S.Served.own) }

    // What is told of a followed channel are its records from the number asked for, in order, each
    // once, those that had arrived and those that arrive.
    ensures arrivals { TellsEachOnce S.Party (serving_of S.Served.own) }
{}
