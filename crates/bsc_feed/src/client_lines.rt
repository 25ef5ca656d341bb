//! The lines of a client, however its octets arrive.

ghost use Rattle.std.specs.Prelude.{◌≡◌, ◌≤◌, [], ◌++◌, length, min, option_map, take};
ghost use Rattle.bsc_feed.specs.Lines.{Fed, line_of};
ghost use Rattle.bsc_feed.specs.declared.limits.TheConstants.{KEPT};

use crate::limits::{KEPT, MAX_LINE};
use bsc_carrier::TwoBuffers;
use bsc_text::{split_at_first, without_return};
use std::marker::Model;

/// Divides the octets of a client into lines, however they arrive. Of each line the first 513
/// octets are kept. Octets after the last line feed are no line.
#[derive(Drop)]
pub struct ClientLines {
    /// The octets that arrived since the last line feed, and those of the last line.
    octets: TwoBuffers<KEPT>,
}

impl Model for ClientLines {
    ghost use Rattle.bsc_feed.specs.Lines.{LinesValue};

    ghost Value = { LinesValue };

    ghost view = { λ l. record { begun = l.octets.begun; ended = l.octets.complete } };
}

impl ClientLines {
    /// Creates the lines of a client from which nothing has arrived.
    pub fn new() -> ClientLines
        ensures begun { result.begun ≡ [] }
        ensures ended { result.ended ≡ [] }
    {
        ClientLines {
            octets: TwoBuffers::new(),
        }
    }

    /// Takes the octets of a piece up to its first line feed, and none after it; all of them if
    /// there is no line feed. Returns how many it took, and whether they ended a line.
    pub fn feed(&mut self, piece: &[u8]) -> (usize, bool)
        ensures { Fed self.old piece.now result self.new }
    {
        let (part, rest) = split_at_first(piece, b'\n');
        keep(&mut self.octets, part);
        match rest {
            Some(_) => {
                self.octets.turn();
                (part.len() + 1, true)
            }
            None => (part.len(), false),
        }
    }

    /// Returns the last line that ended, without its line feed and without one carriage return
    /// before it; `None` if it had more than 512 octets before its line feed.
    pub fn line(&self) -> Option<&[u8]>
        ensures { option_map (λ octets. octets.now) result ≡ line_of self.now.ended }
    {
        let line = self.octets.complete();
        if line.len() > MAX_LINE {
            return None;
        }
        Some(without_return(line))
    }
}

/// Appends octets to the line that has begun, as far as they are kept.
fn keep(octets: &mut TwoBuffers<KEPT>, part: &[u8])
    ensures begun { octets.new.begun ≡ take KEPT (octets.old.begun ++ part.now) }
    ensures complete { octets.new.complete ≡ octets.old.complete }
{
    let kept = (KEPT - octets.begun().len()).min(part.len());
    octets.append(&part[..kept]);
}
