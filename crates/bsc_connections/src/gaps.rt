//! Transmissions as octets between gaps.

use crate::Framing;
use crate::limits::{KEPT, MAX_READ, MOST_WITHOUT_GAP};
use bsc_carrier::{CarrierError, DeviceFault, TwoBuffers};
use std::io::Write;
use std::marker::Model;

/// A framing in which a transmission is the octets, as they stand on the line, that arrive without
/// a gap between them; the end of the input ends one as a gap does. Of a transmission longer than
/// 2,048 octets the first 2,049 are kept, so that it is heard as noise. `feed` fails with `Length`
/// if more than 1,048,576 octets arrive without a gap.
#[derive(Drop)]
pub struct Gaps {
    /// The octets that arrived since the last gap, and those of the last transmission that a gap
    /// ended, at most the first 2,049 of each.
    octets: TwoBuffers<KEPT>,
    /// The number of octets that arrived since the last gap.
    arrived: usize,
}

impl Model for Gaps {
    ghost use Rattle.std.specs.Prelude.{◌≤◌, ◌≡◌, min, length};
    ghost use Rattle.bsc_connections.specs.declared.limits.TheConstants.{MOST_WITHOUT_GAP};
    ghost use Rattle.bsc_connections.specs.Framings.{GapsValue};

    ghost Value = { GapsValue };

    ghost view = { λ g. record {
      begun = g.octets.begun;
      arrived = g.arrived;
      complete = g.octets.complete;
    } };

    ghost invariant = { λ g. g.arrived ≤ MOST_WITHOUT_GAP };
}

impl Framing for Gaps {
    ghost use Rattle.std.specs.Prelude.{◌≡◌, [], false, not};
    ghost use Rattle.bsc_connections.specs.declared.limits.TheConstants.{MAX_READ};
    ghost use Rattle.bsc_connections.specs.Framings.{Gathers, EndsAtGap, is_empty};

    ghost starts = { λ gaps. (gaps.begun ≡ []) × (gaps.arrived ≡ 0) × (gaps.complete ≡ []) };

    ghost feeds = { Gathers };

    ghost ends = { EndsAtGap };

    ghost awaits = { λ gaps. not (is_empty gaps.begun) };

    ghost short = { λ _. false };

    ghost last = { λ gaps. gaps.complete };

    ghost room = { λ _. MAX_READ };

    ghost framed = { λ octets. octets };

    ghost carries = { λ _. Unit {0} };

    fn new() -> Gaps {
        Gaps {
            octets: TwoBuffers::new(),
            arrived: 0,
        }
    }

    fn wanted(&self) -> usize {
        MAX_READ
    }

    #[tactic(auto, using(bsc_carrier::proofs::Kept::take_of_appended))]
    fn feed(&mut self, piece: &[u8]) -> Result<(usize, bool), CarrierError> {
        if piece.len() > MOST_WITHOUT_GAP - self.arrived {
            return Err(CarrierError::Length);
        }
        let kept = (KEPT - self.octets.begun().len()).min(piece.len());
        self.octets.append(&piece[..kept]);
        self.arrived += piece.len();
        Ok((piece.len(), false))
    }

    fn gap(&mut self) -> bool {
        if self.octets.begun().is_empty() {
            return false;
        }
        self.octets.turn();
        self.arrived = 0;
        true
    }

    fn awaits_gap(&self) -> bool {
        !self.octets.begun().is_empty()
    }

    /// Returns false: a transmission that has begun is complete when the input ends.
    fn is_short(&self) -> bool {
        false
    }

    fn octets(&self) -> &[u8] {
        self.octets.complete()
    }

    fn write<W: Write>(writer: &mut W, octets: &[u8]) -> Result<(), CarrierError> {
        match writer.write_all(octets) {
            Ok(()) => Ok(()),
            Err(error) => Err(CarrierError::Device {
                why: DeviceFault::of(error.kind()),
            }),
        }
    }
}
