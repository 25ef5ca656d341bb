//! Transmissions as socket records.

use crate::Framing;
use bsc_carrier::limits::MAX_RECORD;
use bsc_carrier::{Assembler, CarrierError, write_record};
use std::io::Write;

/// A framing in which a transmission is one socket record: a length of two octets, then the octets
/// of the transmission. A record that has begun when a time-out passes is kept.
#[derive(Drop)]
pub struct SocketRecords {
    assembler: Assembler,
}

impl Framing for SocketRecords {
    ghost use Rattle.std.specs.Prelude.{◌≡◌, [], false, not};
    ghost use Rattle.bsc_carrier.specs.Assembler.{Fed, wanted_after};
    ghost use Rattle.bsc_carrier.specs.Record.{IsCarried, socket_record};
    ghost use Rattle.bsc_connections.specs.Framings.{is_empty};

    ghost starts = { λ records.
        (records.assembler.begun ≡ []) × (records.assembler.complete ≡ []) };

    ghost feeds = { λ old piece result new. Fed old.assembler piece result new.assembler };

    ghost ends = { λ old ended new. (ended ≡ false) × (new ≡ old) };

    ghost awaits = { λ _. false };

    ghost short = { λ records. not (is_empty records.assembler.begun) };

    ghost last = { λ records. records.assembler.complete };

    ghost room = { λ records. wanted_after records.assembler.begun };

    ghost framed = { socket_record };

    ghost carries = { IsCarried };

    fn new() -> SocketRecords {
        SocketRecords {
            assembler: Assembler::new(),
        }
    }

    fn wanted(&self) -> usize {
        self.assembler.wanted()
    }

    fn feed(&mut self, piece: &[u8]) -> Result<(usize, bool), CarrierError> {
        self.assembler.feed(piece)
    }

    fn gap(&mut self) -> bool {
        false
    }

    fn awaits_gap(&self) -> bool {
        false
    }

    fn is_short(&self) -> bool {
        !self.assembler.between()
    }

    fn octets(&self) -> &[u8] {
        self.assembler.octets()
    }

    fn write<W: Write>(writer: &mut W, octets: &[u8]) -> Result<(), CarrierError> {
        if octets.is_empty() || octets.len() > MAX_RECORD {
            return Err(CarrierError::Length);
        }
        write_record(writer, octets)
    }
}
