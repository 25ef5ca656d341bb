//! How the octets of a connection are divided into transmissions.

ghost use Rattle.std.specs.Prelude.{◌≡◌, ℕ, ◌≤◌, Bool, List, length, OnOk, IfErr, IfOk, Result};
ghost use Rattle.std.specs.Io.KnownBytes.{Appends};
ghost use Rattle.bsc_carrier.specs.Faults.{IsDevice};
ghost use Rattle.bsc_carrier.specs.declared.error.CarrierError.{CarrierError as Error};

use bsc_carrier::CarrierError;
use std::io::Write;

/// Divides the octets of a connection into transmissions.
pub trait Framing {
    /// Whether this is a framing on which nothing has arrived.
    ghost starts: { Self → Type 0 };

    /// What feeding a piece does: the framing before, the piece, the result, the framing after.
    ghost feeds: { Self → List ℕ → Result (ℕ × Bool) Error → Self → Type 0 };

    /// What a gap does: the framing before, whether a transmission ended, the framing after.
    ghost ends: { Self → Bool → Self → Type 0 };

    /// Whether a transmission has begun that a gap would end.
    ghost awaits: { Self → Bool };

    /// Whether the end of the input would cut a transmission short, which a gap would not end.
    ghost short: { Self → Bool };

    /// The octets of the last complete transmission.
    ghost last: { Self → List ℕ };

    /// The length up to which a piece is taken whole.
    ghost room: { Self → ℕ };

    /// The octets that carry a transmission on a connection.
    ghost framed: { List ℕ → List ℕ };

    /// Whether these octets can be carried as one transmission.
    ghost carries: { List ℕ → Type 0 };

    /// Creates a framing on which nothing has arrived.
    fn new() -> Self
        ensures { starts result };

    /// Returns the length up to which a piece is taken whole.
    fn wanted(&self) -> usize
        ensures { result ≡ room self.now };

    /// Takes the octets of a piece up to the end of a transmission, and none of the next one.
    /// Returns how many octets it took, and whether they ended a transmission.
    fn feed(&mut self, piece: &[u8]) -> Result<(usize, bool), CarrierError>
        ensures feeds { feeds self.old piece.now result self.new }
        ensures whole { length piece.now ≤ room self.old
            → IfOk result (λ r. r.0 ≡ length piece.now) };

    /// Records that a gap has passed. Returns whether that ended a transmission.
    fn gap(&mut self) -> bool
        ensures ends { ends self.old result self.new }
        ensures ended { result ≡ awaits self.old };

    /// Returns whether a transmission has begun that a gap would end.
    fn awaits_gap(&self) -> bool
        ensures { result ≡ awaits self.now };

    /// Returns whether a transmission would be cut short if the input ended now.
    fn is_short(&self) -> bool
        ensures { result ≡ short self.now };

    /// Returns the octets of the last complete transmission; none at first.
    fn octets(&self) -> &[u8]
        ensures { result.now ≡ last self.now };

    /// Writes a transmission. If it can be carried, only a fault of the device is an error.
    fn write<W: Write>(writer: &mut W, octets: &[u8]) -> Result<(), CarrierError>
        ensures written { OnOk result
            (Appends (W.contents writer.old) (W.contents writer.new) (framed octets.now)) }
        ensures refused { IfErr result (λ error. carries octets.now → IsDevice error) };
}
