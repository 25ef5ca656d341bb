//! What holds of every station that is attended, stated over the definitions that the contracts
//! cite.

ghost use Rattle.std.specs.Prelude.{◌≡◌, ℕ, ◌+◌, ◌≤◌, Bool, true, [], List, length};
ghost use Rattle.std.specs.List.{concat};
ghost use Rattle.bsc_connections.specs.Admissions.{HearsWhatIsAdmitted};
ghost use Rattle.bsc_connections.specs.Framings.{GapsValue, GathersAll, ArriveBetweenGaps, EndsAll};
ghost use Rattle.bsc_connections.specs.Parts.{connection_parts, session_parts};
ghost use Rattle.bsc_connections.specs.Silences.{TellsEachSilence};
ghost use Rattle.bsc_connections.specs.declared.socket_records.SocketRecords.{SocketRecords as RecordsValue};
ghost use Rattle.bsc_connections.specs.Streams.{CarriesHistory, GivesRecords, GivesByGaps};
ghost use Rattle.bsc_connections.specs.Streams.{LosesNothing, SplitsAll};

use crate::limits::MOST_WITHOUT_GAP;
use crate::{Framing, Gaps, Monitor, SocketRecords, Waiter};
use bsc_bid::Station;
use std::io::{Read, Write};

/// However a transmission is divided into pieces that arrive without a gap, the next gap ends a
/// transmission of the first 2,049 of their octets: all of them if there are at most 2,048, else
/// octets that are heard as noise.
pub fn gaps()
    ensures ended { (old new : GapsValue) (pieces : List (List ℕ)) (ended : Bool)
        → ArriveBetweenGaps old pieces ended new → EndsAll old pieces ended new }

    // After a gap that ended a transmission no octets are held and the count is 0.
    ensures anew { (old new : GapsValue) (pieces : List (List ℕ))
        → ArriveBetweenGaps old pieces true new → (new.begun ≡ []) × (new.arrived ≡ 0) }

    // Every octet that arrives is counted, kept or not, and the count is bounded.
    ensures counted { (old new : GapsValue) (pieces : List (List ℕ))
        → GathersAll old pieces new → new.arrived ≡ old.arrived + length (concat pieces) }
    ensures bounded { (old new : GapsValue) (pieces : List (List ℕ))
        → old.arrived ≤ MOST_WITHOUT_GAP → GathersAll old pieces new
        → old.arrived + length (concat pieces) ≤ MOST_WITHOUT_GAP }
{}

/// In every session over socket records, a connection carries what the history says. This holds for
/// each connection that is open at the end of a session, from the start of the session, or else
/// from when its peer joined. Each transmission that arrived at its place, and was heard there or
/// ignored, came in one record of its input, in order; a record that has begun is kept over
/// time-outs; and one record of each transmission that was sent was written to its output, in
/// order.
pub fn streams<S: Station, R: Read + Drop, W: Write + Drop, T: Waiter<R, W>, M: Monitor<S>>()
    ensures history { CarriesHistory
        (session_parts S.Station R.Read W.Write ⟦<SocketRecords as Framing>⟧ M.is_told
        M.admits M.may_answer M.paces T.Waiter) GivesRecords }
    ensures records { (old new : RecordsValue) (given : List ℕ) (arrived : List (List ℕ))
        → SplitsAll old given arrived new }
{}

/// In every session over gaps, a connection carries what the history says. This holds for each
/// connection that is open at the end of a session, from the time that [`streams`] names. The
/// transmissions that arrived at its place, and were heard there or ignored, are the octets of its
/// input as gaps and the end of the input divide them, the first 2,049 of each; and the octets of
/// each transmission that was sent were written to its output, in order.
pub fn streams_by_gaps<
    S: Station,
    R: Read + Drop,
    W: Write + Drop,
    T: Waiter<R, W>,
    M: Monitor<S>,
>()
    ensures history { CarriesHistory (session_parts S.Station R.Read W.Write ⟦<Gaps as Framing>⟧
        M.is_told M.admits M.may_answer M.paces T.Waiter) GivesByGaps }

    // The end of the input ends the transmission that has begun before it closes the connection.
    ensures ended { LosesNothing (connection_parts R.Read W.Write ⟦<Gaps as Framing>⟧) }
{}

/// A step of a session has one silence if its wait ended with the time-out, and none otherwise.
pub fn silences<
    S: Station,
    R: Read + Drop,
    W: Write + Drop,
    F: Framing + Drop,
    T: Waiter<R, W>,
    M: Monitor<S>,
>()
    ensures { TellsEachSilence (session_parts S.Station R.Read W.Write F.Framing M.is_told
        M.admits M.may_answer M.paces T.Waiter) }
{}

/// The monitor has admitted every transmission that a station hears. If it does not admit one, the
/// station does not change, nothing is sent for it, and no time-out moves.
pub fn admissions<
    S: Station,
    R: Read + Drop,
    W: Write + Drop,
    F: Framing + Drop,
    T: Waiter<R, W>,
    M: Monitor<S>,
>()
    ensures { HearsWhatIsAdmitted (session_parts S.Station R.Read W.Write F.Framing M.is_told
        M.admits M.may_answer M.paces T.Waiter) }
{}
