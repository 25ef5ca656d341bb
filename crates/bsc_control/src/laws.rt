//! The law of a control station that is made again from what was kept. It is about the definitions
//! only.

ghost use Rattle.std.specs.Prelude.{◌≡◌, ◌<◌, ℕ, length};
ghost use Rattle.bsc_bid.specs.Stored.{FitsOffered};
ghost use Rattle.bsc_control.specs.Control.{ControlValue, peer_at, restarted, terminals, with_peer};
ghost use Rattle.bsc_control.specs.Kept.{IsControl, IsNewControl, outbound_of};
ghost use Rattle.bsc_control.specs.Peer.{PeerValue};
ghost use Rattle.bsc_control.specs.Stored.{kept_of_side, BecomesRestarted, without_records};
ghost use Rattle.bsc_control.specs.Stored.{IsBegunAs, IsFilledAs, apart_from_room};

use bsc_bid::laws::recalls;

/// What is kept of a control station makes it again. A new station with the settings, the terminals
/// and the poll list of a station is as that one after a restart, apart from records and what is
/// known of them, and stays so while only these change: by offers, by records that are added to a
/// spool, and by recalls. A new sending side, to which the records of an old one were offered, and
/// which recalls what was kept of it, is that one after a restart. A station that is filled in this
/// way with all that was kept of a station is that station after a restart. What is kept of a
/// sending side fits its records, as [`kept`](crate::Control::kept) says of each.
pub fn made_again()
    ensures new { (c n : ControlValue) → IsNewControl c.setup (terminals c) c.poll_list n
        → IsBegunAs c n }
    ensures filled { (c n : ControlValue) (t : ℕ) (p : PeerValue)
        → without_records p ≡ without_records (peer_at n t)
        → IsBegunAs c n → IsBegunAs c (with_peer n t p) }
    ensures recalled { (c : ControlValue) (t s : ℕ) → IsControl c
        → s < length (peer_at c t).outbounds
        → FitsOffered (kept_of_side (outbound_of c t s))
        (length (outbound_of c t s).queue.offered)
        → BecomesRestarted c.setup (outbound_of c t s) }
    ensures restart { (c n : ControlValue) → IsControl c → IsControl n → IsFilledAs c n
        → apart_from_room n ≡ apart_from_room (restarted c) }
{
    recalls();
}
