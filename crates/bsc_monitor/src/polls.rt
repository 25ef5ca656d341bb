//! The poll list of a station is changed while it is attended.

ghost use Rattle.std.specs.Prelude.{◌≡◌};
ghost use Rattle.bsc_monitor.specs.Polls.{Settles, are_settled, is_as_wanted};

use crate::Presences;
use bsc_station::LineStation;

/// Returns whether a terminal that is wanted is polled, or one that is not wanted is not.
fn is_as_wanted(wanted: bool, polled: bool) -> bool
    ensures { result ≡ is_as_wanted wanted polled }
{
    if wanted { polled } else { !polled }
}

/// Returns whether each terminal of a station is polled exactly if its monitor wants it.
pub fn is_settled<S: LineStation, M: Presences>(station: &S, watch: &M) -> bool
    ensures { result
        ≡ are_settled (S.is_called station.now) (M.wants watch.now) (S.count station.now) }
{
    let mut settled = true;
    'terminals: for terminal in 0..station.terminals() {
        let is_called = station.is_called(terminal);
        settled &= is_as_wanted(watch.wants(terminal), is_called);
    }
    settled
}

/// Has each terminal of a station polled exactly if its monitor wants it.
pub fn settle<S: LineStation, M: Presences>(station: &mut S, watch: &M)
    ensures { Settles S.polls (M.wants watch.now) (S.count station.old) station.old station.new }
{
    'terminals: for terminal in 0..station.terminals() {
        station.set_called(terminal, watch.wants(terminal));
    }
}
