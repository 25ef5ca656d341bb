//! What a station that is attended does not need any more is forgotten.

ghost use Rattle.std.specs.Prelude.{◌≡◌};
ghost use Rattle.bsc_attending.specs.Forgetting.{ForgetsAtTimes, ForgetsEach, ForgetsIf};
ghost use Rattle.bsc_attending.specs.Forgetting.{ForgetsUnneeded};

use bsc_keeping::Keeps;
use bsc_station::LineStation;

/// After this many steps a station forgets what it does not need any more.
const STEPS: u64 = 1_024;

/// Forgets of the channel with this number the records that arrived and were printed, if they are
/// many.
fn forget_printed_on<S: LineStation, Q: Keeps<S>>(station: &mut S, kept: &Q, number: usize)
    ensures { ForgetsIf S.forgets_arrived (Q.printed kept.now number) number station.old
        station.new }
{
    if let Some(printed) = kept.printed(number) {
        station.forget_first(number, printed);
    }
}

/// Forgets of each channel on which the station receives the records that arrived and were printed.
fn forget_printed<S: LineStation, Q: Keeps<S>>(station: &mut S, kept: &Q)
    ensures { ForgetsEach S.forgets_arrived (Q.printed kept.now) (S.receives station.old)
        station.old station.new }
{
    'channels: for number in 0..station.spools() {
        forget_printed_on(station, kept, number);
    }
}

/// Forgets what a station does not need any more: the records that are known to have arrived, and,
/// if so asked, those that arrived and were printed.
fn forget_unneeded<S: LineStation, Q: Keeps<S>>(station: &mut S, kept: &Q, printed: bool)
    ensures { ForgetsUnneeded S.forgets_sent S.forgets_arrived S.receives (Q.printed kept.now)
        printed station.old station.new }
{
    station.forget_known();
    if printed {
        forget_printed(station, kept);
    }
}

/// Does so once in 1,024 steps, of which this is the number.
pub(crate) fn forget_at_times<S: LineStation, Q: Keeps<S>>(
    station: &mut S,
    kept: &Q,
    printed: bool,
    count: u64,
)
    ensures { ForgetsAtTimes S.forgets_sent S.forgets_arrived S.receives (Q.printed kept.now)
        printed count station.old station.new }
{
    if count % STEPS == 0 {
        forget_unneeded(station, kept, printed);
    }
}
