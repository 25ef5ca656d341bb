//! The laws of visits and of terminals that do not answer. They are about the definitions only.

ghost use Rattle.bsc_monitor.specs.Attendance.{AbsentBySilence};
ghost use Rattle.bsc_monitor.specs.Visits.{FollowsNew, FollowsHearing, FollowsSilence};

/// The visit to an entry, as it is counted from the control station's own task and place after each
/// of its transmissions, ends exactly when the table of the control station goes on from the poll
/// of this entry to the next call. A poll that is repeated ends no visit.
pub fn visits()
    ensures new_control { FollowsNew }
    ensures hearing { FollowsHearing }
    ensures silence { FollowsSilence }
{}

/// A terminal is absent after its visits exactly if it answered in none of the last ones, as many
/// as the limit says.
pub fn absences()
    ensures { AbsentBySilence }
{}
