//! A station that is served and may fail.

ghost use Rattle.std.specs.Prelude.{◌≡◌, Bool, Option};
ghost use Rattle.bsc_connections.specs.declared.awaited.LiveError.{LiveError as LiveErrorValue};

use bsc_connections::LiveError;
use bsc_feed::Served;

/// A station that is served, and says why it has to end.
pub(crate) trait Failing: Served {
    /// Why the station has to end, if it has.
    ghost fails: { Self → Option LiveErrorValue };

    /// Whether a program asked it to end.
    ghost has_stopped: { Self → Bool };

    /// Returns why the station has to end at once, if it has.
    fn failure(&self) -> Option<LiveError>
        ensures { result ≡ fails self.now };

    /// Returns whether a program asked the station to end.
    fn is_stopped(&self) -> bool
        ensures { result ≡ has_stopped self.now };
}
