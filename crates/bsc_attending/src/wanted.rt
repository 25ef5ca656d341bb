//! The connections that a station asks for.

ghost use Rattle.std.specs.Prelude.{◌≡◌, ◌*◌, ◌/◌, min};
ghost use Rattle.std.specs.Duration.{as_nanos};
ghost use Rattle.bsc_carrier.specs.declared.limits.TheConstants.{MAX_CONNECTIONS};
ghost use Rattle.bsc_options.specs.Settings.{place_value, settings_value};
ghost use Rattle.bsc_attending.specs.Wanted.{control_wants, input_if, is_listening, is_traced};
ghost use Rattle.bsc_attending.specs.Wanted.{terminal_wants, wanted_value};

use bsc_carrier::limits::MAX_CONNECTIONS;
use bsc_options::{Place, StationSettings};
use bsc_report::Tracing;
use bsc_sockets::{ConnectionSettings, Peers};
use bsc_trust::Networks;
use std::os::fd::RawFd;
use std::time::Duration;

/// The time that a station that listens waits for each peer, in milliseconds.
const LISTENING_PATIENCE: u64 = 60_000;

/// The descriptor of standard input.
const STANDARD_INPUT: RawFd = 0;

/// The share of the time-out of a line after which what a station sends is late: half. The other
/// half is left for what the station does not see: the way of the octets in both directions, and
/// the time before its peer reads them.
const LATE_SHARE: u32 = 2;

/// The connections that a station asks for.
#[derive(Clone, Copy)]
pub struct Wanted<'a> {
    /// Their place.
    pub place: Place<'a>,

    /// The number of connections: 1 to 64, or 1 if a peer listens.
    pub connections: usize,

    /// The number of connections that are made before the station begins, if it listens; the others
    /// may be made later.
    pub begin_with: usize,

    /// Whether transmissions are raw octets and end at gaps.
    pub raw: bool,

    /// The networks from which peers may connect, if they connect to the station.
    pub allowed: Networks,

    /// Whether the station is asked to end when standard input ends.
    pub stops: bool,

    /// Whether other peers may connect later in place of those that have gone.
    pub stays: bool,

    /// Whether the first wait ends at once, so that the station makes the first call.
    pub begins: bool,

    /// Whether a silence takes no waiting that nobody can break.
    pub skips: bool,

    /// The time-out in milliseconds.
    pub time_out: u64,

    /// The gap in milliseconds.
    pub gap: u64,

    /// How long to try to connect, in milliseconds.
    pub patience: u64,

    /// After how much silence a newcomer replaces a connection that has not answered, in
    /// milliseconds.
    pub replace_after: u64,

    /// The pause with which a wait begins if the monitor asks for it, in milliseconds.
    pub pause: u64,

    /// The time-out of the line, which is that of its terminals, in milliseconds.
    pub line_time_out: u64,

    /// Whether what happens is traced.
    pub trace: bool,

    /// A descriptor that is readable when a program that feeds the station may have to be served;
    /// `None` if no program can reach it.
    pub serves: Option<RawFd>,

    /// A descriptor that is readable when standard output takes more; `None` if the station has no
    /// store, or if the system does not report standard output.
    pub prints: Option<RawFd>,
}

impl Wanted<'_> {
    /// Returns the settings of the connections.
    pub fn settings(&self) -> ConnectionSettings
        ensures time_out { as_nanos result.time_out ≡ self.now.time_out * 1000000 }
        ensures gap { as_nanos result.gap ≡ self.now.gap * 1000000 }
        ensures replace_after { as_nanos result.replace_after ≡ self.now.replace_after * 1000000 }
        ensures pause { as_nanos result.pause ≡ self.now.pause * 1000000 }
        ensures late_after { as_nanos result.late_after
            ≡ self.now.line_time_out * 1000000 / LATE_SHARE }
        ensures begins { result.begins ≡ self.now.begins }
        ensures skips { result.skips ≡ self.now.skips }
        ensures allowed { result.allowed ≡ self.now.allowed }
        ensures stops { result.stops_with ≡ input_if self.now.stops }
        ensures serves { result.serves ≡ self.now.serves }
        ensures prints { result.prints ≡ self.now.prints }
    {
        ConnectionSettings {
            time_out: Duration::from_millis(self.time_out),
            gap: Duration::from_millis(self.gap),
            replace_after: Duration::from_millis(self.replace_after),
            pause: Duration::from_millis(self.pause),
            late_after: Duration::from_millis(self.line_time_out) / LATE_SHARE,
            begins: self.begins,
            skips: self.skips,
            allowed: self.allowed,
            stops_with: if self.stops {
                Some(STANDARD_INPUT)
            } else {
                None
            },
            serves: self.serves,
            prints: self.prints,
        }
    }

    /// Returns the peers that connect to a station if it listens: one for each connection, at most
    /// 64, of which it waits for some, for up to 60 seconds each.
    pub fn peers(&self) -> Peers
        ensures count { result.count ≡ min self.now.connections MAX_CONNECTIONS }
        ensures begin_with { result.begin_with ≡ self.now.begin_with }
        ensures patience { as_nanos result.patience ≡ 60000 * 1000000 }
        ensures keeps_listening { result.keeps_listening ≡ self.now.stays }
    {
        Peers {
            count: self.connections.min(MAX_CONNECTIONS),
            begin_with: self.begin_with,
            patience: Duration::from_millis(LISTENING_PATIENCE),
            keeps_listening: self.stays,
        }
    }
}

/// Returns the connections that the control station asks for: one for each terminal, or one for
/// all. It makes the first call at once, but where its records are kept: then it may have begun
/// again, and first listens for one whole time-out. `tries` is the limit of failures in a row. A
/// terminal that holds the line acts on one silence more than that, and then gives up; the control
/// station waits for one time-out longer, so that no terminal holds the line any more when it acts
/// (GA27-3004, time-outs). Where each terminal has a connection of its own and knows when that is
/// cut off, a silence takes no waiting that nobody can break.
pub(crate) fn wanted_by_control<'a>(
    settings: &StationSettings<'a>,
    allowed: Networks,
    terminals: usize,
    tries: u8,
) -> Wanted<'a>
    ensures { wanted_value result
        ≡ control_wants (settings_value settings.now) allowed terminals tries }
{
    Wanted {
        place: settings.place,
        connections: if settings.shared { 1 } else { terminals },
        begin_with: settings.begin_with as usize,
        raw: settings.raw,
        allowed,
        stops: settings.until_input_ends,
        stays: listens(settings.place),
        begins: !settings.is_kept,
        skips: listens(settings.place) && !settings.raw && !settings.shared,
        time_out: settings.times.time_out.saturating_mul(u64::from(tries) + 2),
        gap: settings.times.gap,
        patience: settings.times.patience,
        replace_after: settings.times.replace_after,
        pause: settings.times.pause,
        line_time_out: settings.times.time_out,
        trace: traces(settings.printing.trace),
        serves: None,
        prints: None,
    }
}

/// Returns the connection that a terminal asks for.
pub(crate) fn wanted_by_terminal<'a>(
    settings: &StationSettings<'a>,
    allowed: Networks,
) -> Wanted<'a>
    ensures { wanted_value result ≡ terminal_wants (settings_value settings.now) allowed }
{
    Wanted {
        place: settings.place,
        connections: 1,
        begin_with: 1,
        raw: settings.raw,
        allowed,
        stops: settings.until_input_ends,
        stays: false,
        begins: false,
        skips: false,
        time_out: settings.times.time_out,
        gap: settings.times.gap,
        patience: settings.times.patience,
        replace_after: settings.times.replace_after,
        pause: settings.times.pause,
        line_time_out: settings.times.time_out,
        trace: traces(settings.printing.trace),
        serves: None,
        prints: None,
    }
}

/// Whether there is a trace.
pub(crate) fn traces(tracing: Tracing) -> bool
    ensures { result ≡ is_traced tracing }
{
    match tracing {
        Tracing::Off => false,
        Tracing::Exchanges | Tracing::All => true,
    }
}

/// Whether peers connect to the station.
pub(crate) fn listens(place: Place<'_>) -> bool
    ensures { result ≡ is_listening (place_value place.entry) }
{
    match place {
        Place::Listen { .. } => true,
        Place::Connect { .. } => false,
    }
}
