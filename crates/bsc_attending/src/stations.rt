//! One station of a line: prepares it, makes its connections, and attends it until it ends.

ghost use Rattle.std.specs.Prelude.{◌≡◌, Bool, IfErr, IfOk, IsErr, IsNone, IsSome};
ghost use Rattle.std.specs.Prelude.{false, is_some, true};
ghost use Rattle.bsc_options.specs.Words.{words_value};
ghost use Rattle.bsc_options.specs.Settings.{place_value, settings_value};
ghost use Rattle.bsc_attending.specs.Ending.{IsLeftBy, IsSameKind, channels_of};
ghost use Rattle.bsc_attending.specs.Errors.{IsEarly, IsLate, IsStoreError, IsUnbegun};
ghost use Rattle.bsc_attending.specs.Forgetting.{forgets_printed_in};
ghost use Rattle.bsc_attending.specs.Opening.{Opens, SyncsIf};
ghost use Rattle.bsc_attending.specs.Progress.{progress_in, work_in};
ghost use Rattle.bsc_attending.specs.Outcomes.{Finishes, IsAnswer, IsReported};
ghost use Rattle.bsc_attending.specs.Runs.{BeginsIf, HasBegun, IsKeptRun, IsNotBegun};
ghost use Rattle.bsc_attending.specs.Runs.{IsPrintedRun};
ghost use Rattle.bsc_attending.specs.Preparing.{SuitsOwn, store_path};
ghost use Rattle.bsc_attending.specs.Wanted.{is_listening, wanted_value, wants};
ghost use Rattle.bsc_trust.specs.Trust.{new_trust};

use crate::attending::{Ending, Left, Watching, attend_control, attend_terminal};
use crate::concluding::{conclude, report};
use crate::cut_short::CutShort;
use crate::keeping::{begin, print_rest, printed_before, with_fault};
use crate::live::Live;
use crate::preparing::{Prepared, Ready, prepare};
use crate::printer::Printer;
use crate::running::Running;
use crate::serving::{called_by, reachable};
use crate::wanted::{listens, traces, wanted_by_control, wanted_by_terminal};
use crate::{AttendingError, Network, Readiness, Stores, Wanted};
use bsc_bid::Speaker;
use bsc_connections::{Framing, Gaps, SocketRecords};
use bsc_control::Control;
use bsc_keeping::{Keeper, Keeps, Own, Printed, Stored};
use bsc_options::{Admission, StationSettings, Words, read_admission, read_settings};
use bsc_report::{RecordLines, Tracing};
use bsc_spool::Store;
use bsc_station::{LineTerminal, Party};
use bsc_text::progress::Work;
use bsc_text::{Files, Form};
use bsc_trust::Trust;
use std::alloc::{AllocError, Global};
use std::io::{Read, Write};
use std::os::fd::RawFd;

/// The options of a station, as they were read.
#[derive(Clone, Copy)]
struct Options<'a> {
    settings: StationSettings<'a>,

    /// Its peers.
    admission: Admission,
}

/// A station with its records, filled with what its store has if its records are to be kept, and
/// what keeps them then.
#[derive(Drop)]
struct Begun<K: Drop> {
    prepared: Prepared,
    keeper: Option<Keeper<K>>,
}

/// Runs the station that the words ask for. The configuration and all records are read and checked
/// before a connection is made. Records are printed before they are acknowledged, or, if they are
/// to be kept, once they are kept and standard output takes them; the report is printed at the end.
/// `NotTrusted`, `InDoubt` and `Undelivered` are returned after the report is printed, and so is
/// `Closed`, when a fault closed the connection of a terminal. `Unprinted` is returned when records
/// that arrived could not be printed; the report is tried. A station whose records are to be kept
/// begins with what its store has. What it changes is kept before it sends what rests on it; the
/// clause `kept` says before its next step, and that a record that a program offers is kept before
/// the station offers it. The clause `printed` says the same of a station without a store, whose
/// records are printed in place of that.
pub fn station<R: Read, H: Files + Network + Stores, W: Write>(
    alloc: Global,
    words: &Words,
    input: &mut R,
    machine: &mut H,
    out: &mut W,
) -> Result<(), AttendingError>
    ensures early { IfErr result (λ error. IsEarly error → out.new ≡ out.old) }
    ensures answers { IsAnswer (words_value words.now) (R.remaining input.old) result }
    ensures reported { IsReported W.contents (words_value words.now) (R.remaining input.old) result
        out.new }
    ensures kept { IsSome (store_path (words_value words.now))
        → IsKeptRun H.Store.Store (⟦<Prepared as Running>⟧.runs_kept _ H.Store.Store) W.contents
        (words_value words.now) (R.remaining input.old) result out.new }
    ensures printed { IsNone (store_path (words_value words.now))
        → IsPrintedRun (⟦<Prepared as Running>⟧.runs_printed _ W.contents) W.contents
        (words_value words.now) (R.remaining input.old) result out.new }
{
    let settings = read_settings(words)?;
    let admission = read_admission(words)?;
    let options = Options {
        settings,
        admission,
    };
    let begun = begin_station(alloc, words, &options, input, machine)?;
    let Begun {
        mut prepared,
        keeper,
    } = begun;
    let attended = match keeper {
        Some(keeper) => run_kept(alloc, &options, &mut prepared, keeper, machine, out),
        None => run_printed(alloc, &options, &mut prepared, machine, out),
    };
    finish(alloc, settings.reported, &prepared, attended, out)
}

/// Prepares the station of these options, and fills it with what its store has, if its records are
/// to be kept.
fn begin_station<R: Read, H: Files + Stores>(
    alloc: Global,
    words: &Words,
    options: &Options<'_>,
    input: &mut R,
    machine: &mut H,
) -> Result<Begun<H::Store>, AttendingError>
    ensures begun { IfOk result (λ begun. HasBegun H.Store.Store (words_value words.now)
        options.now.settings.speaker (forgets_printed_in (settings_value options.now.settings))
        (is_some (store_path (words_value words.now))) (R.remaining input.old) begun.prepared
        begun.keeper) }
    ensures refused { IfErr result (IsNotBegun (words_value words.now) options.now.settings.speaker
        options.now.admission.peers.terminals (R.remaining input.old)) }
    ensures unbegun { IfErr result IsUnbegun }
{
    let (speaker, peers) = (options.settings.speaker, options.admission.peers);
    let ready = prepare(alloc, words, speaker, peers, input, machine)?;
    let Ready { mut prepared, own } = ready;
    let forgets = forgets_printed(&options.settings);
    let keeper = keeper_for(alloc, words, own, forgets, &mut prepared, machine)?;
    Ok(Begun { prepared, keeper })
}

/// Fills a station with what its store has, if its records are to be kept, and returns what keeps
/// them then.
fn keeper_for<H: Stores>(
    alloc: Global,
    words: &Words,
    own: Option<Own>,
    forgets: bool,
    prepared: &mut Prepared,
    machine: &mut H,
) -> Result<Option<Keeper<H::Store>>, AttendingError>
    requires { SuitsOwn own prepared.old }
    ensures kind { IsSameKind prepared.old prepared.new }
    ensures error { IfErr result IsStoreError }
    ensures begins { IfOk result (BeginsIf H.Store.Store forgets
        (is_some (store_path (words_value words.now))) own prepared.old prepared.new) }
{
    match (words.text("store"), own) {
        (Some(path), Some(own)) => {
            let keeper = begin(alloc, path, own, prepared, forgets, machine)?;
            Ok(Some(keeper))
        }
        _ => Ok(None),
    }
}

/// Prints what a station prints at its end, that was attended with this result, and returns its
/// result.
fn finish<W: Write>(
    alloc: Global,
    reported: Option<Form>,
    prepared: &Prepared,
    attended: Result<Left, CutShort>,
    out: &mut W,
) -> Result<(), AttendingError>
    ensures late { IfErr result IsLate }
    ensures finishes { Finishes reported prepared.now attended result
        (W.contents out.old) (W.contents out.new) }
{
    match attended {
        Ok(left) => conclude(alloc, reported, prepared, left, out),
        Err(CutShort::Unprinted) => {
            // The output has failed before; if it does not accept the report either, nothing is
            // lost by it.
            let _ = report(alloc, reported, prepared, out);
            Err(AttendingError::Unprinted)
        }
        Err(cut) => Err(AttendingError::from(cut)),
    }
}

/// A framing that options select.
trait Selected: Framing {
    /// Whether its transmissions are raw octets, which end at gaps.
    ghost is_raw: { Bool };
}

impl Selected for SocketRecords {
    ghost is_raw = { false };
}

impl Selected for Gaps {
    ghost is_raw = { true };
}

/// Makes the connections of a station, and lets programs reach it. `prints` is the descriptor that
/// tells when standard output takes more, if the station has a store.
fn open<F: Selected + Drop, H: Network>(
    alloc: Global,
    options: &Options<'_>,
    prepared: &Prepared,
    prints: Option<RawFd>,
    machine: &mut H,
) -> Result<Live<H::Reader, H::Writer, F, H::Waiter, H::Programs>, CutShort>
    ensures opens { Opens H.Network.serves H.Network.connects H.Network.syncs
        (settings_value options.now.settings)
        (wants (settings_value options.now.settings) options.now.admission.allowed prepared.now)
        prints machine.old result machine.new }
    ensures fed { IfOk result (λ live.
        is_some live.programs ≡ is_some (settings_value options.now.settings).serves) }
{
    let settings = &options.settings;
    let reachable = reachable(settings.serves, traces(settings.printing.trace), machine)?;
    let wanted = Wanted {
        serves: called_by(&reachable),
        prints,
        ..wanted_by(options, prepared)
    };
    let opened = machine.open(&wanted)?;
    let live = Live::over(alloc, opened, reachable, forgets_printed(settings))?;
    sync_if(settings.sync, machine);
    Ok(live)
}

/// From now on each flush of standard output also syncs it, if `is_asked` says so.
fn sync_if<H: Network>(is_asked: bool, machine: &mut H)
    ensures { SyncsIf H.Network.syncs is_asked machine.old machine.new }
{
    if is_asked {
        machine.sync_output();
    }
}

/// Makes the connections of a station, with the framing that its options select, and attends it
/// until it ends. Returns what it leaves. The connections are closed then.
fn attend_over<
    F: Selected + Drop,
    H: Network,
    Q: Keeps<Control<Global>> + Keeps<LineTerminal<Global>>,
>(
    alloc: Global,
    options: &Options<'_>,
    prepared: &mut Prepared,
    prints: Option<RawFd>,
    kept: &mut Q,
    machine: &mut H,
) -> Result<Left, CutShort>
    requires { F.is_raw ≡ options.now.settings.raw }
    ensures left { IfOk result (λ left. IsLeftBy prepared.old left × IsLeftBy prepared.new left) }
    ensures ran { ⟦<Prepared as Running>⟧.ran_live _ ⟦<Q as Keeps<Control<Global>>>⟧
        ⟦<Q as Keeps<LineTerminal<Global>>>⟧
        (is_some (settings_value options.now.settings).serves) prepared.old prepared.new kept.old
        kept.new (IsErr result) }
{
    let mut live: Live<H::Reader, H::Writer, F, H::Waiter, H::Programs> = open(
        alloc, options, prepared, prints, machine,
    )?;
    let settings = &options.settings;
    let tracing = settings.printing.trace;
    let timer = machine.timer(progress_of(settings));
    let mut trace = machine.trace(traces(tracing));
    let watching = Watching {
        tracing,
        timer,
        trace: &mut trace,
    };
    match prepared {
        Prepared::Control { control } => {
            let ending = ending_of(options);
            let trust = attend_control(alloc, ending, control, &mut live, kept, watching)?;
            Ok(Left::Control { trust })
        }
        Prepared::Terminal { terminal } => {
            let closed = attend_terminal(alloc, terminal, &mut live, kept, watching)?;
            Ok(Left::Terminal { closed })
        }
    }
}

/// Runs a station without a store until it ends, and returns what it leaves. What arrives is
/// printed, and nothing is sent before it is.
fn run_printed<H: Network, W: Write>(
    alloc: Global,
    options: &Options<'_>,
    prepared: &mut Prepared,
    machine: &mut H,
    out: &mut W,
) -> Result<Left, CutShort>
    ensures left { IfOk result (λ left. IsLeftBy prepared.old left × IsLeftBy prepared.new left) }
    ensures printed { ⟦<Prepared as Running>⟧.runs_printed _ W.contents
        (is_some (settings_value options.now.settings).serves) prepared.old
        (IsErr result) prepared.new }
{
    let lines = options.settings.printing.records;
    let mut printed = printed_for(alloc, prepared, lines, out)?;
    if options.settings.raw {
        attend_over::<Gaps, _, _>(alloc, options, prepared, None, &mut printed, machine)
    } else {
        attend_over::<SocketRecords, _, _>(alloc, options, prepared, None, &mut printed, machine)
    }
}

/// Runs a station with a store until it ends, and returns what it leaves. What arrives is kept
/// before anything is sent, and printed after that as standard output takes it, and all that is
/// left once the station has ended and its connections are closed, so that no peer has to wait for
/// the reader of the output.
fn run_kept<H: Network, K: Store + Drop, W: Write>(
    alloc: Global,
    options: &Options<'_>,
    prepared: &mut Prepared,
    keeper: Keeper<K>,
    machine: &mut H,
    out: &mut W,
) -> Result<Left, CutShort>
    ensures left { IfOk result (λ left. IsLeftBy prepared.old left × IsLeftBy prepared.new left) }
    ensures kept { ⟦<Prepared as Running>⟧.runs_kept _ K.Store
        (is_some (settings_value options.now.settings).serves) prepared.old keeper
        (IsErr result) prepared.new }
{
    let counts = printed_before(alloc, &keeper, channels_of(prepared))?;
    let lines = options.settings.printing.records;
    let readiness = machine.readiness();
    let prints = readiness.descriptor();
    let notices = machine.trace(false);
    let printer = Printer::new(alloc, lines, counts, out, readiness, notices);
    let mut stored = Stored { keeper, printer };
    let attended = if options.settings.raw {
        attend_over::<Gaps, _, _>(alloc, options, prepared, prints, &mut stored, machine)
    } else {
        attend_over::<SocketRecords, _, _>(alloc, options, prepared, prints, &mut stored, machine)
    };
    match attended {
        Ok(left) => {
            print_rest(prepared, &mut stored)?;
            Ok(left)
        }
        Err(cut) => Err(with_fault(&stored.keeper, cut)),
    }
}

/// Returns what prints the records of a station without a store. Fails if an allocation does.
fn printed_for<'a, W: Write>(
    alloc: Global,
    prepared: &Prepared,
    lines: RecordLines,
    out: &'a mut W,
) -> Result<Printed<'a, W>, AllocError> {
    match prepared {
        Prepared::Control { control } => Printed::new(alloc, control, lines, out),
        Prepared::Terminal { terminal } => Printed::new(alloc, terminal, lines, out),
    }
}

/// Returns the number of channels on which a station receives.
fn channels_of(prepared: &Prepared) -> usize
    ensures { result ≡ channels_of prepared.now }
{
    match prepared {
        Prepared::Control { control } => control.spools(),
        Prepared::Terminal { terminal } => terminal.spools(),
    }
}

/// Returns whether a station of these options forgets the records that it has printed: if they are
/// not printed again with the report, and no program can ask for them.
fn forgets_printed(settings: &StationSettings<'_>) -> bool
    ensures { result ≡ forgets_printed_in (settings_value settings.now) }
{
    settings.reported.is_none() && settings.serves.is_none()
}

/// Returns of what work the progress is shown: the rounds of the control station or the events of a
/// terminal; none with a trace, or if none is wanted.
fn progress_of(settings: &StationSettings<'_>) -> Option<Work>
    ensures { result ≡ progress_in (settings_value settings.now) }
{
    match settings.printing.trace {
        Tracing::Off if !settings.quiet => Some(work_of(settings.speaker)),
        _ => None,
    }
}

/// Returns what is counted at a station.
fn work_of(speaker: Speaker) -> Work
    ensures { result ≡ work_in speaker }
{
    match speaker {
        Speaker::Control => Work::Rounds,
        Speaker::Terminal { .. } => Work::Events,
    }
}

/// Returns when the control station of these options ends, when it takes a terminal for absent, and
/// what it can tell of its line before there are connections.
fn ending_of(options: &Options<'_>) -> Ending
    ensures limits { result.limits ≡ options.now.settings.limits }
    ensures absence { result.absence ≡ options.now.settings.absence }
    ensures listens { result.listens ≡ is_listening (place_value options.now.settings.place) }
    ensures trust { result.trust ≡ new_trust options.now.settings.shared
        options.now.settings.times.time_out options.now.admission.peers.addresses }
{
    let settings = &options.settings;
    let peers = options.admission.peers.addresses;
    Ending {
        limits: settings.limits,
        absence: settings.absence,
        listens: listens(settings.place),
        trust: Trust::new(settings.shared, settings.times.time_out, peers),
    }
}

/// Returns the connections that a station asks for.
fn wanted_by<'a>(options: &Options<'a>, prepared: &Prepared) -> Wanted<'a>
    ensures { wanted_value result
        ≡ wants (settings_value options.now.settings) options.now.admission.allowed prepared.now }
{
    let (settings, allowed) = (&options.settings, options.admission.allowed);
    match prepared {
        Prepared::Control { control } => {
            let tries = control.setup().tries();
            wanted_by_control(settings, allowed, control.terminals(), tries)
        }
        Prepared::Terminal { .. } => wanted_by_terminal(settings, allowed),
    }
}
