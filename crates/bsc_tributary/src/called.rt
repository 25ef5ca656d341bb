//! Which of a terminal's addresses a call names. Every terminal hears the calls of all terminals.

ghost use Rattle.std.specs.Prelude.{◌≡◌, ◌↔◌, ◌<◌, [], length, slice_index_or, IsTrue};
ghost use Rattle.bsc_bid.specs.Terminal.{HasDistinctAddresses};
ghost use Rattle.bsc_tributary.specs.Called.{called_as};

use bsc_bid::Terminal;
use bsc_frame::Address;

/// Which of a terminal's addresses a call names (GA27-3004, polling and selection).
#[derive(Clone, Copy, Debug, PartialEq, Eq)]
pub enum Called {
    /// The polling address.
    Polling,

    /// The selection address of this number.
    Selection { select: usize },

    /// No address of the terminal.
    Other,
}

/// Returns which of the terminal's addresses this is.
pub(crate) fn called_address(terminal: &Terminal, address: &Address) -> Called
    ensures { result ≡ called_as terminal.now address.now }
{
    if *address == terminal.poll() {
        return Called::Polling;
    }
    for select in 0..terminal.selects() {
        if *address == terminal.select(select) {
            return Called::Selection { select };
        }
    }
    Called::Other
}

/// Whether a call of the selection address of this number is taken as a call of that number, that
/// is, whether the polling address and the selection addresses before it all differ from it.
fn is_first(terminal: &Terminal, select: usize) -> bool
    requires { select < length terminal.now.selects }
    ensures { let address = slice_index_or terminal.now.selects select [] in
        IsTrue result ↔ (called_as terminal.now address ≡ Called.Selection select) }
{
    match called_address(terminal, &terminal.select(select)) {
        Called::Selection { select: first } => first == select,
        _ => false,
    }
}

/// Whether all addresses of the terminal differ, as a tributary requires.
pub fn addresses_differ(terminal: &Terminal) -> bool
    ensures { IsTrue result ↔ HasDistinctAddresses terminal.now }
{
    for select in 0..terminal.selects() {
        if !is_first(terminal, select) {
            return false;
        }
    }
    true
}
