//! The state of all channels that end at a station.

ghost use Rattle.std.specs.Prelude.{◌≡◌, ◌<◌};
ghost use Rattle.bsc_station.specs.Ends.{station_standing, terminal_standing};

use crate::{Party, Standing};
use bsc_control::Way;

/// Returns the state of the channels on which a station sends.
pub fn station_standing<P: Party>(station: &P) -> Standing
    ensures { let s = station.now in
        result ≡ station_standing (P.selects s) (P.ends s) (P.count s) }
{
    let mut standing = Standing::nothing();
    'terminals: for terminal in 0..station.terminals() {
        standing = standing.and(terminal_standing(station, terminal));
    }
    standing
}

/// Returns the state of the channels of one terminal.
fn terminal_standing<P: Party>(station: &P, terminal: usize) -> Standing
    requires { terminal < P.count station.now }
    ensures { let s = station.now in
        result ≡ terminal_standing (P.selects s terminal) (P.ends s terminal) }
{
    let mut standing = Standing::of(station.end(terminal, Way::FromTerminal));
    'selects: for select in 0..station.addresses(terminal) {
        standing = standing.and(Standing::of(station.end(terminal, Way::ToTerminal(select))));
    }
    standing
}
