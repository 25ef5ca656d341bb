//! The law of a line's addresses. It is about the definitions only.

ghost use Rattle.std.specs.Prelude.{List, All};
ghost use Rattle.bsc_bid.specs.Terminal.{TerminalValue, HasDistinctAddresses};
ghost use Rattle.bsc_bid.specs.Addresses.{AreDistinct};

/// If the addresses of a line all differ, those of each of its terminals do.
pub fn distinct_addresses()
    ensures { (terminals : List TerminalValue)
        → AreDistinct terminals → All HasDistinctAddresses terminals }
{}
