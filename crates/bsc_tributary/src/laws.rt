//! The laws of a terminal's addresses, and of a terminal that is made again from what was kept.
//! They are about the definitions only.

ghost use Rattle.std.specs.Prelude.{◌≡◌, ℕ, List, [], ◌∷◌, ◌++◌, Some, slice_get, Contains};
ghost use Rattle.std.specs.Prelude.{◌↔◌, length, replicate, slice_set, slice_index_or};
ghost use Rattle.bsc_spool.specs.Queue.{with_offered};
ghost use Rattle.bsc_spool.specs.Spool.{SpoolValue, GainsRecord};
ghost use Rattle.bsc_bid.specs.Setup.{SetupValue};
ghost use Rattle.bsc_bid.specs.Stored.{FitsOffered, kept_of};
ghost use Rattle.bsc_bid.specs.Terminal.{TerminalValue, own_addresses, HasDistinctAddresses};
ghost use Rattle.bsc_tributary.specs.Tributary.{TributaryValue, spool_at};
ghost use Rattle.bsc_tributary.specs.Kept.{IsTributary, IsNewTerminal};
ghost use Rattle.bsc_tributary.specs.Stored.{IsFilled, BecomesRestarted, arrived};
ghost use Rattle.bsc_tributary.specs.Called.{called_as};
ghost use Rattle.bsc_tributary.specs.declared.called.Called.{Called};

use bsc_bid::laws::recalls;

/// Which of a terminal's addresses a call names if these differ: the polling address, the selection
/// address of this number, or none of them.
pub fn own_addresses()
    ensures polling { (t : TerminalValue) (address : List ℕ)
        → (called_as t address ≡ Called.Polling) ↔ (address ≡ t.poll) }
    ensures selection { (t : TerminalValue) (address : List ℕ) (s : ℕ) → HasDistinctAddresses t
        → (called_as t address ≡ Called.Selection s) ↔ (slice_get t.selects s ≡ Some address) }
    ensures other { (t : TerminalValue) (address : List ℕ)
        → (called_as t address ≡ Called.Other) ↔ (¬ Contains (own_addresses t) address) }
{}

/// What is kept of a terminal makes it again. A new terminal is filled with nothing; an offer, and
/// a record that is added to a spool, fill it with one record more. A new terminal that is filled
/// with the records of a terminal, which has the same settings and addresses, and then recalls what
/// was kept of it, is that terminal after a restart. This holds of every terminal of which what is
/// kept fits its records, as [`kept`](crate::Tributary::kept) says of each.
pub fn made_again()
    ensures new { (setup : SetupValue) (terminal : TerminalValue) (t : TributaryValue)
        → IsNewTerminal setup terminal t
        → IsFilled setup terminal [] (replicate (length terminal.selects) []) t }
    ensures offered { (setup : SetupValue) (terminal : TerminalValue) (rs : List (List ℕ))
        (rss : List (List (List ℕ))) (t : TributaryValue) (r : List ℕ)
        → IsFilled setup terminal rs rss t
        → IsFilled setup terminal (rs ++ r ∷ []) rss
        (record t { queue = with_offered t.queue r }) }
    ensures spooled { (setup : SetupValue) (terminal : TerminalValue) (rs : List (List ℕ))
        (rss : List (List (List ℕ))) (t : TributaryValue) (r : List ℕ) (s : ℕ) (x : SpoolValue)
        → IsFilled setup terminal rs rss t → GainsRecord (spool_at t.spools s) r x
        → IsFilled setup terminal rs (slice_set rss s (slice_index_or rss s [] ++ r ∷ []))
        (record t { spools = slice_set t.spools s x }) }
    ensures restart { (t n : TributaryValue) → IsTributary t
        → FitsOffered (kept_of t.sender t.queue) (length t.queue.offered)
        → IsFilled t.sender.setup t.terminal t.queue.offered (arrived t) n
        → BecomesRestarted t n }
{
    recalls();
}
