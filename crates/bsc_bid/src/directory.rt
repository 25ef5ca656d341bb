//! The terminal and the way of each address on a line.

ghost use Rattle.std.specs.Prelude.{◌≡◌, ◌++◌, ◌↔◌, [], ◌∷◌, ℕ, IfOk, IfErr, OnOk, Some};
ghost use Rattle.std.specs.List.{Contains};
ghost use Rattle.bsc_bid.specs.declared.way.Way.{Way as WayValue};
ghost use Rattle.bsc_bid.specs.Addresses.{AreDistinct, numbered, owned, addresses};
ghost use Rattle.bsc_bid.specs.Terminal.{own_addresses};
ghost use Rattle.bsc_bid.specs.Refusals.{RefusesAddresses, IsAccepted, IsRefused};
ghost use Rattle.std.specs.Map.{keys_of};

use crate::Terminal;
use crate::limits::MAX_TERMINALS;
use crate::refusal::{SetupError, wrong_entry};
use crate::way::Way;
use bsc_frame::Address;
use indexmap::IndexMap;
use std::alloc::Allocator;
use std::hash::{BuildHasherDefault, FoldHasher};
use std::marker::Model;

/// The addresses of a line. The index of an address in the map is its number; its value is the
/// terminal and the way that it belongs to.
#[derive(Drop)]
pub struct Directory<A: Allocator> {
    /// The terminal and the way of each address.
    owners: IndexMap<Address, (usize, Way), BuildHasherDefault<FoldHasher>, A>,
}

impl<A: Allocator> Model for Directory<A> {
    ghost use Rattle.std.specs.Prelude.{ℕ, List, ◌==◌};
    ghost use Rattle.indexmap.specs.IndexMap.{IsUnique};
    ghost use lib.Pointwise.{pointwise};
    ghost use Rattle.bsc_bid.specs.declared.way.Way.{Way as WayValue};

    ghost Value = { List (List ℕ × (ℕ × WayValue)) };

    ghost view = { λ d. d.owners.entries };

    ghost invariant = { λ d. IsUnique (pointwise ◌==◌) d.owners };
}

impl<A: Allocator> Directory<A> {
    /// Returns the directory of the terminals of a line (1 to 64, whose addresses all differ) with
    /// this poll list (1 to 255 entries, each the number of a terminal). Errors, in this order:
    /// `NoTerminal`, `TooMany`, `SameAddress`, `EmptyPollList`, `PollList`; `Memory` may come in
    /// place of any error after `TooMany`. (GA27-3004, polling and selection addresses, poll list.)
    pub fn new(alloc: A, terminals: &[Terminal], poll_list: &[u8]) -> Result<Self, SetupError>
    where
        A: Copy,
        ensures entries { IfOk result (λ d. d ≡ numbered 0 terminals.now) }
        ensures accepted { OnOk result (IsAccepted terminals.now poll_list.now) }
        ensures refused { IfErr result (IsRefused terminals.now poll_list.now) }
    {
        if terminals.is_empty() {
            return Err(SetupError::NoTerminal);
        }
        if terminals.len() > MAX_TERMINALS {
            return Err(SetupError::TooMany);
        }
        let directory = Directory::of_terminals(alloc, terminals)?;
        if poll_list.is_empty() {
            return Err(SetupError::EmptyPollList);
        }
        if let Some(place) = wrong_entry(poll_list, terminals.len()) {
            return Err(SetupError::PollList(place));
        }
        Ok(directory)
    }

    /// Returns the directory of these terminals. Errors: `SameAddress` for the first address that
    /// came before, `Memory` if out of memory.
    fn of_terminals(alloc: A, terminals: &[Terminal]) -> Result<Self, SetupError>
    where
        A: Copy,
        ensures entries { IfOk result (λ d. d ≡ numbered 0 terminals.now) }
        ensures distinct { OnOk result (AreDistinct terminals.now) }
        ensures refused { IfErr result (λ e. RefusesAddresses [] (addresses terminals.now) e) }
    {
        let mut directory = Directory {
            owners: IndexMap::new(alloc),
        };
        for (number, terminal) in terminals.iter().enumerate() {
            directory.enter_all(number, terminal)?;
        }
        // Reading a field makes the invariant known here.
        let _ = &directory.owners;
        Ok(directory)
    }

    /// Finds the terminal and the way that an address belongs to, or `None` if it belongs to no
    /// terminal.
    pub fn find(&self, address: &Address) -> Option<(usize, Way)>
        ensures { (t : ℕ) (way : WayValue)
            → (result ≡ Some (t, way)) ↔ Contains self.now (address.now, (t, way)) }
    {
        self.owners.get(address).copied()
    }

    /// Enters the addresses of a terminal: its polling address, then its selection addresses in
    /// order.
    fn enter_all(&mut self, number: usize, terminal: &Terminal) -> Result<(), SetupError>
        ensures entries { OnOk result (self.new ≡ self.old ++ owned number terminal.now) }
        ensures refused { IfErr result
            (λ e. RefusesAddresses (keys_of self.old) (own_addresses terminal.now) e) }
    {
        self.enter(terminal.poll(), number, Way::FromTerminal)?;
        for select in 0..terminal.selects() {
            self.enter(terminal.select(select), number, Way::ToTerminal(select))?;
        }
        Ok(())
    }

    /// Enters an address. Errors: `SameAddress` if it was entered before, `Memory` if out of
    /// memory.
    fn enter(&mut self, address: Address, terminal: usize, way: Way) -> Result<(), SetupError>
        ensures entries { OnOk result (self.new ≡ self.old ++ (address, (terminal, way)) ∷ []) }
        ensures refused { IfErr result (λ e. RefusesAddresses (keys_of self.old) (address ∷ []) e) }
    {
        if let Some(first) = self.owners.get_index_of(&address) {
            return Err(SetupError::SameAddress(first, self.owners.len()));
        }
        self.owners.insert(address, (terminal, way))?;
        Ok(())
    }
}
