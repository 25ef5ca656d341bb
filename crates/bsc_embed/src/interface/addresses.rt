//! The addresses of terminals, from C.

ghost use Rattle.std.specs.Prelude.{◌≡◌, ◌⊎◌, IfOk, IfErr, Ok, Err};
ghost use Rattle.bsc_embed.specs.Addresses.{address_in, terminal_in, terminals_in};
ghost use Rattle.bsc_embed.specs.declared.interface.fault.Fault.TheVariants as fault;

use crate::interface::Fault;
use bsc_bid::Terminal;
use bsc_bid::limits::MAX_SELECTS;
use bsc_frame::Address;
use bsc_frame::limits::MAX_ADDRESS;
use std::alloc::Global;

/// An address: `struct bsc_address` of `bsc.h`. C may put any octet into any field.
#[repr(C)]
#[derive(Clone, Copy)]
pub struct StoredAddress {
    /// The codes of the characters, of which only the first `len` count.
    pub chars: [u8; MAX_ADDRESS],

    /// The number of characters, 1 to 7.
    pub len: u8,
}

/// The addresses of a terminal: `struct bsc_addresses` of `bsc.h`. C may put any octet into any
/// field.
#[repr(C)]
#[derive(Clone, Copy)]
pub struct StoredAddresses {
    /// The address by which the terminal is polled.
    pub poll: StoredAddress,

    /// The addresses by which it is selected, of which only the first `count` count.
    pub selects: [StoredAddress; MAX_SELECTS],

    /// The number of selection addresses, 1 to 4.
    pub count: u8,
}

impl StoredAddress {
    /// Returns the address that is stored here, if it is one.
    #[tactic(auto, unfolding(crate::specs::Addresses::address_in))]
    pub fn address(&self) -> Option<Address>
        ensures { result ≡ address_in self.now }
    {
        let len = self.len as usize;
        if len > MAX_ADDRESS {
            return None;
        }
        Address::read(&self.chars[..len]).ok()
    }
}

impl StoredAddresses {
    /// Returns the terminal with these addresses. The fault is `Selects` if there are not one to
    /// four selection addresses, else `Address` if one of the addresses is none. Whether the
    /// addresses differ is not tested.
    pub fn terminal(&self) -> Result<Terminal, Fault>
        ensures { result ≡ terminal_in self.now }
    {
        let count = self.count as usize;
        if count == 0 || count > MAX_SELECTS {
            return Err(Fault::Selects);
        }
        let Some(poll) = self.poll.address() else {
            return Err(Fault::Address);
        };
        let mut selects = [poll; MAX_SELECTS];
        for place in 0..count {
            let Some(select) = self.selects[place].address() else {
                return Err(Fault::Address);
            };
            selects[place] = select;
        }
        match Terminal::new(poll, &selects[..count]) {
            Ok(terminal) => Ok(terminal),
            Err(_) => unreachable!(),
        }
    }
}

/// Returns the terminals with these addresses, in order. The fault is that of the first of them
/// that is none, or `Memory`.
#[tactic(auto, using(crate::proofs::TerminalLists::terminal_taken))]
pub fn read_terminals(alloc: Global, stored: &[StoredAddresses]) -> Result<Vec<Terminal>, Fault>
    ensures read { IfOk result (λ v. terminals_in stored.now ≡ Ok v.items) }
    ensures refused { IfErr result (λ f.
        (f ≡ fault.Memory) ⊎ (terminals_in stored.now ≡ Err f)) }
{
    let mut terminals = Vec::new(alloc);
    for addresses in stored {
        match addresses.terminal() {
            Ok(terminal) => match terminals.push(terminal) {
                Ok(()) => {}
                Err(_) => return Err(Fault::Memory),
            },
            Err(fault) => return Err(fault),
        }
    }
    Ok(terminals)
}
