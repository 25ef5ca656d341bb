//! The ways between the control station and a terminal.

ghost use Rattle.std.specs.Prelude.{◌≡◌};
ghost use Rattle.bsc_bid.specs.Ways.{IsToTerminal, select_of};

/// A way between the control station and a terminal: one for each address of the terminal.
#[derive(Clone, Copy, Debug, PartialEq, Eq)]
pub enum Way {
    /// From the terminal, which is polled by its polling address.
    FromTerminal,

    /// To the terminal, which is selected by the selection address of this number.
    ToTerminal(usize),
}

impl Way {
    /// Returns the number of the selection address. Condition: the way is to the terminal.
    pub fn select(self) -> usize
        requires { IsToTerminal self }
        ensures { result ≡ select_of self }
    {
        match self {
            Way::FromTerminal => unreachable!(),
            Way::ToTerminal(select) => select,
        }
    }
}
