//! The random numbers from which lines and events are made, the same as in `bench/line_plain`.

ghost use Rattle.std.specs.Prelude.{◌≡◌, ◌<◌, ◌≤◌};

/// Numbers that follow from a seed: the generator xorshift64*.
#[derive(Drop)]
pub struct Random {
    state: u64,
}

impl Random {
    /// Returns the numbers of this seed.
    pub fn new(seed: u64) -> Random {
        Random {
            state: seed.wrapping_mul(0x9e37_79b9_7f4a_7c15) | 1,
        }
    }

    fn word(&mut self) -> u64 {
        self.state ^= self.state >> 12;
        self.state ^= self.state << 25;
        self.state ^= self.state >> 27;
        self.state.wrapping_mul(0x2545_f491_4f6c_dd1d)
    }

    /// Returns a number below the bound; 0 if the bound is 0.
    pub fn below(&mut self, bound: usize) -> usize
        ensures below { 0 < bound → result < bound }
        ensures nothing { bound ≡ 0 → result ≡ 0 }
    {
        let number = (self.word() >> 32) as usize;
        if bound == 0 { 0 } else { number % bound }
    }

    /// Returns true once in this many times on average.
    pub fn one_in(&mut self, many: usize) -> bool {
        self.below(many) == 0
    }

    /// One of these three numbers, or any number from the least to the greatest of them.
    pub fn setting(&mut self, least: usize, middle: usize, most: usize) -> usize
        ensures { least ≤ middle → middle ≤ most → (least ≤ result) × (result ≤ most) }
    {
        match self.below(4) {
            0 => least,
            1 => middle,
            2 => most,
            _ => least.saturating_add(self.below(most.saturating_sub(least).saturating_add(1))),
        }
    }

    /// Any octet.
    pub fn octet(&mut self) -> u8 {
        self.below(256) as u8
    }
}
