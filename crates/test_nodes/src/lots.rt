//! Numbers by lot.
ghost use Rattle.std.specs.Prelude.{◌≤◌};

/// Numbers by lot, the same from the same start (xorshift of 64 bits).
#[derive(Clone, Copy, Debug)]
pub struct Lots {
    state: u64,
}

impl Lots {
    /// Lots of their own for this number.
    pub fn of(number: u64) -> Lots {
        Lots {
            state: 0x2026_1126_9e37_79b9 ^ (number << 20),
        }
    }

    /// A number below this one; 0 where that is 0.
    pub fn below(&mut self, count: u64) -> u64
        ensures { result ≤ count }
    {
        let mut state = self.state;
        state ^= state << 13;
        state ^= state >> 7;
        state ^= state << 17;
        self.state = state;
        state.checked_rem(count).unwrap_or(0)
    }
}
