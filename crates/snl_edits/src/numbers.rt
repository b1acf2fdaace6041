//! Numbers that a seed alone defines.

/// Numbers that follow one another by a linear congruence: 48,271 times the last one, modulo
/// 2,147,483,647.
#[derive(Drop)]
pub struct Numbers {
    last: u64,
}

impl Numbers {
    /// Those that follow a seed. A seed of 0 counts as 1.
    pub fn new(seed: u64) -> Numbers {
        Numbers {
            last: (seed % 2_147_483_647).max(1),
        }
    }

    /// The next number, below the bound (0 where that is 0).
    pub fn below(&mut self, bound: usize) -> usize {
        self.last = self.last.wrapping_mul(48_271) % 2_147_483_647;
        (self.last as usize).checked_rem(bound).unwrap_or(0)
    }
}
