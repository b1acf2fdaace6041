//! Numbers that a seed alone defines.

/// Numbers that follow one another as those of the published generator splitmix64.
#[derive(Drop)]
pub struct Numbers {
    state: u64,
}

// Spreads the bits of a number over another one. No two numbers give the same.
fn mixed(number: u64) -> u64 {
    let once = (number ^ (number >> 30)).wrapping_mul(0xbf58_476d_1ce4_e5b9);
    let twice = (once ^ (once >> 27)).wrapping_mul(0x94d0_49bb_1331_11eb);
    twice ^ (twice >> 31)
}

impl Numbers {
    /// Those of a job and a seed. Seeds that are near have nothing in common.
    pub fn of(job: u64, seed: u64) -> Numbers {
        Numbers {
            state: mixed(mixed(seed).wrapping_add(job)),
        }
    }

    /// The next number. None comes twice.
    pub fn any(&mut self) -> u64 {
        self.state = self.state.wrapping_add(0x9e37_79b9_7f4a_7c15);
        mixed(self.state)
    }

    /// The next number, below the bound (0 where that is 0).
    pub fn below(&mut self, bound: usize) -> usize {
        (self.any() as usize).checked_rem(bound).unwrap_or(0)
    }

    /// Numbers for a part of the work: the next number is their seed, so each part has others.
    pub fn part(&mut self) -> Numbers {
        Numbers { state: self.any() }
    }
}

/// A number below the bound that a seed and a number define.
pub fn number_of(seed: u64, number: usize, bound: usize) -> usize {
    let spread = (number as u64).wrapping_mul(0x9e37_79b9_7f4a_7c15);
    (mixed(seed.wrapping_add(spread)) as usize)
        .checked_rem(bound)
        .unwrap_or(0)
}
