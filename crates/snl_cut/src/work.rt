//! Counts of work.

ghost use Rattle.snl_cut.specs.Cut.{ticked};
ghost use Rattle.std.specs.Prelude.{◌≡◌, ℕ};

use std::marker::Model;

/// How often a kind of work was done. It stays at the greatest u64.
#[derive(Drop)]
pub struct Count {
    ticks: u64,
}

impl Model for Count {
    ghost Value = { ℕ };

    ghost view = { λ c. c.ticks };
}

impl Count {
    pub fn new() -> Count
        ensures { result ≡ 0 }
    {
        Count { ticks: 0 }
    }

    pub fn ticks(&self) -> u64
        ensures { result ≡ self.now }
    {
        self.ticks
    }

    /// Counts one piece of work more.
    pub fn tick(&mut self)
        ensures { self.new ≡ ticked self.old }
    {
        self.ticks = self.ticks.saturating_add(1);
    }
}
