//! How often something was done.
ghost use Rattle.std.specs.Prelude.{◌≡◌, ◌≤◌, ◌+◌, ◌-◌, ◌^◌, min};

use std::marker::Model;

/// How often something was done while a query was answered: joins of window folds, or orders of rows that were made. It
/// stops at the greatest number that it can hold.
#[derive(Debug, Drop)]
pub struct Tally {
    count: u64,
}

impl Model for Tally {
    ghost use Rattle.std.specs.Prelude.{ℕ};

    ghost Value = { ℕ };

    ghost view = { λ tally. tally.count };
}

impl Tally {
    /// A tally of none.
    pub fn new() -> Tally
        ensures { result ≡ 0 }
    {
        Tally { count: 0 }
    }

    /// How often it was done.
    pub fn count(&self) -> u64
        ensures { result ≡ self.now }
    {
        self.count
    }

    /// Counts so many times more.
    pub fn add(&mut self, times: u64)
        ensures sum { self.new ≡ min (self.old + times) (2 ^ 64 - 1) }
        ensures not_less { self.old ≤ self.new }
    {
        self.count = self.count.saturating_add(times);
    }
}
