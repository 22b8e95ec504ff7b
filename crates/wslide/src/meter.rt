ghost use Rattle.std.specs.Prelude.{◌≡◌, ◌+◌, ◌^◌, ◌<◌};

use std::marker::Model;

/// A number of joins, which only rises.
#[derive(Debug, Drop)]
pub struct Meter {
    joins: u64,
}

impl Model for Meter {
    ghost use Rattle.std.specs.Prelude.{ℕ};

    ghost Value = { ℕ };

    ghost view = { λ meter. meter.joins };
}

impl Meter {
    /// A meter that has counted none.
    pub fn new() -> Meter
        ensures { result ≡ 0 }
    {
        Meter { joins: 0 }
    }

    /// How many joins it has counted.
    pub fn joins(&self) -> u64
        ensures { result ≡ self.now }
    {
        self.joins
    }

    /// Counts a join.
    #[inline(always)]
    pub(crate) fn tick(&mut self)
        requires { self.old + 1 < 2 ^ 64 }
        ensures { self.new ≡ self.old + 1 }
    {
        self.joins += 1;
    }
}
