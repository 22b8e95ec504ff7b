//! The numbers of the language.

ghost use Rattle.std.specs.Prelude.{◌≡◌, ◌<◌, ◌≤◌, ◌^◌, MatchOption};

use std::marker::Model;

/// A number below 2^95.
#[derive(Clone, Copy, Debug, PartialEq, Eq)]
pub struct Number {
    value: u128,
}

impl Model for Number {
    ghost use Rattle.std.specs.Prelude.{ℕ, ◌<◌, ◌^◌};
    ghost use Rattle.std.specs.Coded.{coded_ℕ};

    ghost Value = { ℕ };

    ghost coded = { coded_ℕ };

    ghost view = { λ n. n.value };

    ghost invariant = { λ n. n.value < 2 ^ 95 };

    ghost inverse = { λ n. record { value = n } };
}

/// The first number that is too large.
pub const NUMBER_LIMIT: u128 = 1 << 95;

impl Number {
    /// The number, where it is below 2^95.
    pub fn new(number: u128) -> Option<Number>
        ensures { MatchOption result (2 ^ 95 ≤ number) (λ n. (n ≡ number) × (number < 2 ^ 95)) }
    {
        if number < NUMBER_LIMIT {
            Some(Number { value: number })
        } else {
            None
        }
    }

    /// The number, which is below 2^95.
    pub fn get(self) -> u128
        ensures value { result ≡ self }
        ensures limit { result < 2 ^ 95 }
    {
        self.value
    }
}
