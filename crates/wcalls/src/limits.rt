//! Counts and offsets that no partition reaches.
ghost use Rattle.std.specs.Prelude.{◌≡◌, ◌≤◌, ◌<◌, ◌^◌};

/// More rows than any partition has.
const BEYOND_ROWS: u64 = 1 << 31;

/// A number of rows, or one that no partition has where it is larger.
pub(crate) fn cut(number: u128) -> u64
    ensures small { number < 2 ^ 31 → result ≡ number }
    ensures large { 2 ^ 31 ≤ number → result ≡ 2 ^ 31 }
{
    if number < BEYOND_ROWS as u128 {
        number as u64
    } else {
        BEYOND_ROWS
    }
}
