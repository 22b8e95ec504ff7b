ghost use Rattle.std.specs.Prelude.{◌≡◌, None, Some};
ghost use Rattle.wvalues.specs.Whole.{IsWhole};
ghost use Rattle.wslide.specs.Sums.{IsSum, IsShort, sums_joined};

use std::alloc::AllocError;
use std::marker::Model;
use wvalues::Whole;

/// A sum of whole numbers, or none where no number was added, in 16 bytes.
///
/// It wraps at 127 bits. Fewer than 2^31 numbers below 2^95 stay below 2^126, so it is their sum over the unbounded whole
/// numbers.
#[derive(Debug)]
pub struct PartialSum {
    // One more than twice the sum; 0 where there is none.
    number: i128,
}

impl Model for PartialSum {
    ghost use Rattle.std.specs.Prelude.{ℤ, Option};
    ghost use Rattle.std.specs.Coded.{coded_ℤ, coded_option};
    ghost use Rattle.wslide.specs.PartialSums.{sum_of, stored, IsStored};

    ghost Value = { Option ℤ };

    ghost coded = { coded_option coded_ℤ };

    ghost view = { sum_of };

    ghost invariant = { IsStored };

    ghost inverse = { stored };

    ghost inverse_ok = { λ a h. h.back };
}

impl Clone for PartialSum {
    ghost is_clone = { λ sum copy. copy ≡ sum };

    fn clone(&self) -> Result<PartialSum, AllocError> {
        Ok(*self)
    }
}

impl Copy for PartialSum {}

impl PartialSum {
    /// The sum of no number.
    pub fn none() -> PartialSum
        ensures { result ≡ None }
    {
        PartialSum { number: 0 }
    }

    // The sum that is this number.
    fn short(number: i128) -> PartialSum
        requires { IsShort number }
        ensures { result ≡ Some number }
    {
        PartialSum {
            number: number + number + 1,
        }
    }

    /// The sum of one number.
    pub fn of(number: Whole) -> PartialSum
        ensures value { result ≡ Some number }
        ensures part { IsSum result }
        ensures in_range { IsWhole number }
    {
        PartialSum::short(number.get())
    }

    /// The sum, where there is one.
    pub fn get(self) -> Option<i128>
        ensures value { result ≡ self }
        ensures short { IsSum result }
    {
        if self.number == 0 {
            None
        } else {
            Some(self.number >> 1)
        }
    }

    /// The sum of both, which wraps; none where both are none.
    pub fn joined(self, other: PartialSum) -> PartialSum
        ensures value { result ≡ sums_joined self other }
        ensures part { IsSum result }
    {
        if self.number == 0 {
            other
        } else if other.number == 0 {
            self
        } else {
            // One more than twice a sum wraps at 128 bits where the sum wraps at 127.
            PartialSum {
                number: self.number.wrapping_add(other.number).wrapping_sub(1),
            }
        }
    }
}
