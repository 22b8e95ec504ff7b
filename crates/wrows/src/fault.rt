ghost use Rattle.std.specs.Prelude.{◌≡◌};
ghost use Rattle.wrows.specs.declared.fault.AnswerFault.TheVariants.{NoMemory};

use std::alloc::{AllocError, AllocFailed};
use thiserror::Error;

/// Why a query has no answer on some rows.
#[derive(Clone, Copy, Debug, PartialEq, Eq, Error)]
pub enum AnswerFault {
    /// A number is not strictly between -2^95 and 2^95.
    #[error("a number is out of range")]
    OutOfRange,
    /// More than 2,147,483,647 rows are kept, or as many groups are made.
    #[error("there are too many rows")]
    TooManyRows,
    /// Memory was refused. It judges nothing.
    #[error("no memory")]
    NoMemory,
}

impl From<AllocError> for AnswerFault {
    ghost from_gives = { λ _ fault. fault ≡ NoMemory };

    fn from(_: AllocError) -> AnswerFault {
        AnswerFault::NoMemory
    }
}

impl<T: Drop> From<AllocFailed<T>> for AnswerFault {
    ghost from_gives = { λ _ fault. fault ≡ NoMemory };

    fn from(_: AllocFailed<T>) -> AnswerFault {
        AnswerFault::NoMemory
    }
}
