//! Why tokens spell no query.

ghost use Rattle.std.specs.Prelude.{◌≡◌};
ghost use Rattle.wexpressions.specs.declared.fault.ParseFault.TheVariants.{NoMemory};

use std::alloc::{AllocError, AllocFailed};
use thiserror::Error;

/// Why tokens were not read as a query.
#[derive(Clone, Copy, Debug, PartialEq, Eq, Error)]
pub enum ParseFault {
    /// Q4: no query of the grammar, nested at most 64 deep, is spelled by the tokens.
    #[error("the tokens spell no query")]
    Syntax,
    /// A growth was refused. It judges nothing.
    #[error("out of memory")]
    NoMemory,
}

impl From<AllocError> for ParseFault {
    ghost from_gives = { λ _ e. e ≡ NoMemory };

    fn from(_e: AllocError) -> ParseFault {
        ParseFault::NoMemory
    }
}

impl<T: Drop> From<AllocFailed<T>> for ParseFault {
    ghost from_gives = { λ _ e. e ≡ NoMemory };

    fn from(_e: AllocFailed<T>) -> ParseFault {
        ParseFault::NoMemory
    }
}
