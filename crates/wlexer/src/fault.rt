//! Why a text has no tokens.

ghost use Rattle.std.specs.Prelude.{◌≡◌};
ghost use Rattle.wlexer.specs.declared.fault.LexFault.TheVariants.{NoMemory};
ghost use Rattle.wlexer.specs.declared.fault.Miss.TheVariants as misses;

use std::alloc::{AllocError, AllocFailed};
use thiserror::Error;

/// Why a text has no tokens. The length is judged first, then the encoding.
#[derive(Clone, Copy, Debug, PartialEq, Eq, Error)]
pub enum LexFault {
    /// Q1.
    #[error("the text is longer than 65536 bytes")]
    TooLong,
    /// Q2.
    #[error("the text is not UTF-8")]
    NotUtf8,
    /// Q3: neither a token nor a comment stands at this byte of the text, counted from 0.
    #[error("no token stands at byte {place}")]
    At { place: usize },
    /// A growth was refused. It judges nothing.
    #[error("out of memory")]
    NoMemory,
}

impl From<AllocError> for LexFault {
    ghost from_gives = { λ _ e. e ≡ NoMemory };

    fn from(_e: AllocError) -> LexFault {
        LexFault::NoMemory
    }
}

impl<T: Drop> From<AllocFailed<T>> for LexFault {
    ghost from_gives = { λ _ e. e ≡ NoMemory };

    fn from(_e: AllocFailed<T>) -> LexFault {
        LexFault::NoMemory
    }
}

/// Why nothing was read at a place.
#[derive(Clone, Copy, Debug, PartialEq, Eq)]
pub enum Miss {
    /// No token stands there.
    Nothing,
    /// A growth was refused.
    NoMemory,
}

impl From<AllocError> for Miss {
    ghost from_gives = { λ _ e. e ≡ misses.NoMemory };

    fn from(_e: AllocError) -> Miss {
        Miss::NoMemory
    }
}
