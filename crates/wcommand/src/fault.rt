//! Why words choose nothing.
ghost use Rattle.std.specs.Prelude.{◌≡◌};
ghost use Rattle.wcommand.specs.declared.fault.WordsFault.TheVariants.{NoMemory};

use std::alloc::AllocError;
use thiserror::Error;

/// Why words choose nothing. The texts are those of `clap`: that each ends in a line feed is not proved.
#[derive(Debug, Drop, Error)]
pub enum WordsFault {
    /// The words ask for help or for the version: this is its text, for standard output.
    #[error("{0}")]
    Help(String),
    /// The words are not understood: this text says why, for standard error.
    #[error("{0}")]
    Refused(String),
    /// A growth was refused. It judges nothing.
    #[error("out of memory")]
    NoMemory,
}

impl From<AllocError> for WordsFault {
    ghost from_gives = { λ _ e. e ≡ NoMemory };

    fn from(_e: AllocError) -> WordsFault {
        WordsFault::NoMemory
    }
}
