//! Why a query is not resolved.

ghost use Rattle.std.specs.Prelude.{◌≡◌};
ghost use Rattle.wresolve.specs.declared.resolve_fault.ResolveFault.TheVariants.{NoMemory};

use std::alloc::AllocError;
use thiserror::Error;
use wrules::Rule;

/// Why a query is not resolved.
#[derive(Clone, Copy, Debug, PartialEq, Eq, Error)]
pub enum ResolveFault {
    /// The least rule that it breaks, a derived table being judged first.
    #[error("a rule of resolution is broken")]
    Broken(Rule),
    /// Memory was refused. It judges nothing.
    #[error("no memory")]
    NoMemory,
}

impl From<AllocError> for ResolveFault {
    ghost from_gives = { λ _ fault. fault ≡ NoMemory };

    fn from(_: AllocError) -> ResolveFault {
        ResolveFault::NoMemory
    }
}
