//! Why bytes declare no table.
ghost use Rattle.std.specs.Prelude.{◌≡◌};
ghost use Rattle.wsegment.specs.declared.schema_fault.SchemaFault.TheVariants.{NoMemory};

use std::alloc::{AllocError, AllocFailed};
use thiserror::Error;

/// Why bytes declare no table. The faults are judged in this order.
#[derive(Clone, Copy, Debug, PartialEq, Eq, Error)]
pub enum SchemaFault {
    /// T1: over 65,536 bytes, or another form.
    #[error("the declaration is not spelled as one")]
    Syntax,
    /// T2: two columns have one name.
    #[error("the declaration repeats a column")]
    RepeatedColumn,
    /// T3: no column, or over 64.
    #[error("a table has 1 to 64 columns")]
    ColumnCount,
    /// A growth was refused. It judges nothing.
    #[error("out of memory")]
    NoMemory,
}

impl From<AllocError> for SchemaFault {
    ghost from_gives = { λ _ fault. fault ≡ NoMemory };

    fn from(_refused: AllocError) -> SchemaFault {
        SchemaFault::NoMemory
    }
}

impl<T: Drop> From<AllocFailed<T>> for SchemaFault {
    ghost from_gives = { λ _ fault. fault ≡ NoMemory };

    fn from(_refused: AllocFailed<T>) -> SchemaFault {
        SchemaFault::NoMemory
    }
}
