ghost use Rattle.std.specs.Prelude.{◌≡◌};
ghost use Rattle.wvalues.specs.Meaning.{meaning};
ghost use Rattle.weval.specs.Values.{truth_of, value_in};
ghost use Rattle.weval.specs.Cells.{outcome};
ghost use Rattle.weval.specs.declared.cell.EvalFault.TheVariants.{NoMemory};

use std::alloc::AllocError;
use thiserror::Error;
use wvalues::{Truth, Value};

/// What an expression comes to on a row.
#[derive(Drop)]
pub enum Cell {
    Value(Value),
    Truth(Truth),
}

impl Cell {
    /// What it says as a condition. A value is no condition, and unknown.
    pub fn truth(&self) -> Truth
        ensures { result ≡ truth_of (outcome self.now) }
    {
        match self {
            Cell::Truth(truth) => *truth,
            Cell::Value(_) => Truth::Unknown,
        }
    }

    /// Its value. A truth has none, and gives null.
    pub fn into_value(self) -> Value
        ensures { meaning result ≡ value_in (outcome self) }
    {
        match self {
            Cell::Value(value) => value,
            Cell::Truth(_) => Value::Null,
        }
    }
}

/// Why an expression comes to nothing on a row.
#[derive(Clone, Copy, Debug, PartialEq, Eq, Error)]
pub enum EvalFault {
    /// A number in it is not strictly between -2^95 and 2^95.
    #[error("out of range")]
    OutOfRange,
    /// Memory was refused. It judges nothing.
    #[error("no memory")]
    NoMemory,
}

impl From<AllocError> for EvalFault {
    ghost from_gives = { λ _ fault. fault ≡ NoMemory };

    fn from(_: AllocError) -> EvalFault {
        EvalFault::NoMemory
    }
}
