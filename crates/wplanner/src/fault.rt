ghost use Rattle.std.specs.Prelude.{◌≡◌};
ghost use Rattle.wplanner.specs.declared.fault.AskFault.TheVariants.{NoMemory};
ghost use Rattle.wplanner.specs.Faults.{unanswered};

use std::alloc::AllocError;
use thiserror::Error;
use wrows::AnswerFault;
use wrules::Rule;

/// Why a query is not answered.
#[derive(Clone, Copy, Debug, PartialEq, Eq, Error)]
pub enum AskFault {
    /// Q1: over 65,536 bytes.
    #[error("the query is over 65536 bytes")]
    TooLong,
    /// Q2: not UTF-8.
    #[error("the query is not UTF-8")]
    NotUtf8,
    /// Q3: neither a token nor a comment stands at this byte, counted from 0.
    #[error("no token stands at byte {place}")]
    At { place: usize },
    /// Q4: the tokens spell no query.
    #[error("the tokens spell no query")]
    Syntax,
    /// Q10 to Q28: the least rule that the query breaks.
    #[error("the query breaks rule {number}", number = .0.number())]
    Broken(Rule),
    /// Q40: a number is not strictly between -2^95 and 2^95.
    #[error("a number is out of range")]
    OutOfRange,
    /// Q41: more than 2,147,483,647 rows are kept, or groups of all sets together made.
    #[error("there are too many rows")]
    TooManyRows,
    /// Memory was refused, or the cells of a live segment are not made (`SegmentSet::make`), which no memory mends. It judges
    /// nothing.
    #[error("out of memory")]
    NoMemory,
}

impl From<AllocError> for AskFault {
    ghost from_gives = { λ _ fault. fault ≡ NoMemory };

    fn from(_: AllocError) -> AskFault {
        AskFault::NoMemory
    }
}

impl From<AnswerFault> for AskFault {
    ghost from_gives = { λ fault asked. asked ≡ unanswered fault };

    fn from(fault: AnswerFault) -> AskFault {
        match fault {
            AnswerFault::OutOfRange => AskFault::OutOfRange,
            AnswerFault::TooManyRows => AskFault::TooManyRows,
            AnswerFault::NoMemory => AskFault::NoMemory,
        }
    }
}
