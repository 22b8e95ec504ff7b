//! Counts and sums as values.
ghost use Rattle.std.specs.Prelude.{◌≡◌, pos};
ghost use Rattle.wvalues.specs.Meaning.{Int, meaning};
ghost use Rattle.wrows.specs.Outcomes.{Gives};
ghost use Rattle.waggregate.specs.Aggregating.{sum_answer};
ghost use Rattle.waggregate.specs.FrameAnswers.{answer_or_out_of_range};

use wrows::AnswerFault;
use wslide::PartialSum;
use wvalues::{Value, Whole};

/// A count as a value.
pub fn count_value(count: u64) -> Value
    ensures { meaning result ≡ Int (pos count) }
{
    match Whole::new(count as i128) {
        Some(whole) => Value::Int(whole),
        None => Value::Null,
    }
}

/// A sum as a value: null where no value was added, `OutOfRange` where it is so.
pub(crate) fn sum_value(sum: PartialSum) -> Result<Value, AnswerFault>
    ensures { Gives meaning result (answer_or_out_of_range (sum_answer sum)) }
{
    match sum.get() {
        None => Ok(Value::Null),
        Some(sum) => match Whole::new(sum) {
            Some(whole) => Ok(Value::Int(whole)),
            None => Err(AnswerFault::OutOfRange),
        },
    }
}
