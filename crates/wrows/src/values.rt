//! What an expression comes to on one row.
ghost use Rattle.std.specs.Prelude.{◌≡◌, true, Err, map};
ghost use Rattle.wvalues.specs.Meaning.{meaning};
ghost use Rattle.wplan.specs.Formula.{formula};
ghost use Rattle.weval.specs.Reads.{reads_text};
ghost use Rattle.weval.specs.Values.{is_yes};
ghost use Rattle.wrows.specs.declared.fault.AnswerFault.TheVariants.{NoMemory, OutOfRange};
ghost use Rattle.wrows.specs.Outcomes.{Gives, unless};
ghost use Rattle.wrows.specs.Columns.{is_out_of_range, holds_on, value_on};

use crate::fault::AnswerFault;
use weval::{EvalFault, eval, truth_on};
use wplan::Expr;
use wvalues::{Truth, Value};

fn is_yes(truth: Truth) -> bool
    ensures { result ≡ is_yes truth }
{
    matches!(truth, Truth::Yes)
}

/// Whether a condition is true on a row, `OutOfRange` where a part of it is so there. `NoMemory`: a text that it reads is shared too
/// often.
pub fn holds(condition: &Expr, row: &[Value]) -> Result<bool, AnswerFault>
    ensures memory { result ≡ Err NoMemory → reads_text (map meaning row.now) (formula condition.now) ≡ true }
    ensures holds { Gives (λ b. b) result (unless (is_out_of_range (formula condition.now) (map meaning row.now)) OutOfRange
        (holds_on (formula condition.now) (map meaning row.now))) }
{
    match truth_on(condition, row) {
        Ok(truth) => Ok(is_yes(truth)),
        Err(EvalFault::OutOfRange) => Err(AnswerFault::OutOfRange),
        Err(EvalFault::NoMemory) => Err(AnswerFault::NoMemory),
    }
}

/// The value of an expression on a row.
pub(crate) fn value(expr: &Expr, row: &[Value]) -> Result<Value, AnswerFault>
    ensures { Gives meaning result (unless (is_out_of_range (formula expr.now) (map meaning row.now)) OutOfRange
        (value_on (formula expr.now) (map meaning row.now))) }
{
    match eval(expr, row) {
        Ok(cell) => Ok(cell.into_value()),
        Err(EvalFault::OutOfRange) => Err(AnswerFault::OutOfRange),
        Err(EvalFault::NoMemory) => Err(AnswerFault::NoMemory),
    }
}
