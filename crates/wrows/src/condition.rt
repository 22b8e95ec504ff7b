//! A condition that is judged on many rows.
ghost use Rattle.std.specs.Prelude.{◌≡◌, true, Err, IfOk, None, map};
ghost use Rattle.std.specs.Option.{ForSome, is_some};
ghost use Rattle.wvalues.specs.Meaning.{meaning};
ghost use Rattle.wplan.specs.declared.expr.Expr.{out-Expr};
ghost use Rattle.wplan.specs.Formula.{formula};
ghost use Rattle.weval.specs.NumberTests.{Decide, are_number_tests};
ghost use Rattle.weval.specs.Reads.{reads_text};
ghost use Rattle.wrows.specs.declared.fault.AnswerFault.TheVariants.{NoMemory, OutOfRange};
ghost use Rattle.wrows.specs.Outcomes.{Gives, unless};
ghost use Rattle.wrows.specs.Columns.{is_out_of_range, holds_on};

use crate::fault::AnswerFault;
use crate::values::holds;
use std::alloc::{AllocError, Global};
use weval::{NumberTests, number_tests};
use wplan::Expr;
use wvalues::Value;

/// A condition, made ready to be judged on many rows: where tests of numbers decide it, it is not evaluated.
#[derive(Drop)]
pub struct Condition<'a> {
    /// What it says.
    pub expr: &'a Expr,
    /// The tests that decide it, if it has such.
    pub tests: Option<NumberTests>,
    ghost decide: { ForSome tests (λ tests. Decide tests.tests.items (formula expr.now)) },
}

impl<'a> Condition<'a> {
    /// The condition that an expression says, with its tests, where it has such. It is to be made once for all rows.
    pub fn new(alloc: Global, expr: &'a Expr) -> Result<Condition<'a>, AllocError>
        ensures says { IfOk result (λ condition. condition.expr.now ≡ expr.entry.now) }
        ensures tests { IfOk result (λ condition. is_some condition.tests ≡ are_number_tests (out-Expr expr.entry.now)) }
    {
        let tests = number_tests(alloc, expr)?;
        Ok(Condition { expr, tests })
    }

    /// Whether it is true on a row, `OutOfRange` where a part of it is so there. Where it has tests, it is judged by these alone, and
    /// takes no memory. `NoMemory`: a text that it reads is shared too often.
    #[inline(always)]
    pub fn holds(&self, row: &[Value]) -> Result<bool, AnswerFault>
        ensures memory { result ≡ Err NoMemory → (self.now.tests ≡ None)
            × (reads_text (map meaning row.now) (formula self.now.expr.now) ≡ true) }
        ensures holds { Gives (λ b. b) result (unless (is_out_of_range (formula self.now.expr.now) (map meaning row.now)) OutOfRange
            (holds_on (formula self.now.expr.now) (map meaning row.now))) }
    {
        match &self.tests {
            Some(tests) => Ok(tests.pass(row)),
            None => holds(self.expr, row),
        }
    }
}
