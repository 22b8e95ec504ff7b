//! What expressions come to on all rows.
ghost use Rattle.std.specs.Prelude.{◌≡◌, ◌*◌, ◌++◌, length, map, IfOk, OnOk, Some};
ghost use Rattle.std.specs.List.{list_any};
ghost use Rattle.wvalues.specs.Meaning.{meaning};
ghost use Rattle.wplan.specs.Formula.{formula};
ghost use Rattle.wplan.specs.Plans.{optional_formula};
ghost use Rattle.wrows.specs.declared.fault.AnswerFault.TheVariants.{OutOfRange};
ghost use Rattle.wrows.specs.Outcomes.{Gives, unless};
ghost use Rattle.wrows.specs.Columns.{is_out_of_range, value_on, held_rows, lists_of, not_too_many};
ghost use Rattle.wsort.specs.LaidRows.{laid};
ghost use Rattle.wrows.specs.Laid.{formulas_seen, rows_seen};
ghost use Rattle.wrows.specs.Plain.{kept_of};

use crate::condition::Condition;
use crate::fault::AnswerFault;
use crate::values::value;
use std::alloc::Global;
use wplan::Expr;
use wvalues::Value;

/// The most rows that are kept, and the most groups that are made.
pub const MOST_ROWS: usize = 2_147_483_647;

// The rows on which a condition is true.
fn rows_where<'a>(
    alloc: Global,
    condition: &Condition,
    rows: &[&'a [Value]],
) -> Result<Vec<&'a [Value]>, AnswerFault>
    ensures { Gives (λ held. rows_seen held.items) result (held_rows (Some (formula condition.now.expr.now)) (rows_seen rows.now)) }
{
    let mut held = Vec::new(alloc);
    for row in rows {
        if condition.holds(row)? {
            held.push(*row)?;
        }
    }
    Ok(held)
}

// The rows on which a condition is true: all, where there is none.
fn rows_held<'a>(
    alloc: Global,
    condition: &Option<Expr>,
    rows: Vec<&'a [Value]>,
) -> Result<Vec<&'a [Value]>, AnswerFault>
    ensures { Gives (λ held. rows_seen held.items) result (held_rows (optional_formula condition.now) (rows_seen rows.entry.items)) }
{
    match condition {
        None => Ok(rows),
        Some(condition) => {
            let condition = Condition::new(alloc, condition)?;
            rows_where(alloc, &condition, &rows)
        }
    }
}

/// The rows, `TooManyRows` where they are more than 2,147,483,647.
pub fn not_too_many<'a>(rows: Vec<&'a [Value]>) -> Result<Vec<&'a [Value]>, AnswerFault>
    ensures { Gives (λ kept. rows_seen kept.items) result (not_too_many (rows_seen rows.entry.items)) }
{
    if rows.len() > MOST_ROWS {
        return Err(AnswerFault::TooManyRows);
    }
    Ok(rows)
}

/// The rows on which a condition is true, in their order. Where there is none these are all, and the list is handed on.
/// The condition is evaluated on every row, and `OutOfRange` where it is so on any; more than 2,147,483,647 kept rows are
/// `TooManyRows`.
pub fn kept_rows<'a>(
    alloc: Global,
    condition: &Option<Expr>,
    rows: Vec<&'a [Value]>,
) -> Result<Vec<&'a [Value]>, AnswerFault>
    ensures { Gives (λ kept. rows_seen kept.items) result (kept_of (optional_formula condition.now) (rows_seen rows.entry.items)) }
{
    let held = rows_held(alloc, condition, rows)?;
    not_too_many(held)
}

/// Appends the values of several expressions on a row.
pub(crate) fn push_values(
    exprs: &[&Expr],
    row: &[Value],
    cells: &mut Vec<Value>,
) -> Result<(), AnswerFault>
    ensures gives { Gives (λ u. u) result
        (unless (list_any (λ t. is_out_of_range t (map meaning row.now)) (formulas_seen exprs.now)) OutOfRange tt) }
    ensures added { OnOk result (map meaning cells.new.items ≡ map meaning cells.old.items ++ map
        (λ t. value_on t (map meaning row.now)) (formulas_seen exprs.now)) }
{
    for expr in exprs {
        cells.push(value(expr, row)?)?;
    }
    Ok(())
}

/// The values of several expressions, evaluated on each row, laid out one row after another.
pub(crate) fn row_lists(
    alloc: Global,
    exprs: &[&Expr],
    rows: &[&[Value]],
) -> Result<Vec<Value>, AnswerFault>
    ensures gives { Gives (λ cells. laid (length exprs.now) (length rows.now) cells.items) result
        (lists_of (formulas_seen exprs.now) (rows_seen rows.now)) }
    ensures laid { IfOk result (λ cells. length cells.items ≡ length rows.now * length exprs.now) }
{
    let mut cells = Vec::with_capacity(alloc, rows.len().saturating_mul(exprs.len()))?;
    for row in rows {
        push_values(exprs, row, &mut cells)?;
    }
    Ok(cells)
}
