//! The values of expressions on each row, with plain columns read where they lie.
ghost use Rattle.std.specs.Prelude.{◌≡◌, ◌*◌, IfOk, length};
ghost use Rattle.wrows.specs.Outcomes.{Gives};
ghost use Rattle.wrows.specs.Columns.{lists_of};
ghost use Rattle.wrows.specs.Extended.{extended_rows};
ghost use Rattle.wsort.specs.LaidRows.{laid};
ghost use Rattle.wrows.specs.Laid.{formulas_seen, rows_seen};

use crate::extended::ExtendedRows;
use crate::fault::AnswerFault;
use crate::joined::joined_lists;
use crate::place_values::{picked_lists, places_of};
use crate::rows::row_lists;
use std::alloc::Global;
use wplan::Expr;
use wvalues::Value;

/// The values of several expressions, evaluated on each row.
pub(crate) fn evaluated_lists(
    alloc: Global,
    exprs: &[&Expr],
    extended: &ExtendedRows,
) -> Result<Vec<Value>, AnswerFault>
    ensures gives { Gives (λ cells. laid (length exprs.now) (length extended.now.rows.now) cells.items) result
        (lists_of (formulas_seen exprs.now) (extended_rows extended.now)) }
    ensures laid { IfOk result (λ cells. length cells.items ≡ length extended.now.rows.now * length exprs.now) }
{
    if extended.columns.is_empty() {
        row_lists(alloc, exprs, extended.rows)
    } else {
        joined_lists(alloc, exprs, extended)
    }
}

/// The values of several expressions on each row, with what the columns have for it behind its cells, laid out one row
/// after another. `OutOfRange` where one is so on any row.
pub(crate) fn evaluated_beside(
    alloc: Global,
    exprs: &[&Expr],
    extended: &ExtendedRows,
) -> Result<Vec<Value>, AnswerFault>
    ensures gives { Gives (λ cells. laid (length exprs.now) (length extended.now.rows.now) cells.items) result
        (lists_of (formulas_seen exprs.now) (extended_rows extended.now)) }
    ensures laid { IfOk result (λ cells. length cells.items ≡ length extended.now.rows.now * length exprs.now) }
{
    let plain = places_of(alloc, exprs)?;
    let Some(places) = plain else {
        return evaluated_lists(alloc, exprs, extended);
    };
    let cells = picked_lists(alloc, &places, extended)?;
    Ok(cells)
}

/// The values of several expressions on each row, laid out one row after another. Each is evaluated on every row, and
/// `OutOfRange` where one is so on any; where all are plain columns, which cannot be out of range, they are read where
/// they lie.
pub fn lists(alloc: Global, exprs: &[&Expr], rows: &[&[Value]]) -> Result<Vec<Value>, AnswerFault>
    ensures gives { Gives (λ cells. laid (length exprs.now) (length rows.now) cells.items) result
        (lists_of (formulas_seen exprs.now) (rows_seen rows.now)) }
    ensures laid { IfOk result (λ cells. length cells.items ≡ length rows.now * length exprs.now) }
{
    let null = Value::Null;
    let extended = ExtendedRows {
        rows,
        columns: &[],
        null: &null,
    };
    evaluated_beside(alloc, exprs, &extended)
}
