//! Rows with what columns have for them behind their cells.
ghost use Rattle.std.specs.Prelude.{◌≡◌, ◌*◌, ◌++◌, IfOk, OnOk, length, map};
ghost use Rattle.wvalues.specs.Meaning.{meaning};
ghost use Rattle.wrows.specs.Outcomes.{Gives};
ghost use Rattle.wrows.specs.Columns.{lists_of, value_at};
ghost use Rattle.wrows.specs.Extended.{extended_rows};
ghost use Rattle.wsort.specs.LaidRows.{laid};
ghost use Rattle.wrows.specs.Laid.{formulas_seen};

use crate::cells::push_row;
use crate::extended::ExtendedRows;
use crate::fault::AnswerFault;
use crate::rows::push_values;
use std::alloc::{AllocError, Global};
use wcolumns::value_or_null;
use wplan::Expr;
use wvalues::Value;

// Appends what some columns have for a row.
fn push_answers(cells: &mut Vec<Value>, columns: &[&[Value]], row: usize) -> Result<(), AllocError>
    ensures { OnOk result (map meaning cells.new.items ≡ map meaning cells.old.items ++ map
        (λ column. value_at (map meaning column.now) row) columns.now) }
{
    for column in columns {
        cells.push(value_or_null(column, &Value::Null, row).duplicate()?)?;
    }
    Ok(())
}

// Makes a row of the cells of another one and what some columns have for its number.
fn fill(
    joined: &mut Vec<Value>,
    row: &[Value],
    columns: &[&[Value]],
    number: usize,
) -> Result<(), AllocError>
    ensures { OnOk result (map meaning joined.new.items ≡ map meaning row.now ++ map
        (λ column. value_at (map meaning column.now) number) columns.now) }
{
    joined.clear();
    push_row(joined, row)?;
    push_answers(joined, columns, number)
}

/// The values of several expressions on each row with what some columns have for it behind its cells, laid out one row
/// after another. One such row lies in memory at a time. Each expression is evaluated on every row, and `OutOfRange`
/// where one is so on any.
pub(crate) fn joined_lists(
    alloc: Global,
    exprs: &[&Expr],
    extended: &ExtendedRows,
) -> Result<Vec<Value>, AnswerFault>
    ensures gives { Gives (λ cells. laid (length exprs.now) (length extended.now.rows.now) cells.items) result
        (lists_of (formulas_seen exprs.now) (extended_rows extended.now)) }
    ensures laid { IfOk result (λ cells. length cells.items ≡ length extended.now.rows.now * length exprs.now) }
{
    let count = extended.rows.len();
    let mut cells = Vec::with_capacity(alloc, count.saturating_mul(exprs.len()))?;
    let mut joined = Vec::new(alloc);
    for (number, row) in extended.rows.iter().enumerate() {
        fill(&mut joined, row, extended.columns, number)?;
        push_values(exprs, &joined, &mut cells)?;
    }
    Ok(cells)
}
