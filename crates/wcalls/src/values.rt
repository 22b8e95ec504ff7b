//! The values of an expression on rows: those of a plain column are read where they lie.
ghost use Rattle.std.specs.Prelude.{◌≡◌, IfOk, length, map};
ghost use Rattle.wvalues.specs.Meaning.{meaning};
ghost use Rattle.wcolumns.specs.Columns.{values_seen};
ghost use Rattle.wplan.specs.Formula.{formula};
ghost use Rattle.wrows.specs.Outcomes.{Gives};
ghost use Rattle.wrows.specs.Columns.{column_of};
ghost use Rattle.wrows.specs.Laid.{rows_seen};

use crate::arranged::ArrangedRows;
use crate::near::near_values;
use std::alloc::{AllocError, Global};
use std::rc::Rc;
use wcolumns::ColumnValues;
use wplan::Expr;
use wrows::{AnswerFault, lists, place_of};
use wvalues::Value;

// An expression's value on each row, by number.
fn value_column(alloc: Global, expr: &Expr, rows: &[&[Value]]) -> Result<Vec<Value>, AnswerFault>
    ensures values { Gives (λ column. map meaning column.items) result (column_of (formula expr.now) (rows_seen rows.now)) }
    ensures len { IfOk result (λ column. length column.items ≡ length rows.now) }
{
    let column = lists(alloc, &[expr], rows)?;
    Ok(column)
}

// Values that several columns may hold.
fn shared(alloc: Global, values: Vec<Value>) -> Result<Rc<Vec<Value>>, AllocError>
    ensures { IfOk result (λ shared. shared.value.items ≡ values.items) }
{
    let Ok(shared) = Rc::new(alloc, values) else {
        return Err(AllocError);
    };
    Ok(shared)
}

// An expression's values on rows, worked out on each.
fn evaluated_values<'a>(
    alloc: Global,
    expr: &Expr,
    rows: &[&[Value]],
) -> Result<ColumnValues<'a>, AnswerFault>
    ensures { Gives values_seen result (column_of (formula expr.now) (rows_seen rows.now)) }
{
    let column = value_column(alloc, expr, rows)?;
    let values = shared(alloc, column)?;
    Ok(ColumnValues::Evaluated(values))
}

/// An expression's values on rows. Those of a plain column are those of its copy, if there is one, and else are read where they lie.
pub(crate) fn column_values<'a>(
    alloc: Global,
    expr: &Expr,
    arranged: &ArrangedRows<'_, 'a>,
) -> Result<ColumnValues<'a>, AnswerFault>
    ensures { Gives values_seen result (column_of (formula expr.now) (rows_seen arranged.now.rows.now)) }
{
    if let Some(near) = near_values(expr, arranged.near) {
        let values = near.clone()?;
        return Ok(ColumnValues::Evaluated(values));
    }
    let rows = arranged.rows;
    match place_of(expr) {
        Some(place) => Ok(ColumnValues::Plain { rows, place }),
        None => evaluated_values(alloc, expr, rows),
    }
}
