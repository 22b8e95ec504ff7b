//! The plain columns that functions of a window read, copied.
ghost use Rattle.std.specs.Prelude.{◌≡◌, All, IfOk, IfSome, OnOk, List, Ok, length, map};
ghost use Rattle.std.specs.Borrow.{Bor};
ghost use Rattle.wvalues.specs.declared.value.Value.{Value as Cell};
ghost use Rattle.wvalues.specs.Meaning.{meaning};
ghost use Rattle.wcolumns.specs.Near.{IsNear};
ghost use Rattle.wplan.specs.Formula.{formula};
ghost use Rattle.wrows.specs.Columns.{column_of};
ghost use Rattle.wrows.specs.Laid.{rows_seen};

use std::alloc::{AllocError, Global};
use std::rc::Rc;
use wcolumns::{NearColumn, lie_apart, near_column};
use wplan::{Expr, WindowFunction};
use wrows::place_of;
use wvalues::Value;

/// How many rows a window has at least whose columns are copied for aggregates, so many that a cache close to the processor does not
/// hold them.
const ROWS: usize = 16_384;

/// The same for functions that tell values of other rows. Their copies stay until the answer is printed, so they have to save more.
const ROWS_TO_TELL: usize = 2_097_152;

/// The copy of what an expression has on each row, where it is a plain column that was copied.
pub(crate) fn near_values<'a>(expr: &Expr, near: &'a [NearColumn]) -> Option<&'a Rc<Vec<Value>>>
    ensures values { (rows : List (Bor (List Cell))) → All (IsNear rows) near.now → IfSome result
        (λ values. column_of (formula expr.now) (rows_seen rows) ≡ Ok (map meaning values.now.value.items)) }
    ensures len { (rows : List (Bor (List Cell))) → All (IsNear rows) near.now → IfSome result
        (λ values. length values.now.value.items ≡ length rows) }
{
    near_column(near, place_of(expr)?)
}

// What a function reads of so many rows, if it reads a value whose column may be copied.
fn argument_of(function: &WindowFunction, rows: usize) -> Option<&Expr> {
    match function {
        WindowFunction::RowNumber
        | WindowFunction::Rank
        | WindowFunction::DenseRank
        | WindowFunction::Tile(_) => None,
        WindowFunction::Aggregated(aggregate) => Some(&aggregate.argument),
        _ if rows < ROWS_TO_TELL => None,
        WindowFunction::Lag { value, .. } | WindowFunction::Lead { value, .. } => Some(value),
        WindowFunction::FirstValue(value) | WindowFunction::LastValue(value) => Some(value),
        WindowFunction::NthValue { value, .. } => Some(value),
    }
}

// The place of the column that a function reads, if it reads a plain one that was not tried yet.
fn place_to_copy(function: &WindowFunction, tried: &[usize], rows: usize) -> Option<usize> {
    let place = place_of(argument_of(function, rows)?)?;
    if tried.contains(&place) {
        None
    } else {
        Some(place)
    }
}

// Appends a copy of the column that a function reads, if it is a plain one that was not tried yet and can be copied.
fn push_near(
    alloc: Global,
    function: &WindowFunction,
    rows: &[&[Value]],
    tried: &mut Vec<usize>,
    near: &mut Vec<NearColumn>,
) -> Result<(), AllocError>
    requires { All (IsNear rows.now) near.old.items }
    ensures { OnOk result (All (IsNear rows.now) near.new.items) }
{
    let Some(place) = place_to_copy(function, tried, rows.len()) else {
        return Ok(());
    };
    tried.push(place)?;
    if let Some(column) = NearColumn::of(alloc, rows, place)? {
        near.push(column)?;
    }
    Ok(())
}

/// Copies of the plain columns that functions of a window read, each column tried once, where the rows are many and lie apart in its
/// order: what is read in that order then lies in one list of 16 bytes a row, and not in each row behind a list of the rows. All of
/// this is a matter of speed alone.
pub(crate) fn near_columns(
    alloc: Global,
    functions: &[&WindowFunction],
    rows: &[&[Value]],
    order: &[u32],
) -> Result<Vec<NearColumn>, AllocError>
    ensures { IfOk result (λ near. All (IsNear rows.now) near.items) }
{
    let mut near = Vec::new(alloc);
    if rows.len() < ROWS || !lie_apart(order) {
        return Ok(near);
    }
    let mut tried = Vec::new(alloc);
    for function in functions {
        push_near(alloc, function, rows, &mut tried, &mut near)?;
    }
    Ok(near)
}
