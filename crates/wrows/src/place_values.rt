//! Values at places of rows, read where they lie.
ghost use Rattle.std.specs.Prelude.{◌≡◌, ◌*◌, ◌++◌, IfOk, IfSome, Ok, OnOk, length, map};
ghost use Rattle.std.specs.List.{list_all};
ghost use Rattle.std.specs.Option.{is_some};
ghost use Rattle.wvalues.specs.Meaning.{meaning, Null};
ghost use Rattle.wframe.specs.Peers.{key_at};
ghost use Rattle.wplan.specs.declared.expr.Expr.{out-Expr};
ghost use Rattle.wplan.specs.Formula.{At, formula};
ghost use Rattle.wrows.specs.Columns.{lists_of, value_at};
ghost use Rattle.wrows.specs.Extended.{extended_rows};
ghost use Rattle.wsort.specs.LaidRows.{laid};
ghost use Rattle.wrows.specs.Laid.{formulas_seen, rows_seen};
ghost use Rattle.wrows.specs.Picked.{with_columns};
ghost use Rattle.wrows.specs.PlainColumns.{is_plain, plain_place};

use crate::extended::ExtendedRows;
use std::alloc::{AllocError, Global};
use wcolumns::value_or_null;
use wplan::Expr;
use wvalues::Value;

/// The place that an expression names, where it is a plain column.
#[tactic(auto, unfolding(wplan::specs::Formula::formula))]
pub fn place_of(expr: &Expr) -> Option<usize>
    ensures found { result ≡ plain_place (out-Expr expr.now) }
    ensures formula { IfSome result (λ place. formula expr.now ≡ At place) }
{
    match expr {
        Expr::Place(place) => Some(*place),
        _ => None,
    }
}

/// The places of expressions, where each is a plain column.
pub fn places_of(alloc: Global, exprs: &[&Expr]) -> Result<Option<Vec<usize>>, AllocError>
    ensures found { IfOk result (λ found. is_some found ≡ list_all is_plain exprs.now) }
    ensures places { IfOk result (λ found. IfSome found (λ places. formulas_seen exprs.now ≡ map At places.items)) }
{
    let mut places = Vec::with_capacity(alloc, exprs.len())?;
    for expr in exprs {
        let Some(place) = place_of(expr) else {
            return Ok(None);
        };
        places.push(place)?;
    }
    Ok(Some(places))
}

/// The cells of the row of a number, none where there is no such row.
pub fn cells_at<'a>(rows: &[&'a [Value]], row: usize) -> &'a [Value]
    ensures { map meaning result.now ≡ key_at (rows_seen rows.now) row }
{
    if row < rows.len() { rows[row] } else { &[] }
}

// What the column of a number has for a row, null where that is nothing.
fn answer_at<'a>(columns: &[&'a [Value]], null: &'a Value, row: usize, number: usize) -> &'a Value
    requires { meaning null.now ≡ Null }
    ensures { meaning result.now ≡ value_at (map (λ column. value_at column row) (rows_seen columns.now)) number }
{
    if number < columns.len() {
        value_or_null(columns[number], null, row)
    } else {
        null
    }
}

/// A value of a row that has these cells, at a place: of its own cells, or behind them of what the columns have for it.
pub(crate) fn value_of<'a>(
    own: &'a [Value],
    columns: &[&'a [Value]],
    null: &'a Value,
    row: usize,
    place: usize,
) -> &'a Value
    requires { meaning null.now ≡ Null }
    ensures { meaning result.now ≡ value_at (with_columns (map meaning own.now) (rows_seen columns.now) row) place }
{
    if place < own.len() {
        &own[place]
    } else {
        answer_at(columns, null, row, place - own.len())
    }
}

/// Appends the values at some places of a row that has these cells.
pub(crate) fn push_picked(
    own: &[Value],
    extended: &ExtendedRows,
    places: &[usize],
    row: usize,
    cells: &mut Vec<Value>,
) -> Result<(), AllocError>
    ensures { OnOk result (map meaning cells.new.items ≡ map meaning cells.old.items ++ map
        (value_at (with_columns (map meaning own.now) (rows_seen extended.now.columns.now) row)) places.now) }
{
    for place in places {
        cells.push(value_of(own, extended.columns, extended.null, row, *place).duplicate()?)?;
    }
    Ok(())
}

/// The values at some places of each row, with what the columns have for it behind its cells.
pub(crate) fn picked_lists(
    alloc: Global,
    places: &[usize],
    extended: &ExtendedRows,
) -> Result<Vec<Value>, AllocError>
    ensures gives { IfOk result (λ cells. lists_of (map At places.now) (extended_rows extended.now)
        ≡ Ok (laid (length places.now) (length extended.now.rows.now) cells.items)) }
    ensures laid { IfOk result (λ cells. length cells.items ≡ length extended.now.rows.now * length places.now) }
{
    let count = extended.rows.len();
    let mut cells = Vec::with_capacity(alloc, count.saturating_mul(places.len()))?;
    for row in 0..count {
        push_picked(
            cells_at(extended.rows, row),
            extended,
            places,
            row,
            &mut cells,
        )?;
    }
    Ok(cells)
}
