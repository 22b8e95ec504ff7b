//! The items of rows that are presorted.
ghost use Rattle.std.specs.Prelude.{◌≡◌, ◌<◌, ℕ, All, IfOk, List, Ok, length, map};
ghost use Rattle.wvalues.specs.declared.key.SortKey.{SortKey};
ghost use Rattle.wplan.specs.Formula.{At, Formula};
ghost use Rattle.wrows.specs.Columns.{beside};
ghost use Rattle.wrows.specs.Extended.{extended_rows};
ghost use Rattle.wrows.specs.Laid.{formulas_seen, rows_in, rows_seen};
ghost use Rattle.wrows.specs.Outcomes.{Gives};
ghost use Rattle.wrows.specs.Picked.{items_at, numbers_of};
ghost use Rattle.wrows.specs.Plain.{cut, ordered_of};

use crate::cells::{Cells, gathered};
use crate::copied::picked_rows;
use crate::extended::ExtendedRows;
use crate::fault::AnswerFault;
use crate::items::{Asked, cut_numbers};
use crate::listing::evaluated_lists;
use crate::place_values::places_of;
use std::alloc::{AllocError, Global};
use wplan::Expr;
use wvalues::Value;

// Items that are evaluated on every row, of the rows of these numbers.
fn evaluated_at(
    alloc: Global,
    items: &[&Expr],
    numbers: &[u32],
    extended: &ExtendedRows,
) -> Result<Cells, AnswerFault>
    requires { All (λ i. i < length extended.now.rows.now) numbers.now }
    ensures width { IfOk result (λ cells. cells.width ≡ length items.now) }
    ensures rows { Gives rows_in result (items_at (formulas_seen items.now) numbers.now
        (extended_rows extended.now)) }
{
    let lists = evaluated_lists(alloc, items, extended)?;
    let cells = gathered(alloc, &lists, items.len(), extended.rows.len(), numbers)?;
    Ok(Cells {
        cells,
        width: items.len(),
        count: numbers.len(),
    })
}

// Items that are plain columns, of the rows of these numbers alone: none of them can be out of range.
fn plain_at(
    alloc: Global,
    places: &[usize],
    numbers: &[u32],
    extended: &ExtendedRows,
) -> Result<Cells, AllocError>
    requires { All (λ i. i < length extended.now.rows.now) numbers.now }
    ensures width { IfOk result (λ cells. cells.width ≡ length places.now) }
    ensures rows { IfOk result (λ cells. items_at (map At places.now) numbers.now
        (extended_rows extended.now) ≡ Ok (rows_in cells)) }
{
    let cells = picked_rows(alloc, extended, places, numbers)?;
    Ok(Cells {
        cells,
        width: places.len(),
        count: numbers.len(),
    })
}

/// Items of the rows of these numbers.
pub(crate) fn items_at(
    alloc: Global,
    items: &[&Expr],
    numbers: &[u32],
    extended: &ExtendedRows,
) -> Result<Cells, AnswerFault>
    requires { All (λ i. i < length extended.now.rows.now) numbers.now }
    ensures width { IfOk result (λ cells. cells.width ≡ length items.now) }
    ensures rows { Gives rows_in result (items_at (formulas_seen items.now) numbers.now
        (extended_rows extended.now)) }
{
    let plain = places_of(alloc, items)?;
    let Some(places) = plain else {
        return evaluated_at(alloc, items, numbers, extended);
    };
    let cells = plain_at(alloc, &places, numbers, extended)?;
    Ok(cells)
}

/// The items of the rows that are asked for, of those of some numbers, whatever order these tell: nothing is sorted, and no key is
/// evaluated. Where the numbers are those of all rows in the order of keys, these are the items of the rows in that order. Behind each
/// row's cells stand the values of some columns. All items are evaluated on every row, asked for or not; where all are plain columns,
/// which cannot be out of range, they are read of the rows that are asked for alone.
pub fn presorted_items(
    alloc: Global,
    items: &[&Expr],
    numbers: Vec<u32>,
    asked: Asked,
    rows: &[&[Value]],
    columns: &[&[Value]],
) -> Result<Cells, AnswerFault>
    requires { All (λ i. i < length rows.now) numbers.items }
    ensures width { IfOk result (λ cells. cells.width ≡ length items.now) }
    ensures items { Gives rows_in result (items_at (formulas_seen items.now) (cut asked.offset asked.limit numbers.items)
        (beside (rows_seen rows.now) (rows_seen columns.now))) }
    ensures rows { (keys : List Formula) (order : List SortKey)
        → numbers_of keys order (beside (rows_seen rows.now) (rows_seen columns.now)) ≡ Ok numbers.items
        → Gives rows_in result (ordered_of (formulas_seen items.now) keys order asked.offset asked.limit
        (beside (rows_seen rows.now) (rows_seen columns.now))) }
{
    let taken = cut_numbers(alloc, numbers, asked)?;
    let null = Value::Null;
    let extended = ExtendedRows {
        rows,
        columns,
        null: &null,
    };
    items_at(alloc, items, &taken, &extended)
}
