//! The values of several expressions on rows: those of plain columns are read where they lie.
ghost use Rattle.std.specs.Prelude.{◌≡◌, ◌<◌, false, IfOk, IfSome, length, map};
ghost use Rattle.std.specs.List.{list_all};
ghost use Rattle.std.specs.Option.{is_some};
ghost use Rattle.wplan.specs.Formula.{At};
ghost use Rattle.wrows.specs.CodedRows.{key_column, values_seen};
ghost use Rattle.wrows.specs.Columns.{lists_of};
ghost use Rattle.wrows.specs.Laid.{formulas_seen, rows_in, rows_seen};
ghost use Rattle.wrows.specs.Outcomes.{Gives};
ghost use Rattle.wrows.specs.PlainColumns.{is_plain};
ghost use Rattle.wcalls.specs.Listed.{are_lent, lists_in, width_of};

use crate::plain_lists::PlainLists;
use std::alloc::{AllocError, Global};
use wplan::Expr;
use wrows::{AnswerFault, Cells, lists, places_of, slice_of};
use wvalues::Value;

/// The values of several expressions on rows: a list for each row, by number.
#[derive(Drop)]
pub(crate) enum RowLists<'a> {
    /// What they were evaluated to on each row.
    Evaluated(Cells),
    /// Plain columns, which are not copied.
    Plain(PlainLists<'a>),
}

// The values of expressions, evaluated on every row.
fn evaluated<'a>(
    alloc: Global,
    exprs: &[&Expr],
    rows: &[&[Value]],
) -> Result<RowLists<'a>, AnswerFault>
    ensures gives { Gives lists_in result (lists_of (formulas_seen exprs.now) (rows_seen rows.now)) }
    ensures width { IfOk result (λ lists. width_of lists ≡ length exprs.now) }
    ensures lent { IfOk result (λ lists. are_lent lists ≡ false) }
{
    let cells = lists(alloc, exprs, rows)?;
    Ok(RowLists::Evaluated(Cells {
        cells,
        width: exprs.len(),
        count: rows.len(),
    }))
}

/// The values of expressions on rows. Where all are plain columns, they are lent from the rows; else all are evaluated on
/// every row, and `OutOfRange` where one is so on any.
pub(crate) fn row_lists<'a>(
    alloc: Global,
    exprs: &[&Expr],
    rows: &'a [&'a [Value]],
) -> Result<RowLists<'a>, AnswerFault>
    ensures gives { Gives lists_in result (lists_of (formulas_seen exprs.now) (rows_seen rows.now)) }
    ensures width { IfOk result (λ lists. width_of lists ≡ length exprs.now) }
    ensures lent { IfOk result (λ lists. are_lent lists ≡ list_all is_plain exprs.now) }
{
    let plain = places_of(alloc, exprs)?;
    match plain {
        Some(places) => Ok(RowLists::Plain(PlainLists::new(rows, places))),
        None => evaluated(alloc, exprs, rows),
    }
}

// The values of a number of rows that are laid out one after another, lent.
fn laid_column(alloc: Global, cells: &Cells, number: usize) -> Result<Vec<&Value>, AllocError>
    requires { number < cells.now.width }
    ensures { IfOk result (λ column. values_seen column.items ≡ key_column number (rows_in cells.now)) }
{
    let mut column = Vec::with_capacity(alloc, cells.count)?;
    for row in 0..cells.count {
        column.push(&slice_of(&cells.cells, cells.width, row)[number])?;
    }
    Ok(column)
}

impl<'a> RowLists<'a> {
    /// How many rows there are.
    pub(crate) fn count(&self) -> usize
        ensures { result ≡ length (lists_in self.now) }
    {
        match self {
            RowLists::Evaluated(cells) => cells.count,
            RowLists::Plain(columns) => columns.rows.len(),
        }
    }

    /// The values of a number of each row, lent.
    pub(crate) fn column<'b>(
        &'b self,
        alloc: Global,
        number: usize,
    ) -> Result<Vec<&'b Value>, AllocError>
        requires { number < width_of self.now }
        ensures { IfOk result (λ column. values_seen column.items ≡ key_column number (lists_in self.now)) }
    {
        match self {
            RowLists::Evaluated(cells) => laid_column(alloc, cells, number),
            RowLists::Plain(columns) => columns.column(alloc, number),
        }
    }
}
