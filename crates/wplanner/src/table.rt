//! The table of an answer.
ghost use Rattle.std.specs.Prelude.{◌≡◌, ◌<◌, [], IfOk, length, map, slice_index_or, vec_len};
ghost use Rattle.std.specs.Rc.{rc_str_bytes};
ghost use Rattle.wvalues.specs.Meaning.{meaning};
ghost use Rattle.wframe.specs.Places.{places};
ghost use Rattle.wprinted.specs.Printing.{values_at};
ghost use Rattle.wrows.specs.Laid.{rows_in};
ghost use Rattle.wplanner.specs.Parts.{value_at};

use crate::work::Work;
use std::alloc::{AllocError, Global};
use std::marker::Model;
use std::rc::RcStr;
use wrows::{Cells, slice_of};
use wvalues::Value;

/// Output names, and rows with a value under each name. Rows and columns are counted from 0.
#[derive(Debug, Drop)]
pub struct Table {
    names: Vec<RcStr>,
    // One row after another.
    cells: Vec<Value>,
    rows: usize,
    joins: u64,
    orders: u64,
}

impl Model for Table {
    ghost use Rattle.wplanner.specs.Parts.{TableParts};

    ghost Value = { TableParts };

    ghost use Rattle.wplanner.specs.Kept.{IsKept, parts_of};

    ghost view = { parts_of };

    ghost invariant = { IsKept };
}

// The places of so many columns, from 0 on.
fn column_places(alloc: Global, width: usize) -> Result<Vec<usize>, AllocError>
    ensures { IfOk result (λ columns. columns.items ≡ places width) }
{
    let mut columns = Vec::with_capacity(alloc, width)?;
    for column in 0..width {
        columns.push(column)?;
    }
    Ok(columns)
}

impl Table {
    /// A table of rows with a value under each name.
    pub(crate) fn new(names: Vec<RcStr>, rows: Cells, work: &Work) -> Table
        requires { rows.width ≡ vec_len names }
        ensures { result ≡ record { names = map rc_str_bytes names.items; rows = rows_in rows } }
    {
        Table {
            names,
            cells: rows.cells,
            rows: rows.count,
            joins: work.joins.count(),
            orders: work.orders.count(),
        }
    }

    /// How many joins the folds of frames took, of derived tables too. No clause says of how many; it is for tests.
    pub fn joins(&self) -> u64 {
        self.joins
    }

    /// How many orders of rows were made, of derived tables too: one for all windows of the same partition values and keys,
    /// and one for each ORDER BY. No clause says of how many; it is for tests.
    pub fn orders(&self) -> u64 {
        self.orders
    }

    /// How many rows it has.
    pub fn rows(&self) -> usize
        ensures { result ≡ length self.now.rows }
    {
        self.rows
    }

    /// The output names.
    pub fn names(&self) -> &[RcStr]
        ensures { map rc_str_bytes result.now ≡ self.now.names }
    {
        self.names.as_slice()
    }

    /// The numbers of its columns.
    pub(crate) fn places(&self, alloc: Global) -> Result<Vec<usize>, AllocError>
        ensures { IfOk result (λ places. map (values_at places.items) self.now.rows ≡ self.now.rows) }
    {
        let places = column_places(alloc, self.names.len())?;
        Ok(places)
    }

    /// The values of a row.
    pub fn row(&self, row: usize) -> &[Value]
        requires { row < length self.now.rows }
        ensures values { map meaning result.now ≡ slice_index_or self.now.rows row [] }
        ensures whole { length result.now ≡ length self.now.names }
    {
        let width = self.names.len();
        slice_of(&self.cells, width, row)
    }

    /// The value of a row and a column.
    pub fn value(&self, row: usize, col: usize) -> &Value
        requires row { row < length self.now.rows }
        requires col { col < length self.now.names }
        ensures { meaning result.now ≡ value_at self.now.rows row col }
    {
        &self.row(row)[col]
    }
}
