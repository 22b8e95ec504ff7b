//! Plain columns of rows, read where they lie.
ghost use Rattle.std.specs.Prelude.{◌≡◌, ◌*◌, ◌<◌, ◌++◌, All, IfOk, OnOk, length, map};
ghost use Rattle.wvalues.specs.Meaning.{Null, meaning};
ghost use Rattle.wframe.specs.KeyRows.{key_lists, sort_keys};
ghost use Rattle.wframe.specs.Peers.{key_at};
ghost use Rattle.wrows.specs.CodedRows.{key_column, values_seen};
ghost use Rattle.wrows.specs.Columns.{value_at};
ghost use Rattle.wrows.specs.LaidRows.{laid};
ghost use Rattle.wrows.specs.Laid.{rows_seen};
ghost use Rattle.wcalls.specs.ListedColumns.{values_at};

use std::alloc::{AllocError, Global};
use wcolumns::value_or_null;
use wframe::KeyRows;
use wvalues::{SortKey, Value};

/// The values at some places of rows. A row has nulls behind its width.
#[derive(Drop)]
pub(crate) struct PlainLists<'a> {
    pub(crate) rows: &'a [&'a [Value]],
    pub(crate) places: Vec<usize>,
    // What is lent where a row has no such place.
    null: Value,
    ghost is_null: { meaning null ≡ Null },
}

impl<'a> PlainLists<'a> {
    /// The values at these places of the rows.
    pub(crate) fn new(rows: &'a [&'a [Value]], places: Vec<usize>) -> PlainLists<'a>
        ensures rows { result.rows ≡ rows.entry }
        ensures places { result.places ≡ places }
    {
        PlainLists {
            rows,
            places,
            null: Value::Null,
        }
    }

    /// The rows of these numbers, in their order, by keys.
    pub(crate) fn key_rows<'b>(&'b self, numbers: &'b [u32], orders: &'b [SortKey]) -> KeyRows<'b>
        requires width { length self.now.places.items ≡ length orders.now }
        requires below { All (λ i. i < length self.now.rows.now) numbers.now }
        ensures lists { key_lists result ≡ map (key_at (values_at self.now.places.items (rows_seen self.now.rows.now))) numbers.now }
        ensures keys { sort_keys result ≡ orders.now }
    {
        KeyRows::placed(self.rows, &self.places, &self.null, numbers, orders)
    }

    /// The column of a number, lent.
    pub(crate) fn column<'b>(
        &'b self,
        alloc: Global,
        number: usize,
    ) -> Result<Vec<&'b Value>, AllocError>
        requires { number < length self.now.places.items }
        ensures { IfOk result (λ column. values_seen column.items
            ≡ key_column number (values_at self.now.places.items (rows_seen self.now.rows.now))) }
    {
        let place = self.places[number];
        let mut column = Vec::with_capacity(alloc, self.rows.len())?;
        for row in self.rows {
            column.push(value_or_null(row, &self.null, place))?;
        }
        Ok(column)
    }

    // Appends copies of the values of a row that has these cells.
    fn push_copies(&self, row: &[Value], cells: &mut Vec<Value>) -> Result<(), AllocError>
        ensures { OnOk result (map meaning cells.new.items ≡ map meaning cells.old.items ++ map
            (value_at (map meaning row.now)) self.now.places.items) }
    {
        for place in &self.places {
            cells.push(value_or_null(row, &self.null, *place).duplicate()?)?;
        }
        Ok(())
    }

    /// Copies of the values, laid out one row after another.
    pub(crate) fn copied(&self, alloc: Global) -> Result<Vec<Value>, AllocError>
        ensures rows { IfOk result (λ cells. laid (length self.now.places.items) (length self.now.rows.now) cells.items
            ≡ values_at self.now.places.items (rows_seen self.now.rows.now)) }
        ensures laid { IfOk result (λ cells. length cells.items ≡ length self.now.rows.now * length self.now.places.items) }
    {
        let count = self.rows.len().saturating_mul(self.places.len());
        let mut cells = Vec::with_capacity(alloc, count)?;
        for row in self.rows {
            self.push_copies(row, &mut cells)?;
        }
        Ok(cells)
    }
}
