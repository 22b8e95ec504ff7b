//! What rows are ordered by.
ghost use Rattle.std.specs.Prelude.{◌≡◌, ◌*◌, ◌+◌, ◌==◌, ◌≤◌, ◌<◌, ◌^◌, ℕ, true, false, All, IfOk, IfSome, length, map, slice_index_or};
ghost use Rattle.std.specs.Prelude.{not};
ghost use Rattle.std.specs.List.{flat_map};
ghost use Rattle.std.specs.Option.{is_some};
ghost use Rattle.std.specs.Ordering.{on, nat_cmp};
ghost use Rattle.wvalues.specs.Order.{keys_cmp};
ghost use Rattle.wframe.specs.KeyRows.{key_lists, sort_keys};
ghost use Rattle.wframe.specs.Peers.{key_at};
ghost use Rattle.wframe.specs.Sorting.{sorted};
ghost use Rattle.wrows.specs.CodedRows.{AreRowCodes, code_at, key_column, leads_with_text};
ghost use Rattle.wrows.specs.Laid.{rows_in, rows_seen};
ghost use Rattle.wrows.specs.Plain.{numbers_by};
ghost use Rattle.wcalls.specs.Listed.{lists_in, width_of};
ghost use Rattle.wcalls.specs.ListedColumns.{values_at};

use crate::plain_lists::PlainLists;
use crate::row_lists::RowLists;
use std::alloc::{AllocError, Global};
use wcodes::{column_codes, number_codes};
use wframe::KeyRows;
use wrows::{Cells, numbers, resorted_numbers};
use wsort::sort_by_codes;
use wvalues::SortKey;

/// The most rows that have a code of 32 bits.
const MOST_CODED: usize = 1 << 32;

/// Rows by their keys: a list of values for each row, and how each value of a list is ordered.
#[derive(Drop)]
pub(crate) struct RowKeys<'a> {
    pub(crate) lists: RowLists<'a>,
    pub(crate) orders: Vec<SortKey>,
    ghost wide: { width_of lists ≡ length orders.items },
}

// The numbers of rows by codes, and then as they stood.
fn by_codes(alloc: Global, codes: &[u32], rows: Vec<u32>) -> Result<Vec<u32>, AllocError>
    requires { All (λ i. i < length codes.now) rows.items }
    ensures { IfOk result (λ order. order.items ≡ sorted (on (code_at codes.now) nat_cmp) rows.items) }
{
    let mut order = rows;
    sort_by_codes(alloc, codes, &mut order)?;
    Ok(order)
}

// The numbers of rows by keys that are laid out one row after another, and then as they stood.
fn laid_order(
    alloc: Global,
    cells: &Cells,
    orders: &[SortKey],
    rows: Vec<u32>,
) -> Result<Vec<u32>, AllocError>
    requires wide { cells.now.width ≡ length orders.now }
    requires below { All (λ i. i < cells.now.count) rows.items }
    ensures { IfOk result (λ order. order.items ≡ sorted (on (key_at (rows_in cells.now)) (keys_cmp orders.now)) rows.items) }
{
    let order = resorted_numbers(alloc, &cells.cells, orders, cells.count, rows)?;
    Ok(order)
}

// The numbers of rows by keys that are plain columns, and then as they stood. These are copied while the rows are sorted.
fn copied_order(
    alloc: Global,
    columns: &PlainLists,
    orders: &[SortKey],
    rows: Vec<u32>,
) -> Result<Vec<u32>, AllocError>
    requires wide { length columns.now.places.items ≡ length orders.now }
    requires below { All (λ i. i < length columns.now.rows.now) rows.items }
    ensures { IfOk result (λ order. order.items
        ≡ sorted (on (key_at (values_at columns.now.places.items (rows_seen columns.now.rows.now))) (keys_cmp orders.now)) rows.items) }
{
    let cells = columns.copied(alloc)?;
    let order = resorted_numbers(alloc, &cells, orders, columns.rows.len(), rows)?;
    Ok(order)
}

impl<'a> RowKeys<'a> {
    // Whether the rows have one key, and are so few that each has a code.
    fn has_one_key(&self) -> bool
        ensures one { result ≡ true → length self.now.orders.items ≡ 1 }
        ensures few { result ≡ true → length (lists_in self.now.lists) ≤ 2 ^ 32 }
        ensures found { length self.now.orders.items ≡ 1 → length (lists_in self.now.lists) ≤ 2 ^ 32 → result ≡ true }
    {
        self.orders.len() == 1 && self.lists.count() <= MOST_CODED
    }

    /// Codes for rows of one key, which stand as it orders the rows, so that rows with one code have the same key. There are
    /// none for rows of several keys or of no key, nor for more than 2^32 rows.
    pub(crate) fn codes(&self, alloc: Global) -> Result<Option<Vec<u32>>, AllocError>
        ensures codes { IfOk result (λ found. IfSome found (λ codes. AreRowCodes self.now.orders.items
            (lists_in self.now.lists) codes.items)) }
        ensures found { length self.now.orders.items ≡ 1 → length (lists_in self.now.lists) ≤ 2 ^ 32
            → IfOk result (λ found. is_some found ≡ true) }
    {
        if !self.has_one_key() {
            return Ok(None);
        }
        let column = self.lists.column(alloc, 0)?;
        let codes = column_codes(alloc, &column, &self.orders[0])?;
        Ok(Some(codes))
    }

    /// Codes for rows of one key, as [`RowKeys::codes`] gives them, and none where the first value that is not null is a text: texts
    /// would have to be sorted, so they are compared by themselves.
    pub(crate) fn number_codes(&self, alloc: Global) -> Result<Option<Vec<u32>>, AllocError>
        ensures codes { IfOk result (λ found. IfSome found (λ codes. AreRowCodes self.now.orders.items
            (lists_in self.now.lists) codes.items)) }
        ensures found { length self.now.orders.items ≡ 1 → length (lists_in self.now.lists) ≤ 2 ^ 32
            → IfOk result (λ found. is_some found ≡ not (leads_with_text (key_column 0 (lists_in self.now.lists)))) }
    {
        if !self.has_one_key() {
            return Ok(None);
        }
        let column = self.lists.column(alloc, 0)?;
        let found = number_codes(alloc, &column, &self.orders[0])?;
        Ok(found)
    }

    // The numbers of rows by their keys, and then as they stood.
    fn by_values(&self, alloc: Global, rows: Vec<u32>) -> Result<Vec<u32>, AllocError>
        requires { All (λ i. i < length (lists_in self.now.lists)) rows.items }
        ensures { IfOk result (λ order. order.items
            ≡ sorted (on (key_at (lists_in self.now.lists)) (keys_cmp self.now.orders.items)) rows.items) }
    {
        match &self.lists {
            RowLists::Evaluated(cells) => laid_order(alloc, cells, &self.orders, rows),
            RowLists::Plain(columns) => copied_order(alloc, columns, &self.orders, rows),
        }
    }

    // The numbers of rows by their keys, and then as they stood: by the codes of the rows, where they have some.
    fn stable_order(
        &self,
        alloc: Global,
        codes: &Option<Vec<u32>>,
        rows: Vec<u32>,
    ) -> Result<Vec<u32>, AllocError>
        requires codes { IfSome codes.now (λ codes. AreRowCodes self.now.orders.items (lists_in self.now.lists) codes.items) }
        requires below { All (λ i. i < length (lists_in self.now.lists)) rows.items }
        ensures { IfOk result (λ order. order.items
            ≡ sorted (on (key_at (lists_in self.now.lists)) (keys_cmp self.now.orders.items)) rows.items) }
    {
        match codes {
            Some(codes) => by_codes(alloc, codes, rows),
            None => self.by_values(alloc, rows),
        }
    }

    /// The numbers of rows in the order of their keys, and then as they stood. The codes, if there are any, are those that
    /// [`RowKeys::codes`] gives.
    pub(crate) fn resorted(
        &self,
        alloc: Global,
        codes: &Option<Vec<u32>>,
        rows: Vec<u32>,
    ) -> Result<Vec<u32>, AllocError>
        requires codes { IfSome codes.now (λ codes. AreRowCodes self.now.orders.items (lists_in self.now.lists) codes.items) }
        requires below { All (λ i. i < length (lists_in self.now.lists)) rows.items }
        ensures order { IfOk result (λ order. order.items
            ≡ sorted (on (key_at (lists_in self.now.lists)) (keys_cmp self.now.orders.items)) rows.items) }
        ensures below { IfOk result (λ order. All (λ i. i < length (lists_in self.now.lists)) order.items) }
        ensures len { IfOk result (λ order. length order.items ≡ length rows.items) }
    {
        let order = self.stable_order(alloc, codes, rows)?;
        Ok(order)
    }

    /// The numbers of all rows in the order of their keys, and then by number. The codes, if there are any, are those that
    /// [`RowKeys::codes`] gives.
    pub(crate) fn numbers(
        &self,
        alloc: Global,
        codes: &Option<Vec<u32>>,
    ) -> Result<Vec<u32>, AllocError>
        requires { IfSome codes.now (λ codes. AreRowCodes self.now.orders.items (lists_in self.now.lists) codes.items) }
        ensures order { IfOk result (λ rows. rows.items ≡ numbers_by self.now.orders.items (lists_in self.now.lists)
            (length (lists_in self.now.lists))) }
        ensures below { IfOk result (λ rows. All (λ i. i < length (lists_in self.now.lists)) rows.items) }
        ensures len { IfOk result (λ rows. length rows.items ≡ length (lists_in self.now.lists)) }
    {
        let rows = numbers(alloc, self.lists.count())?;
        let order = self.resorted(alloc, codes, rows)?;
        Ok(order)
    }

    /// The rows of these numbers, in their order, by their keys. Their lists are read where they lie.
    pub(crate) fn key_rows<'b>(&'b self, numbers: &'b [u32]) -> KeyRows<'b>
        requires { All (λ i. i < length (lists_in self.now.lists)) numbers.now }
        ensures lists { key_lists result ≡ map (key_at (lists_in self.now.lists)) numbers.now }
        ensures keys { sort_keys result ≡ self.now.orders.items }
    {
        match &self.lists {
            RowLists::Evaluated(cells) => KeyRows::picked(&cells.cells, numbers, &self.orders),
            RowLists::Plain(columns) => columns.key_rows(numbers, &self.orders),
        }
    }
}
