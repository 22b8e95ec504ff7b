//! An order of a set's rows that is kept.
ghost use Rattle.std.specs.Prelude.{◌≡◌, ◌<◌, true, IfOk, IfSome, map};
ghost use Rattle.wset.specs.KeptOrders.{unpacked};

use std::alloc::{AllocError, Global};
use wruns::RowRef;
use wvalues::SortKey;

/// The rows of all live segments by some keys, 4 bytes each: the number of a row's segment, times a width that is greater than
/// each place, and the place.
#[derive(Drop)]
pub(crate) struct KeptOrder {
    pub(crate) keys: Vec<SortKey>,
    pub(crate) width: u32,
    pub(crate) rows: Vec<u32>,
}

// A row as one number, where it has one.
fn packed_row(row: &RowRef, width: u32) -> Option<u32>
    ensures { IfSome result (λ number. unpacked width number ≡ row.now) }
{
    if row.row >= width {
        return None;
    }
    let first = row.segment.checked_mul(width)?;
    let number = first.checked_add(row.row)?;
    Some(number)
}

// Rows as one number each, where all have one.
fn packed(alloc: Global, rows: &[RowRef], width: u32) -> Result<Option<Vec<u32>>, AllocError>
    ensures { IfOk result (λ found. IfSome found (λ numbers. map (unpacked width) numbers.items ≡ rows.now)) }
{
    let mut numbers = Vec::with_capacity(alloc, rows.len())?;
    for row in rows {
        let Some(number) = packed_row(row, width) else {
            return Ok(None);
        };
        numbers.push(number)?;
    }
    Ok(Some(numbers))
}

// The row of a number.
fn unpacked_row(number: u32, width: u32) -> RowRef
    requires { 0 < width }
    ensures { result ≡ unpacked width number }
{
    RowRef {
        segment: number / width,
        row: number % width,
    }
}

/// Whether an order is by these keys.
pub(crate) fn is_by(order: &KeptOrder, keys: &[SortKey]) -> bool
    ensures { result ≡ true → order.now.keys.items ≡ keys.now }
{
    order.keys.as_slice() == keys
}

/// The rows of an order.
pub(crate) fn unpacked(alloc: Global, order: &KeptOrder) -> Result<Vec<RowRef>, AllocError>
    requires { 0 < order.now.width }
    ensures { IfOk result (λ refs. refs.items ≡ map (unpacked order.now.width) order.now.rows.items) }
{
    let mut refs = Vec::with_capacity(alloc, order.rows.len())?;
    for number in &order.rows {
        refs.push(unpacked_row(*number, order.width))?;
    }
    Ok(refs)
}

// A width that is greater than the place of each row, if one is.
fn width_of(rows: &[RowRef]) -> u32
    ensures { 0 < result }
{
    let mut most = 0;
    for row in rows {
        most = row.row.max(most);
    }
    most.saturating_add(1)
}

/// Rows in the order of keys, to be kept, where each has a number.
pub(crate) fn order_kept(
    alloc: Global,
    keys: &[SortKey],
    rows: &[RowRef],
) -> Result<Option<KeptOrder>, AllocError>
    ensures keys { IfOk result (λ found. IfSome found (λ order. order.keys.items ≡ keys.now)) }
    ensures width { IfOk result (λ found. IfSome found (λ order. 0 < order.width)) }
    ensures rows { IfOk result (λ found. IfSome found (λ order. map (unpacked order.width) order.rows.items ≡ rows.now)) }
{
    let width = width_of(rows);
    let Some(rows) = packed(alloc, rows, width)? else {
        return Ok(None);
    };
    let keys = Vec::from_slice(alloc, keys)?;
    Ok(Some(KeptOrder { keys, width, rows }))
}
