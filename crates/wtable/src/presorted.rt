//! Orders of the kept rows that orders of all rows of the table give.
ghost use Rattle.std.specs.Prelude.{◌≡◌, ◌<◌, ℕ, [], All, IfNone, IfOk, IfSome, List, None, Ok, Option, length, map, reverse};
ghost use Rattle.std.specs.Prelude.{option_map, slice_index_or};
ghost use Rattle.std.specs.List.{list_any, remove};
ghost use Rattle.std.specs.Option.{is_some};
ghost use Rattle.wplan.specs.Formula.{Formula};
ghost use Rattle.wplan.specs.Plans.{KeyPlan, window_plan};
ghost use Rattle.wrows.specs.Columns.{Row};
ghost use Rattle.wrows.specs.Laid.{rows_seen};
ghost use Rattle.wcalls.specs.PresortedRows.{IsPresorted};
ghost use Rattle.wtable.specs.TableOrders.{AreTableOrders, ArePresorted, ArePresortedOf, IsNumbered};
ghost use Rattle.wtable.specs.TableOrders.{IsTableOrder, IsPresortedOf, presorted_numbers, presorts, told_of, told_presorted};

use crate::numbered_rows::{NumberedRows, presorted_numbers};
use crate::orders::{TableOrder, TableOrders};
use std::alloc::{AllocError, Global};
use wcalls::{Presorted, share_order};
use wplan::ResolvedWindow;
use wruns::RowRef;

/// The numbers of the kept rows in the order of a window.
#[derive(Drop)]
pub struct PresortedOrder<'a> {
    /// The window, whose order other windows may share.
    pub window: &'a ResolvedWindow,
    /// Each number of a kept row once, in the order of the window, and whether it is known that no two rows share its keys.
    pub presorted: Presorted,
}

/// The numbers of the kept rows in the orders that a SELECT asks for, as far as they are presorted.
#[derive(Drop)]
pub struct PresortedOrders<'a> {
    /// The orders of windows that are presorted.
    pub windows: Vec<PresortedOrder<'a>>,
    /// The numbers in the order of ORDER BY, if it is presorted.
    pub keys: Option<Vec<u32>>,
}

impl<'a> PresortedOrders<'a> {
    /// None is presorted.
    pub fn none(alloc: Global) -> PresortedOrders<'a>
        ensures windows { result.windows.items ≡ [] }
        ensures keys { result.keys ≡ None }
    {
        PresortedOrders {
            windows: Vec::new(alloc),
            keys: None,
        }
    }
}

// The numbers of the kept rows in the order of a window that is an order of all rows.
fn presorted_window<'a>(
    alloc: Global,
    order: TableOrder<'a>,
    kept: &NumberedRows,
) -> Result<PresortedOrder<'a>, AllocError>
    ensures order { (condition : Option Formula) (segments : List (List Row)) → IsNumbered condition segments kept.now
        → IsTableOrder segments order.entry → IfOk result (IsPresortedOf (rows_seen kept.now.rows.items)) }
    ensures told { IfOk result (λ presorted. told_presorted presorted ≡ told_of kept.now order.entry) }
{
    let numbers = presorted_numbers(alloc, &order.rows, kept)?;
    Ok(PresortedOrder {
        window: order.window,
        presorted: Presorted {
            numbers,
            unique_keys: order.unique_keys,
        },
    })
}

// The numbers of the kept rows in the orders of windows that are orders of all rows, the last of these first. They are let go one
// after another.
fn presorted_windows<'a>(
    alloc: Global,
    orders: Vec<TableOrder<'a>>,
    kept: &NumberedRows,
) -> Result<Vec<PresortedOrder<'a>>, AllocError>
    ensures orders { (condition : Option Formula) (segments : List (List Row)) → IsNumbered condition segments kept.now
        → All (IsTableOrder segments) orders.entry.items
        → IfOk result (λ presorted. ArePresortedOf (rows_seen kept.now.rows.items) presorted.items) }
    ensures told { IfOk result (λ presorted. map told_presorted presorted.items
        ≡ reverse (map (told_of kept.now) orders.entry.items)) }
{
    let mut left = orders;
    let mut presorted = Vec::with_capacity(alloc, left.len())?;
    'left: while let Some(order) = left.pop() {
        presorted.push(presorted_window(alloc, order, kept)?)?;
    }
    Ok(presorted)
}

// The numbers of the kept rows in an order, if there is one of all rows.
fn presorted_keys(
    alloc: Global,
    order: &Option<Vec<RowRef>>,
    kept: &NumberedRows,
) -> Result<Option<Vec<u32>>, AllocError>
    ensures { IfOk result (λ found. option_map (λ numbers. numbers.items) found
        ≡ option_map (λ rows. presorted_numbers kept.now rows.items) order.now) }
{
    match order {
        None => Ok(None),
        Some(rows) => {
            let numbers = presorted_numbers(alloc, rows, kept)?;
            Ok(Some(numbers))
        }
    }
}

/// The numbers of the kept rows in each of some orders of all rows, which are let go one after another: those of windows with the last
/// of them first. The one error is that memory was refused.
pub fn presorted_orders<'a>(
    alloc: Global,
    orders: TableOrders<'a>,
    kept: &NumberedRows,
) -> Result<PresortedOrders<'a>, AllocError>
    ensures orders { (condition : Option Formula) (segments : List (List Row)) (keys : List KeyPlan)
        → IsNumbered condition segments kept.now → AreTableOrders segments keys orders.entry
        → IfOk result (ArePresorted (rows_seen kept.now.rows.items) keys) }
    ensures windows { IfOk result (λ t. length t.windows.items ≡ length orders.entry.windows.items) }
    ensures told { IfOk result (λ t. map told_presorted t.windows.items
        ≡ reverse (map (told_of kept.now) orders.entry.windows.items)) }
    ensures keys { IfOk result (λ t. option_map (λ numbers. numbers.items) t.keys
        ≡ option_map (λ rows. presorted_numbers kept.now rows.items) orders.entry.keys) }
{
    let TableOrders { windows, keys } = orders;
    let windows = presorted_windows(alloc, windows, kept)?;
    let keys = presorted_keys(alloc, &keys, kept)?;
    Ok(PresortedOrders { windows, keys })
}

// The place of an order that is also that of a window.
#[tactic(auto, using(crate::proofs::DifferFacts::presorted_for))]
fn place_presorted(presorted: &[PresortedOrder], window: &ResolvedWindow) -> Option<usize>
    ensures found { is_some result ≡ list_any (presorts window.now) presorted.now }
    ensures place { IfSome result (λ place. place < length presorted.now) }
    ensures order { (rows : List Row) → ArePresortedOf rows presorted.now → IfSome result (λ place. (d : PresortedOrder)
        → IsPresorted rows (window_plan window.now) (slice_index_or presorted.now place d).presorted) }
{
    for (place, order) in presorted.iter().enumerate() {
        if share_order(order.window, window) {
            return Some(place);
        }
    }
    None
}

/// Takes out the numbers of the rows in the order of a window, if it is presorted: in its own order, or in that of a window of the
/// same partition values and keys. What is known of the keys of the one holds of the other. The orders of other windows stay.
pub fn take_presorted(
    presorted: &mut Vec<PresortedOrder>,
    window: &ResolvedWindow,
) -> Option<Presorted>
    ensures found { is_some result ≡ list_any (presorts window.now) presorted.old.items }
    ensures order { (rows : List Row) → ArePresortedOf rows presorted.old.items
        → IfSome result (IsPresorted rows (window_plan window.now)) }
    ensures others { (rows : List Row) → ArePresortedOf rows presorted.old.items → ArePresortedOf rows presorted.new.items }
    ensures none { IfNone result (presorted.new ≡ presorted.old) }
    ensures one { IfSome result (λ _. (place : ℕ) × (place < length presorted.old.items)
        × (presorted.new.items ≡ remove presorted.old.items place)) }
{
    let Some(place) = place_presorted(presorted.as_slice(), window) else {
        return None;
    };
    let PresortedOrder {
        presorted: taken,
        ..
    } = presorted.remove(place);
    Some(taken)
}
