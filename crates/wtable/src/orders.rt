//! Orders of the table's rows by columns, from the runs that its segments keep.
ghost use Rattle.std.specs.Prelude.{◌≡◌, ◌<◌, ◌≤◌, ◌+◌, ◌==◌, ◌&&◌, ◌||◌, true, false, if◌then◌else◌, ◌≢◌, [], All, None};
ghost use Rattle.std.specs.Prelude.{IfNone, IfOk, IfSome, List, Ok, OnOk};
ghost use Rattle.std.specs.Prelude.{length, map, nat_le, not};
ghost use Rattle.std.specs.List.{list_any};
ghost use Rattle.std.specs.Option.{is_some};
ghost use Rattle.wvalues.specs.Meaning.{Meaning};
ghost use Rattle.wplan.specs.Formula.{At, formula};
ghost use Rattle.wplan.specs.Plans.{key_plan, select_plan, window_plan};
ghost use Rattle.wrows.specs.Columns.{Row};
ghost use Rattle.wrows.specs.Sorting.{ascending};
ghost use Rattle.wruns.specs.Differing.{AllDiffer};
ghost use Rattle.wruns.specs.Refs.{refs_by};
ghost use Rattle.wruns.specs.Runs.{joined};
ghost use Rattle.wset.specs.Running.{live_rows};
ghost use Rattle.wset.specs.Sets.{Becomes};
ghost use Rattle.wtable.specs.TableOrders.{AreColumns, AreTableOrders, AreWindowKeys, IsOrderFor, IsTableOrder, by_keys};
ghost use Rattle.wtable.specs.TableOrders.{IsColumnKey, IsColumnValue, IsColumnWindow, IsServed, direction, is_within, shares};
ghost use Rattle.wplan.specs.declared.expr.Expr.{out-Expr};
ghost use Rattle.wrows.specs.PlainColumns.{plain_place};
ghost use Rattle.wtable.specs.Few.{asks_for_order, asks_for_orders as are_orders_asked};

use std::alloc::{AllocError, Global};
use wcalls::share_order;
use wplan::{Expr, ResolvedKey, ResolvedWindow, Selection};
use wrows::{Asked, place_of};
use wruns::{RowRef, kept_rows_differ, kept_rows_stay_in_order, runs_order_windows};
use wsegment::Kind;
use wset::SegmentSet;
use wvalues::SortKey;

/// The most orders that a SELECT takes from runs: of a segment no more runs are kept, and one more order would push out one
/// that the next query asks for.
const MOST_ORDERS: usize = 4;

/// The order of partition values.
const ASCENDING: SortKey = SortKey {
    col: 0,
    desc: false,
    nulls_first: false,
};

/// The rows of the table in the order of a window.
#[derive(Drop)]
pub struct TableOrder<'a> {
    /// The window, whose partition values and keys are columns of the table.
    pub window: &'a ResolvedWindow,
    /// All rows of the table: partition after partition, by its keys, and where these agree by name and place.
    pub rows: Vec<RowRef>,
    /// Whether it is known that no two rows of the table share all keys of the window. It is asked only of a window without
    /// partition values, whose keys are more than one column of numbers.
    pub unique_keys: bool,
}

/// The rows of the table in orders that a SELECT asks for.
#[derive(Drop)]
pub struct TableOrders<'a> {
    /// The orders of some of its windows, each of which other windows may share.
    pub windows: Vec<TableOrder<'a>>,
    /// All rows of the table in the order of ORDER BY, if that is one by columns.
    pub keys: Option<Vec<RowRef>>,
}

impl<'a> TableOrders<'a> {
    // No order.
    fn none(alloc: Global) -> TableOrders<'a>
        ensures windows { result.windows.items ≡ [] }
        ensures keys { result.keys ≡ None }
    {
        TableOrders {
            windows: Vec::new(alloc),
            keys: None,
        }
    }

    /// Whether there is no order.
    pub fn is_none(&self) -> bool
        ensures { result ≡ (length self.now.windows.items == 0 && not (is_some self.now.keys)) }
    {
        self.windows.is_empty() && self.keys.is_none()
    }
}

// The key that orders rows of so many columns as another one does, by a value that is one of these columns. None for
// another value.
fn column_key(value: &Expr, order: &SortKey, width: usize) -> Option<SortKey>
    ensures value { IfSome result (λ key. formula value.now ≡ At key.col) }
    ensures order { IfSome result (λ key. direction order.now ≡ direction key) }
    ensures within { IfSome result (λ key. key.col < width) }
    ensures none { IfNone result (is_within width (plain_place (out-Expr value.now)) ≢ true) }
{
    let place = place_of(value)?;
    if place < width {
        Some(SortKey {
            col: place,
            desc: order.desc,
            nulls_first: order.nulls_first,
        })
    } else {
        None
    }
}

// Keys that order rows of so many columns by partition values, where each is one of these columns.
fn partition_columns(
    alloc: Global,
    partition: &[Expr],
    width: usize,
) -> Result<Option<Vec<SortKey>>, AllocError>
    ensures keys { IfOk result (λ found. IfSome found (λ keys. AreColumns width (map formula partition.now)
        (ascending (map formula partition.now)) keys.items)) }
    ensures none { IfOk result (λ found. IfNone found (¬ (All (IsColumnValue width) partition.now))) }
{
    let mut keys = Vec::with_capacity(alloc, partition.len())?;
    for value in partition {
        let Some(key) = column_key(value, &ASCENDING, width) else {
            return Ok(None);
        };
        keys.push(key)?;
    }
    Ok(Some(keys))
}

/// Keys that order rows of so many columns as some keys do, where the value of each is one of these columns.
pub(crate) fn key_columns(
    alloc: Global,
    asked_keys: &[ResolvedKey],
    width: usize,
) -> Result<Option<Vec<SortKey>>, AllocError>
    ensures keys { IfOk result (λ found. IfSome found
        (λ keys. AreColumns width (map (λ k. k.value) (map key_plan asked_keys.now))
        (map (λ k. k.order) (map key_plan asked_keys.now)) keys.items)) }
    ensures none { IfOk result (λ found. IfNone found (¬ (All (IsColumnKey width) asked_keys.now))) }
{
    let mut keys = Vec::with_capacity(alloc, asked_keys.len())?;
    for asked in asked_keys {
        let Some(key) = column_key(&asked.value, &asked.order, width) else {
            return Ok(None);
        };
        keys.push(key)?;
    }
    Ok(Some(keys))
}

// Keys by which rows of so many columns stand in the order of a window, where its partition values and keys are all such
// columns: first the partition values, then the keys.
fn window_columns(
    alloc: Global,
    window: &ResolvedWindow,
    width: usize,
) -> Result<Option<Vec<SortKey>>, AllocError>
    ensures keys { IfOk result (λ found. IfSome found (λ keys. AreWindowKeys (window_plan window.now) keys.items)) }
    ensures long { IfOk result (λ found. IfSome found (λ keys.
        length keys.items ≡ length window.now.partition.items + length window.now.keys.items)) }
    ensures none { IfOk result (λ found. IfNone found (¬ (IsColumnWindow width window.now))) }
{
    let partition = partition_columns(alloc, &window.partition, width)?;
    let Some(mut keys) = partition else {
        return Ok(None);
    };
    let others = key_columns(alloc, &window.keys, width)?;
    let Some(others) = others else {
        return Ok(None);
    };
    keys.extend_from_slice(&others)?;
    runs_order_windows();
    Ok(Some(keys))
}

// Whether one of some orders is also that of a window, or they are as many as are taken from runs.
fn is_served(orders: &[TableOrder], window: &ResolvedWindow) -> bool
    ensures { result ≡ (nat_le 4 (length orders.now) || list_any (shares window.now) orders.now) }
{
    if orders.len() >= MOST_ORDERS {
        return true;
    }
    for order in orders {
        if share_order(order.window, window) {
            return true;
        }
    }
    false
}

// Whether keys are one column of numbers. Codes of these are made in one pass over the rows as they lie, which takes less time than
// to compare neighbours in their order.
fn are_one_number(keys: &[SortKey], set: &SegmentSet) -> bool {
    let [key] = keys else {
        return false;
    };
    match set.schema().columns().get(key.col) {
        Some(column) => column.kind() == Kind::Integer,
        None => false,
    }
}

// Whether it is known that no two rows of the table share the keys of a window, in whose order they stand. It is asked only
// of a window without partition values, as of others the rows of one partition alone are compared, and not of one column of
// numbers.
fn keys_differ(
    window: &ResolvedWindow,
    keys: &[SortKey],
    rows: &[RowRef],
    set: &mut SegmentSet,
) -> Result<bool, AllocError>
    requires { rows.now ≡ refs_by keys.now (live_rows set.old) }
    ensures whole { IfOk result (λ differ. differ ≡ true → (window_plan window.now).partition ≡ []) }
    ensures differ { IfOk result (λ differ. differ ≡ true → AllDiffer keys.now (joined (live_rows set.old))) }
    ensures same { set.new ≡ set.old }
{
    if !window.partition.is_empty() || are_one_number(keys, set) {
        return Ok(false);
    }
    let differ = set.all_differ(keys, rows)?;
    Ok(differ)
}

// Adds the table's rows in the order of a window, where it is one by columns and there is none that the window shares, nor are
// there as many as are taken from runs. Where none is added, the set stays as it is.
fn add_order<'a>(
    alloc: Global,
    window: &'a ResolvedWindow,
    width: usize,
    set: &mut SegmentSet,
    orders: &mut Vec<TableOrder<'a>>,
) -> Result<(), AllocError>
    requires { All (IsTableOrder (live_rows set.old)) orders.old.items }
    ensures orders { OnOk result (All (IsTableOrder (live_rows set.old)) orders.new.items) }
    ensures few { length orders.old.items ≤ 4 → OnOk result (length orders.new.items ≤ 4) }
    ensures more { OnOk result (length orders.old.items ≤ length orders.new.items) }
    ensures served { OnOk result (IsServed width orders.new.items window.entry.now) }
    ensures still { (w : ResolvedWindow) → IsServed width orders.old.items w → OnOk result (IsServed width orders.new.items w) }
    ensures idle { OnOk result (length orders.new.items ≡ length orders.old.items → set.new ≡ set.old) }
    ensures same { Becomes set.old set.old.view set.new }
{
    if is_served(orders, window) {
        return Ok(());
    }
    let found = window_columns(alloc, window, width)?;
    let Some(keys) = found else {
        return Ok(());
    };
    if keys.is_empty() {
        return Ok(());
    }
    kept_rows_stay_in_order();
    kept_rows_differ();
    let rows = set.ordered(&keys)?;
    let unique_keys = keys_differ(window, &keys, &rows, set)?;
    orders.push(TableOrder {
        window,
        rows,
        unique_keys,
    })?;
    Ok(())
}

// The table's rows in the orders of windows, where these are by columns. Windows that order rows alike share one.
fn window_orders<'a>(
    alloc: Global,
    windows: &'a [ResolvedWindow],
    set: &mut SegmentSet,
) -> Result<Vec<TableOrder<'a>>, AllocError>
    ensures orders { IfOk result (λ orders. All (IsTableOrder (live_rows set.old)) orders.items) }
    ensures few { IfOk result (λ orders. length orders.items ≤ 4) }
    ensures served { IfOk result (λ orders. All (IsServed (length set.old.schema.columns) orders.items) windows.entry.now) }
    ensures idle { IfOk result (λ orders. length orders.items ≡ 0 → set.new ≡ set.old) }
    ensures same { Becomes set.old set.old.view set.new }
{
    let width = set.schema().columns().len();
    let mut orders = Vec::new(alloc);
    for window in windows {
        if let Err(refused) = add_order(alloc, window, width, set, &mut orders) {
            return Err(refused);
        }
    }
    Ok(orders)
}

/// Which rows of its ordered ones a SELECT asks for, by OFFSET and LIMIT.
pub fn asked_of(select: &Selection) -> Asked
    ensures offset { result.offset ≡ select.now.offset }
    ensures limit { result.limit ≡ select.now.limit }
{
    Asked {
        offset: select.offset,
        limit: select.limit,
    }
}

// Whether the order of ORDER BY is not taken from runs, behind so many that are: there is none, so few rows are asked for
// that they are selected, or there are as many as are taken.
fn is_left_out(select: &Selection, taken: usize) -> bool
    ensures { result ≡ (not (asks_for_order select.now) || nat_le 4 taken) }
{
    select.keys.is_empty() || asked_of(select).is_selected() || taken >= MOST_ORDERS
}

/// Whether a SELECT over the table may ask for orders of its rows: for those of windows, or for that of ORDER BY where rows are
/// not selected. Rows that are grouped are not ordered.
pub(crate) fn asks_for_orders(select: &Selection) -> bool
    ensures { result ≡ are_orders_asked select.now }
{
    if select.grouping.is_some() {
        return false;
    }
    !select.windows.is_empty() || !is_left_out(select, 0)
}

// The table's rows in the order of ORDER BY, where it is one by columns and taken from runs, behind so many orders of windows
// that are. Where it is not, the set stays as it is.
fn key_order(
    alloc: Global,
    select: &Selection,
    taken: usize,
    set: &mut SegmentSet,
) -> Result<Option<Vec<RowRef>>, AllocError>
    ensures order { IfOk result (λ found. IfSome found (λ refs. (columns : List (List Meaning))
        → IsOrderFor (live_rows set.old) (by_keys (select_plan select.now).keys columns) refs.items)) }
    ensures found { IfOk result (λ found. asks_for_order select.now ≡ true → taken < 4
        → All (IsColumnKey (length set.old.schema.columns)) select.now.keys.items → is_some found ≡ true) }
    ensures few { 4 ≤ taken → IfOk result (λ found. found ≡ None) }
    ensures idle { IfOk result (λ found. found ≡ None → set.new ≡ set.old) }
    ensures same { Becomes set.old set.old.view set.new }
{
    if is_left_out(select, taken) {
        return Ok(None);
    }
    let width = set.schema().columns().len();
    let found = key_columns(alloc, &select.keys, width)?;
    let Some(keys) = found else {
        return Ok(None);
    };
    kept_rows_stay_in_order();
    let rows = set.ordered(&keys)?;
    Ok(Some(rows))
}

/// The table's rows in the orders that a SELECT over it asks for, where these are by columns and the rows are not grouped: in
/// four of them at most, those of its windows first: each window by columns has one, itself or by another window that it shares it with,
/// unless four are taken before. They come from the runs that the segments keep; runs that are missing are
/// made, and orders that are merged of them are kept. Where there is no order by columns, or the SELECT asks for none, the set stays
/// as it is. The one error is that memory was refused.
pub fn table_orders<'a>(
    alloc: Global,
    select: &'a Selection,
    set: &mut SegmentSet,
) -> Result<TableOrders<'a>, AllocError>
    ensures orders { IfOk result (AreTableOrders (live_rows set.old) (select_plan select.entry.now).keys) }
    ensures few { IfOk result (λ t. length t.windows.items + (if is_some t.keys then 1 else 0) ≤ 4) }
    ensures served { IfOk result (λ t. select.entry.now.grouping ≡ None
        → All (IsServed (length set.old.schema.columns) t.windows.items) select.entry.now.windows.items) }
    ensures keys { IfOk result (λ t. select.entry.now.grouping ≡ None → asks_for_order select.entry.now ≡ true
        → length t.windows.items < 4 → All (IsColumnKey (length set.old.schema.columns)) select.entry.now.keys.items
        → is_some t.keys ≡ true) }
    ensures idle { are_orders_asked select.entry.now ≡ false → set.new ≡ set.old }
    ensures none { IfOk result (λ t. length t.windows.items ≡ 0 → t.keys ≡ None → set.new ≡ set.old) }
    ensures same { Becomes set.old set.old.view set.new }
{
    if !asks_for_orders(select) {
        return Ok(TableOrders::none(alloc));
    }
    let windows = window_orders(alloc, &select.windows, set)?;
    let keys = key_order(alloc, select, windows.len(), set)?;
    Ok(TableOrders { windows, keys })
}
