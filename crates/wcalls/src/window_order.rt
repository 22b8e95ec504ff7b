//! Rows in the order of a window.
ghost use Rattle.std.specs.Prelude.{◌≡◌, ◌*◌, ◌+◌, ◌-◌, ◌<◌, ◌≤◌, ◌^◌, true, min, List, All};
ghost use Rattle.std.specs.Prelude.{OnOk, OnErr, IfOk, IfSome, IsTrue, Some, length, map, option_map};
ghost use Rattle.std.specs.Option.{is_some};
ghost use Rattle.std.specs.Ordering.{on};
ghost use Rattle.wvalues.specs.declared.key.SortKey.{SortKey};
ghost use Rattle.wvalues.specs.Meaning.{Meaning};
ghost use Rattle.wvalues.specs.Order.{keys_cmp};
ghost use Rattle.wframe.specs.Codes.{TellApart};
ghost use Rattle.wframe.specs.KeyRows.{key_lists, sort_keys};
ghost use Rattle.wframe.specs.Offsets.{has_range_offset};
ghost use Rattle.wframe.specs.Peers.{key_at};
ghost use Rattle.wframe.specs.Sorting.{sorted};
ghost use Rattle.wplan.specs.Plans.{window_plan};
ghost use Rattle.wshare.specs.Sameness.{is_same_order};
ghost use Rattle.wrows.specs.CodedRows.{AreRowCodes};
ghost use Rattle.wrows.specs.Columns.{Row};
ghost use Rattle.wrows.specs.Laid.{rows_seen};
ghost use Rattle.wrows.specs.Outcomes.{Gives};
ghost use Rattle.wrows.specs.Plain.{numbers_by};
ghost use Rattle.wcalls.specs.Arranged.{IsArranged};
ghost use Rattle.wcalls.specs.Listed.{lists_in};
ghost use Rattle.wcalls.specs.Ordered.{in_order, numbers_in_order, ordered_by, ordered_rows};
ghost use Rattle.wcalls.specs.PresortedRows.{IsPresorted};
ghost use Rattle.wcalls.specs.RowOrders.{IsRowOrder};
ghost use Rattle.wcalls.specs.Windows.{Windowed};

use crate::parts::{partition_keys, window_keys};
use crate::row_keys::RowKeys;
use std::alloc::{AllocError, Global};
use std::marker::Model;
use waggregate::Tally;
use wcodes::picked_codes;
use wframe::{Frame, KeyRows, Partitions};
use wplan::ResolvedWindow;
use wrows::{AnswerFault, order_by_codes};
use wshare::same_order;
use wvalues::Value;

/// The numbers of rows that are presorted in the order of a window, and what is known of their keys.
#[derive(Drop)]
pub struct Presorted {
    /// The number of each row once: partition after partition, there by the window's keys, and where these agree by number.
    pub numbers: Vec<u32>,
    /// Whether it is known that no two rows share all their keys, whatever partitions they stand in. Where it is not known, they
    /// may still all differ.
    pub unique_keys: bool,
}

/// Rows by the partition values of a window, by its keys and then by number, with the partition values and the keys of
/// each: where these are plain columns, they are not copied. The window's frame plays no part, so it serves each window of
/// the same partition values and keys.
///
/// Rows that were sorted by a single partition value or key were sorted by codes. These are kept in the order of the rows and tell
/// the rows apart there, so that partitions and peers are found without a look at the values, which lie scattered. Rows that are
/// presorted have codes where these are found without sorting and seem to be of use; where it is known that no two rows share
/// their keys, the numbers of the rows are such codes.
#[derive(Drop)]
pub struct WindowOrder<'a> {
    rows: Vec<u32>,
    values: RowKeys<'a>,
    value_codes: Option<Vec<u32>>,
    keys: RowKeys<'a>,
    key_codes: Option<Vec<u32>>,
}

impl<'a> Model for WindowOrder<'a> {
    ghost use Rattle.wcalls.specs.Ordered.{Ordered};

    ghost Value = { Ordered };

    ghost use Rattle.wcalls.specs.OrderKept.{IsKept, order_of};

    ghost view = { order_of };

    ghost invariant = { IsKept };
}

impl<'a> WindowOrder<'a> {
    /// Orders rows as a window does. All its partition values and keys are evaluated on every row, and `OutOfRange` where
    /// one is so on any; the rows are sorted once. The order is counted among those that are made.
    pub fn new(
        alloc: Global,
        window: &ResolvedWindow,
        rows: &'a [&'a [Value]],
        orders_made: &mut Tally,
    ) -> Result<WindowOrder<'a>, AnswerFault>
        ensures order { Gives (λ order. order) result (ordered_rows (rows_seen rows.now) (window_plan window.now)) }
        ensures made { OnOk result (orders_made.new ≡ min (orders_made.old + 1) (2 ^ 64 - 1)) }
        ensures none { OnErr result (orders_made.new ≡ orders_made.old) }
    {
        let values = partition_keys(alloc, window, rows)?;
        let keys = window_keys(alloc, window, rows)?;
        let order = ordered_keys(alloc, values, keys)?;
        orders_made.add(1);
        Ok(order)
    }

    /// Orders rows as a window does, where they are presorted in it: nothing is sorted. All its partition values
    /// and keys are evaluated on every row, and `OutOfRange` where one is so on any. The order is counted among those that are
    /// made. Where it is known that no two rows share their keys, these are not compared to find peers.
    pub fn presorted(
        alloc: Global,
        window: &ResolvedWindow,
        rows: &'a [&'a [Value]],
        presorted: Presorted,
        orders_made: &mut Tally,
    ) -> Result<WindowOrder<'a>, AnswerFault>
        requires { IsPresorted (rows_seen rows.now) (window_plan window.now) presorted }
        ensures order { Gives (λ order. order) result (ordered_rows (rows_seen rows.now) (window_plan window.now)) }
        ensures made { OnOk result (orders_made.new ≡ min (orders_made.old + 1) (2 ^ 64 - 1)) }
        ensures none { OnErr result (orders_made.new ≡ orders_made.old) }
    {
        let values = partition_keys(alloc, window, rows)?;
        let keys = window_keys(alloc, window, rows)?;
        let order = presorted_keys(alloc, values, keys, presorted)?;
        orders_made.add(1);
        Ok(order)
    }

    /// The numbers of the rows, in order.
    pub(crate) fn rows(&self) -> &[u32]
        ensures rows { result.now ≡ self.now.rows }
        ensures below { All (λ i. i < length self.now.rows) self.now.rows }
    {
        &self.rows
    }

    /// The rows in order by their keys.
    pub(crate) fn key_rows(&self) -> KeyRows<'_>
        ensures lists { key_lists result ≡ self.now.keys }
        ensures order { sort_keys result ≡ self.now.order }
    {
        let rows = self.keys.key_rows(&self.rows);
        coded_rows(rows, &self.key_codes)
    }

    /// The partitions of the rows with their frames, where the rows are lent in order by their keys.
    pub(crate) fn partitions<'b>(
        &self,
        alloc: Global,
        keys: KeyRows<'b>,
        frame: Frame,
    ) -> Result<Partitions<'b>, AllocError>
        requires keys { key_lists keys ≡ self.now.keys }
        requires order { sort_keys keys ≡ self.now.order }
        requires count { length (key_lists keys) ≡ length self.now.rows }
        requires offset { IsTrue (has_range_offset frame) → length self.now.order ≡ 1 }
        ensures arranged { IfOk result (λ all. (w : Windowed) → self.now ≡ in_order w → frame ≡ w.frame → IsArranged w self.now.rows all) }
        ensures frame { IfOk result (λ all. all.frame ≡ frame) }
        ensures len { IfOk result (λ all. length self.now.rows ≡ length all.keys) }
    {
        let rows = self.values.key_rows(&self.rows);
        let values = coded_rows(rows, &self.value_codes);
        let partitions = Partitions::build(alloc, &values, keys, frame)?;
        Ok(partitions)
    }
}

/// Whether two windows order rows alike, whatever their frames: their partition values and their keys are the same, as
/// they are written.
#[tactic(auto, using(crate::proofs::WindowedFacts::shared_order))]
pub fn share_order(a: &ResolvedWindow, b: &ResolvedWindow) -> bool
    ensures exact { result ≡ is_same_order a.now b.now }
    ensures order { (rows : List Row) → result ≡ true → ordered_rows rows (window_plan a.now) ≡ ordered_rows rows (window_plan b.now) }
{
    same_order(a, b)
}

// Rows in an order that was made of their partition values and keys.
fn kept_order<'a>(order: RowOrder, values: RowKeys<'a>, keys: RowKeys<'a>) -> WindowOrder<'a>
    requires values { length (lists_in values.lists) ≡ length order.rows.items }
    requires keys { length (lists_in keys.lists) ≡ length order.rows.items }
    requires order { IsRowOrder values.orders.items (lists_in values.lists) keys.orders.items (lists_in keys.lists)
        (length order.rows.items) order }
    ensures { result ≡ ordered_by (lists_in values.entry.lists) values.entry.orders.items (lists_in keys.entry.lists)
        keys.entry.orders.items }
{
    let RowOrder {
        rows,
        value_codes,
        key_codes,
    } = order;
    WindowOrder {
        rows,
        values,
        value_codes,
        keys,
        key_codes,
    }
}

// Rows in the order of their partition values and keys.
fn ordered_keys<'a>(
    alloc: Global,
    values: RowKeys<'a>,
    keys: RowKeys<'a>,
) -> Result<WindowOrder<'a>, AllocError>
    requires { length (lists_in values.lists) ≡ length (lists_in keys.lists) }
    ensures { IfOk result (λ order. order ≡ ordered_by (lists_in values.entry.lists) values.entry.orders.items
        (lists_in keys.entry.lists) keys.entry.orders.items) }
{
    let order = row_order(alloc, &values, &keys)?;
    Ok(kept_order(order, values, keys))
}

// Rows in the order of their partition values and keys, which is presorted.
fn presorted_keys<'a>(
    alloc: Global,
    values: RowKeys<'a>,
    keys: RowKeys<'a>,
    presorted: Presorted,
) -> Result<WindowOrder<'a>, AllocError>
    requires count { length (lists_in values.lists) ≡ length (lists_in keys.lists) }
    requires order { presorted.numbers.items ≡ numbers_in_order (lists_in values.lists) values.orders.items (lists_in keys.lists)
        keys.orders.items }
    requires differ { presorted.unique_keys ≡ true → TellApart (keys_cmp keys.orders.items)
        (map (key_at (lists_in keys.lists)) presorted.numbers.items) presorted.numbers.items }
    ensures { IfOk result (λ order. order ≡ ordered_by (lists_in values.entry.lists) values.entry.orders.items
        (lists_in keys.entry.lists) keys.entry.orders.items) }
{
    let order = presorted_order(alloc, &values, &keys, presorted)?;
    Ok(kept_order(order, values, keys))
}

// Rows with the codes that distinguish them, where there are some.
fn coded_rows<'a>(rows: KeyRows<'a>, codes: &'a Option<Vec<u32>>) -> KeyRows<'a>
    requires { IfSome codes.now (λ codes. TellApart (keys_cmp (sort_keys rows)) (key_lists rows) codes.items) }
    ensures lists { key_lists result ≡ key_lists rows.entry }
    ensures keys { sort_keys result ≡ sort_keys rows.entry }
{
    match codes {
        Some(codes) => rows.with_codes(codes),
        None => rows,
    }
}

// The numbers of rows in an order, and there the codes of the partition value and of the key, if each has one.
#[derive(Drop)]
struct RowOrder {
    rows: Vec<u32>,
    value_codes: Option<Vec<u32>>,
    key_codes: Option<Vec<u32>>,
}

// The order of rows that have codes for their partition values and for their keys, by both.
fn coded_order(alloc: Global, firsts: &[u32], seconds: &[u32]) -> Result<RowOrder, AllocError>
    requires { length firsts.now ≡ length seconds.now }
    ensures order { (value_order key_order : List SortKey) (values keys : List (List Meaning))
        → AreRowCodes value_order values firsts.now → AreRowCodes key_order keys seconds.now
        → IfOk result (IsRowOrder value_order values key_order keys (length seconds.now)) }
    ensures values { IfOk result (λ order. is_some order.value_codes ≡ true) }
    ensures keys { IfOk result (λ order. is_some order.key_codes ≡ true) }
{
    let order = order_by_codes(alloc, firsts, seconds)?;
    Ok(RowOrder {
        rows: order.rows,
        value_codes: Some(order.firsts),
        key_codes: Some(order.seconds),
    })
}

// The order of rows by partition values, then by keys, then by number: by the codes of both, where there are some. Else
// the keys are sorted by first, and then the partition values, which leaves rows of one partition as they stand.
fn row_order(alloc: Global, values: &RowKeys, keys: &RowKeys) -> Result<RowOrder, AllocError>
    requires { length (lists_in values.now.lists) ≡ length (lists_in keys.now.lists) }
    ensures order { IfOk result (IsRowOrder values.now.orders.items (lists_in values.now.lists) keys.now.orders.items
        (lists_in keys.now.lists) (length (lists_in keys.now.lists))) }
    ensures values { length values.now.orders.items ≡ 1 → length (lists_in values.now.lists) ≤ 2 ^ 32
        → IfOk result (λ order. is_some order.value_codes ≡ true) }
    ensures keys { length keys.now.orders.items ≡ 1 → length (lists_in keys.now.lists) ≤ 2 ^ 32
        → IfOk result (λ order. is_some order.key_codes ≡ true) }
{
    let key_codes = keys.codes(alloc)?;
    let value_codes = values.codes(alloc)?;
    if let (Some(firsts), Some(seconds)) = (&value_codes, &key_codes) {
        let order = coded_order(alloc, firsts, seconds)?;
        return Ok(order);
    }
    let by_key = keys.numbers(alloc, &key_codes)?;
    let rows = values.resorted(alloc, &value_codes, by_key)?;
    let value_codes = codes_of(alloc, value_codes, &rows)?;
    let key_codes = codes_of(alloc, key_codes, &rows)?;
    Ok(RowOrder {
        rows,
        value_codes,
        key_codes,
    })
}

/// How many places of an order are looked at to tell whether its rows stand in large groups.
const LOOKED_AT: usize = 64;

/// How many rows lie between two that agree in most groups that are large.
const APART: usize = 64;

// Whether rows of one key in order seem to be told apart sooner by their values than by codes, which take a pass over all rows: where
// the first value is a text, as texts have no codes that are found without sorting, and where most rows agree with one some places
// behind them, as where so large groups end is told by few comparisons. It is a matter of speed alone.
fn are_told_by_values(rows: &KeyRows) -> bool {
    let step = rows.count() / LOOKED_AT;
    if step <= APART || rows.keys().len() != 1 {
        return false;
    }
    if matches!(rows.row(0).value(0), Value::Short(_) | Value::Shared(_)) {
        return true;
    }
    let mut agreeing: usize = 0;
    for number in 0..LOOKED_AT {
        let place = step.saturating_mul(number);
        let agree = rows.compare(place, place.saturating_add(APART)).is_eq();
        agreeing = agreeing.saturating_add(agree as usize);
    }
    agreeing > LOOKED_AT / 2
}

// Codes of the keys of rows that stand in this order, where they are found without sorting and seem to be of use.
fn found_codes(alloc: Global, keys: &RowKeys, rows: &[u32]) -> Result<Option<Vec<u32>>, AllocError>
    requires { All (λ i. i < length (lists_in keys.now.lists)) rows.now }
    ensures { IfOk result (λ found. IfSome found (λ codes. TellApart (keys_cmp keys.now.orders.items)
        (map (key_at (lists_in keys.now.lists)) rows.now) codes.items)) }
{
    if are_told_by_values(&keys.key_rows(rows)) {
        return Ok(None);
    }
    let found = keys.number_codes(alloc)?;
    let picked = codes_of(alloc, found, rows)?;
    Ok(picked)
}

// Codes of the keys of rows that stand in this order: their numbers, where no two of them share their keys, and then nothing is
// read of these. Else the codes that are found without sorting.
fn presorted_codes(
    alloc: Global,
    keys: &RowKeys,
    rows: &[u32],
    unique_keys: bool,
) -> Result<Option<Vec<u32>>, AllocError>
    requires below { All (λ i. i < length (lists_in keys.now.lists)) rows.now }
    requires len { length rows.now ≡ length (lists_in keys.now.lists) }
    requires differ { unique_keys ≡ true → TellApart (keys_cmp keys.now.orders.items) (map (key_at (lists_in keys.now.lists)) rows.now)
        rows.now }
    ensures apart { IfOk result (λ found. IfSome found (λ codes. TellApart (keys_cmp keys.now.orders.items)
        (map (key_at (lists_in keys.now.lists)) rows.now) codes.items)) }
    ensures numbers { unique_keys ≡ true → IfOk result (λ found. option_map (λ codes. codes.items) found ≡ Some rows.now) }
{
    if unique_keys {
        let codes = Vec::from_slice(alloc, rows)?;
        return Ok(Some(codes));
    }
    found_codes(alloc, keys, rows)
}

// The presorted order of rows, with the codes of their partition values and of their keys there, where these are found
// without sorting. Where no two rows share their keys, nothing is read of these. The rows stand by partition values, then by
// keys, then by number.
fn presorted_order(
    alloc: Global,
    values: &RowKeys,
    keys: &RowKeys,
    presorted: Presorted,
) -> Result<RowOrder, AllocError>
    requires count { length (lists_in values.now.lists) ≡ length (lists_in keys.now.lists) }
    requires order { presorted.numbers.items ≡ sorted (on (key_at (lists_in values.now.lists)) (keys_cmp values.now.orders.items))
        (numbers_by keys.now.orders.items (lists_in keys.now.lists) (length (lists_in keys.now.lists))) }
    requires below { All (λ i. i < length (lists_in keys.now.lists)) presorted.numbers.items }
    requires len { length presorted.numbers.items ≡ length (lists_in keys.now.lists) }
    requires differ { presorted.unique_keys ≡ true → TellApart (keys_cmp keys.now.orders.items)
        (map (key_at (lists_in keys.now.lists)) presorted.numbers.items) presorted.numbers.items }
    ensures { IfOk result (IsRowOrder values.now.orders.items (lists_in values.now.lists) keys.now.orders.items
        (lists_in keys.now.lists) (length (lists_in keys.now.lists))) }
{
    let Presorted {
        numbers: rows,
        unique_keys,
    } = presorted;
    let key_codes = presorted_codes(alloc, keys, &rows, unique_keys)?;
    let value_codes = found_codes(alloc, values, &rows)?;
    Ok(RowOrder {
        rows,
        value_codes,
        key_codes,
    })
}

// The codes of the rows of these numbers, in their order, if rows have codes.
fn codes_of(
    alloc: Global,
    codes: Option<Vec<u32>>,
    rows: &[u32],
) -> Result<Option<Vec<u32>>, AllocError>
    requires { IfSome codes (λ codes. All (λ i. i < length codes.items) rows.now) }
    ensures apart { (keys : List SortKey) (lists : List (List Meaning))
        → IfSome codes (λ codes. AreRowCodes keys lists codes.items)
        → IfOk result (λ found. IfSome found (λ codes. TellApart (keys_cmp keys) (map (key_at lists) rows.now) codes.items)) }
    ensures found { IfOk result (λ found. is_some found ≡ is_some codes) }
{
    match codes {
        Some(codes) => {
            let picked = picked_codes(alloc, &codes, rows)?;
            Ok(Some(picked))
        }
        None => Ok(None),
    }
}
