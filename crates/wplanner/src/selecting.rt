//! What one SELECT answers.
ghost use Rattle.std.specs.Prelude.{◌≡◌, ◌<◌, ◌+◌, ◌-◌, ◌^◌, ◌==◌, if◌then◌else◌, true, false, List, length, min};
ghost use Rattle.std.specs.Prelude.{IfNone, IfOk, IfSome, None, Ok, Some};
ghost use Rattle.std.specs.Option.{ForSome};
ghost use Rattle.wvalues.specs.Meaning.{Meaning};
ghost use Rattle.wplan.specs.Plans.{grouping_plan, select_plan};
ghost use Rattle.wrows.specs.Outcomes.{Gives};
ghost use Rattle.wrows.specs.Columns.{beside};
ghost use Rattle.wrows.specs.Laid.{rows_in, rows_seen};
ghost use Rattle.wgroup.specs.Counting.{CountsRows, counts_rows};
ghost use Rattle.wplanner.specs.Answers.{grouped_items, items_of, kept_items, left_items, select_of};
ghost use Rattle.wtable.specs.Few.{MayGive};
ghost use Rattle.wplanner.specs.Sound.{is_sound_select};
ghost use Rattle.wset.specs.Running.{live_rows};
ghost use Rattle.wset.specs.Sets.{Becomes};
ghost use Rattle.wtable.specs.TableOrders.{AreTableOrders, ArePresorted, by_keys};
ghost use Rattle.wtable.specs.Tables.{rows_of_set};

use crate::parts::item_values;
use crate::windows::{call_columns, window_answers};
use crate::work::Work;
use std::alloc::Global;
use waggregate::Tally;
use wcalls::{key_orders, key_values, lent_columns, listed_columns};
use wcolumns::Column;
use wgroup::{counted_row, counts_rows, group_rows};
use wplan::{Grouping, Selection};
use wrows::{AnswerFault, Cells, joined_items, kept_rows, lent_rows, presorted_items};
use wset::SegmentSet;
use wtable::{
    PresortedOrders, TableOrders, asked_of, few_kept_rows, kept_count, kept_table_rows,
    leading_rows, numbered_table_rows, presorted_orders, table_orders,
};
use wvalues::Value;

// Counts the order that ORDER BY asks for, if there is one.
fn count_order(select: &Selection, orders: &mut Tally)
    ensures { orders.new ≡ (if length select.now.keys.items == 0 then orders.old else min (orders.old + 1) (2 ^ 64 - 1)) }
{
    if !select.keys.is_empty() {
        orders.add(1);
    }
}

// The items of rows that have the values of some columns behind their cells, in a presorted order, and cut.
fn presorted_items_of(
    alloc: Global,
    select: &Selection,
    rows: &[&[Value]],
    columns: &[&[Value]],
    numbers: Vec<u32>,
) -> Result<Cells, AnswerFault>
    requires { by_keys (select_plan select.now).keys (rows_seen columns.now) (rows_seen rows.now) ≡ Ok numbers.items }
    ensures rows { Gives rows_in result (items_of (select_plan select.now) (beside (rows_seen rows.now) (rows_seen columns.now))) }
    ensures width { IfOk result (λ cells. cells.width ≡ length select.now.items.items) }
{
    let items = item_values(alloc, &select.items)?;
    presorted_items(alloc, &items, numbers, asked_of(select), rows, columns)
}

// The items of rows that have the values of some columns behind their cells, in order and cut.
fn items_beside(
    alloc: Global,
    select: &Selection,
    rows: &[&[Value]],
    columns: &[&[Value]],
) -> Result<Cells, AnswerFault>
    ensures rows { Gives rows_in result (items_of (select_plan select.now) (beside (rows_seen rows.now) (rows_seen columns.now))) }
    ensures width { IfOk result (λ cells. cells.width ≡ length select.now.items.items) }
{
    let items = item_values(alloc, &select.items)?;
    let keys = key_values(alloc, &select.keys)?;
    let order = key_orders(alloc, &select.keys)?;
    let asked = asked_of(select);
    joined_items(alloc, &items, &keys, &order, asked, rows, columns)
}

// The items of rows that have the values of some columns behind their cells, in order and cut, where the order may be presorted.
fn items_beside_by(
    alloc: Global,
    select: &Selection,
    rows: &[&[Value]],
    columns: &[&[Value]],
    presorted: Option<Vec<u32>>,
) -> Result<Cells, AnswerFault>
    requires { IfSome presorted (λ numbers. (columns : List (List Meaning))
        → by_keys (select_plan select.now).keys columns (rows_seen rows.now) ≡ Ok numbers.items) }
    ensures rows { Gives rows_in result (items_of (select_plan select.now) (beside (rows_seen rows.now) (rows_seen columns.now))) }
    ensures width { IfOk result (λ cells. cells.width ≡ length select.now.items.items) }
{
    match presorted {
        Some(numbers) => presorted_items_of(alloc, select, rows, columns, numbers),
        None => items_beside(alloc, select, rows, columns),
    }
}

// The items of rows with what the calls answer behind their cells.
fn called_items(
    alloc: Global,
    select: &Selection,
    rows: &[&[Value]],
    presorted: PresortedOrders,
    work: &mut Work,
) -> Result<Cells, AnswerFault>
    requires sound { is_sound_select (select_plan select.now) ≡ true }
    requires few { length rows.now < 2 ^ 31 }
    requires presorted { ArePresorted (rows_seen rows.now) (select_plan select.now).keys presorted }
    ensures rows { Gives rows_in result (left_items (select_plan select.now) (rows_seen rows.now)) }
    ensures width { IfOk result (λ cells. cells.width ≡ length select.now.items.items) }
{
    let PresortedOrders { windows, keys } = presorted;
    let answers = window_answers(alloc, &select.windows, &select.calls, &*rows, windows, work)?;
    let none = Column::none(alloc);
    let columns = call_columns(alloc, &answers, &none, &select.calls)?;
    let listed = listed_columns(alloc, &columns)?;
    let lists = lent_columns(alloc, &listed)?;
    items_beside_by(alloc, select, rows, &lists, keys)
}

/// The items of the rows that are left, which are lent on where nothing calls for a window.
pub(crate) fn left_items(
    alloc: Global,
    select: &Selection,
    rows: &[&[Value]],
    presorted: PresortedOrders,
    work: &mut Work,
) -> Result<Cells, AnswerFault>
    requires sound { is_sound_select (select_plan select.now) ≡ true }
    requires few { length rows.now < 2 ^ 31 }
    requires presorted { ArePresorted (rows_seen rows.now) (select_plan select.now).keys presorted }
    ensures rows { Gives rows_in result (left_items (select_plan select.now) (rows_seen rows.now)) }
    ensures width { IfOk result (λ cells. cells.width ≡ length select.now.items.items) }
{
    count_order(select, &mut work.orders);
    if select.windows.is_empty() {
        items_beside_by(alloc, select, rows, &[], presorted.keys)
    } else {
        called_items(alloc, select, rows, presorted, work)
    }
}

// The items of the rows of the groups.
fn grouped_items(
    alloc: Global,
    select: &Selection,
    grouping: &Grouping,
    kept: &[&[Value]],
    work: &mut Work,
) -> Result<Cells, AnswerFault>
    requires sound { is_sound_select (select_plan select.now) ≡ true }
    requires few { length kept.now < 2 ^ 31 }
    ensures rows { Gives rows_in result (grouped_items (select_plan select.now) (grouping_plan grouping.now) (rows_seen kept.now)) }
    ensures width { IfOk result (λ cells. cells.width ≡ length select.now.items.items) }
{
    let groups = group_rows(alloc, grouping, kept)?;
    let left = lent_rows(alloc, &groups)?;
    left_items(alloc, select, &left, PresortedOrders::none(alloc), work)
}

// The items of the rows that WHERE keeps, or of their groups.
fn kept_items(
    alloc: Global,
    select: &Selection,
    kept: &[&[Value]],
    presorted: PresortedOrders,
    work: &mut Work,
) -> Result<Cells, AnswerFault>
    requires sound { is_sound_select (select_plan select.now) ≡ true }
    requires few { length kept.now < 2 ^ 31 }
    requires presorted { ArePresorted (rows_seen kept.now) (select_plan select.now).keys presorted }
    ensures rows { Gives rows_in result (kept_items (select_plan select.now) (rows_seen kept.now)) }
    ensures width { IfOk result (λ cells. cells.width ≡ length select.now.items.items) }
{
    match &select.grouping {
        None => left_items(alloc, select, kept, presorted, work),
        Some(grouping) => grouped_items(alloc, select, grouping, kept, work),
    }
}

/// What one SELECT answers on some rows, whose list it lets go where WHERE keeps others.
pub(crate) fn select_rows(
    alloc: Global,
    select: &Selection,
    rows: Vec<&[Value]>,
    work: &mut Work,
) -> Result<Cells, AnswerFault>
    requires { is_sound_select (select_plan select.now) ≡ true }
    ensures rows { Gives rows_in result (select_of (select_plan select.now) (rows_seen rows.entry.items)) }
    ensures width { IfOk result (λ cells. cells.width ≡ length select.now.items.items) }
{
    let kept = kept_rows(alloc, &select.condition, rows)?;
    kept_items(alloc, select, &kept, PresortedOrders::none(alloc), work)
}

// What one SELECT answers on the rows of the set's live segments, where it asks for the first few of them in an order by columns or in
// none.
fn select_leading(
    alloc: Global,
    select: &Selection,
    set: &SegmentSet,
    work: &mut Work,
) -> Result<Option<Cells>, AnswerFault>
    requires { is_sound_select (select_plan select.now) ≡ true }
    ensures rows { MayGive rows_in result (select_of (select_plan select.now) (rows_of_set set.now)) }
    ensures width { IfOk result (λ found. IfSome found (λ cells. cells.width ≡ length select.now.items.items)) }
{
    let found = leading_rows(alloc, select, set)?;
    match found {
        None => Ok(None),
        Some(rows) => {
            kept_count(set)?;
            let cells = left_items(alloc, select, &rows, PresortedOrders::none(alloc), work)?;
            Ok(Some(cells))
        }
    }
}

// What one SELECT answers on the rows that WHERE keeps of the set's live segments, where no order of them is presorted.
fn select_kept(
    alloc: Global,
    select: &Selection,
    set: &SegmentSet,
    work: &mut Work,
) -> Result<Cells, AnswerFault>
    requires { is_sound_select (select_plan select.now) ≡ true }
    ensures rows { Gives rows_in result (select_of (select_plan select.now) (rows_of_set set.now)) }
    ensures width { IfOk result (λ cells. cells.width ≡ length select.now.items.items) }
{
    let kept = kept_table_rows(alloc, &select.condition, set)?;
    kept_items(alloc, select, &kept, PresortedOrders::none(alloc), work)
}

// What one SELECT answers on the rows of the set's live segments, where no order of them is presorted.
fn select_unordered(
    alloc: Global,
    select: &Selection,
    set: &SegmentSet,
    work: &mut Work,
) -> Result<Cells, AnswerFault>
    requires { is_sound_select (select_plan select.now) ≡ true }
    ensures rows { Gives rows_in result (select_of (select_plan select.now) (rows_of_set set.now)) }
    ensures width { IfOk result (λ cells. cells.width ≡ length select.now.items.items) }
{
    let leading = select_leading(alloc, select, set, work)?;
    match leading {
        Some(cells) => Ok(cells),
        None => select_kept(alloc, select, set, work),
    }
}

// What one SELECT answers on the rows of the set's live segments, of which some orders are presorted.
fn select_ordered(
    alloc: Global,
    select: &Selection,
    set: &SegmentSet,
    orders: TableOrders,
    work: &mut Work,
) -> Result<Cells, AnswerFault>
    requires sound { is_sound_select (select_plan select.now) ≡ true }
    requires orders { AreTableOrders (live_rows set.now) (select_plan select.now).keys orders }
    ensures rows { Gives rows_in result (select_of (select_plan select.now) (rows_of_set set.now)) }
    ensures width { IfOk result (λ cells. cells.width ≡ length select.now.items.items) }
{
    let kept = numbered_table_rows(alloc, &select.condition, set)?;
    let presorted = presorted_orders(alloc, orders, &kept)?;
    kept_items(alloc, select, &kept.rows, presorted, work)
}

// The grouping of a SELECT that keeps all rows, counts them in one group and asks nothing else of them.
fn counted_grouping(select: &Selection) -> Option<&Grouping>
    ensures counts { IfSome result (λ grouping. CountsRows (grouping_plan grouping.now)) }
    ensures all { IfSome result (λ grouping. (select_plan select.now).condition ≡ None) }
    ensures own { IfSome result (λ grouping. (select_plan select.now).grouping ≡ Some (grouping_plan grouping.now)) }
    ensures found { IfNone result (select.now.condition ≡ None → ForSome select.now.grouping (λ grouping. counts_rows grouping ≡ false)) }
{
    let None = &select.condition else {
        return None;
    };
    let Some(grouping) = &select.grouping else {
        return None;
    };
    if !counts_rows(grouping) {
        return None;
    }
    Some(grouping)
}

// What one SELECT answers on the rows of the set's live segments, where it counts them and asks nothing else of them.
fn select_counted(
    alloc: Global,
    select: &Selection,
    grouping: &Grouping,
    set: &SegmentSet,
    work: &mut Work,
) -> Result<Cells, AnswerFault>
    requires sound { is_sound_select (select_plan select.now) ≡ true }
    requires counts { CountsRows (grouping_plan grouping.now) }
    requires all { (select_plan select.now).condition ≡ None }
    requires own { (select_plan select.now).grouping ≡ Some (grouping_plan grouping.now) }
    ensures rows { Gives rows_in result (select_of (select_plan select.now) (rows_of_set set.now)) }
    ensures width { IfOk result (λ cells. cells.width ≡ length select.now.items.items) }
{
    let count = kept_count(set)?;
    let groups = counted_row(alloc, grouping, count)?;
    let left = lent_rows(alloc, &groups)?;
    left_items(alloc, select, &left, PresortedOrders::none(alloc), work)
}

// What one SELECT answers on the rows of the set's live segments, whose orders are taken from runs.
fn select_by_runs(
    alloc: Global,
    select: &Selection,
    set: &mut SegmentSet,
    work: &mut Work,
) -> Result<Cells, AnswerFault>
    requires { is_sound_select (select_plan select.now) ≡ true }
    ensures rows { Gives rows_in result (select_of (select_plan select.now) (rows_of_set set.old)) }
    ensures width { IfOk result (λ cells. cells.width ≡ length select.now.items.items) }
    ensures same { Becomes set.old set.old.view set.new }
{
    let orders = table_orders(alloc, select, set)?;
    if orders.is_none() {
        select_unordered(alloc, select, set, work)
    } else {
        select_ordered(alloc, select, set, orders, work)
    }
}

// What one SELECT answers on the rows of the set's live segments, where WHERE keeps few of them: these are put in order by
// themselves.
fn select_few(
    alloc: Global,
    select: &Selection,
    set: &SegmentSet,
    work: &mut Work,
) -> Result<Option<Cells>, AnswerFault>
    requires { is_sound_select (select_plan select.now) ≡ true }
    ensures rows { MayGive rows_in result (select_of (select_plan select.now) (rows_of_set set.now)) }
    ensures width { IfOk result (λ found. IfSome found (λ cells. cells.width ≡ length select.now.items.items)) }
{
    let found = few_kept_rows(alloc, select, set)?;
    match found {
        None => Ok(None),
        Some(kept) => {
            let cells = kept_items(alloc, select, &kept, PresortedOrders::none(alloc), work)?;
            Ok(Some(cells))
        }
    }
}

// What one SELECT answers on the rows of the set's live segments, which are listed: few of them by themselves, else by runs.
fn select_listed(
    alloc: Global,
    select: &Selection,
    set: &mut SegmentSet,
    work: &mut Work,
) -> Result<Cells, AnswerFault>
    requires { is_sound_select (select_plan select.now) ≡ true }
    ensures rows { Gives rows_in result (select_of (select_plan select.now) (rows_of_set set.old)) }
    ensures width { IfOk result (λ cells. cells.width ≡ length select.now.items.items) }
    ensures same { Becomes set.old set.old.view set.new }
{
    let few = select_few(alloc, select, set, work)?;
    match few {
        Some(cells) => Ok(cells),
        None => select_by_runs(alloc, select, set, work),
    }
}

/// What one SELECT answers on the rows of the set's live segments. Orders of them by columns are taken from the runs that the
/// segments keep, and runs that are missing are made; nothing else of the set changes. Where WHERE keeps few rows these are put
/// in order by themselves, and no run is made. Where it only counts them, or only asks for columns of the first few in an order by
/// columns or in none, it is to take less than a list of them all; of that, as of the use of runs, no clause says anything, and it is
/// measured.
pub(crate) fn select_table_rows(
    alloc: Global,
    select: &Selection,
    set: &mut SegmentSet,
    work: &mut Work,
) -> Result<Cells, AnswerFault>
    requires { is_sound_select (select_plan select.now) ≡ true }
    ensures rows { Gives rows_in result (select_of (select_plan select.now) (rows_of_set set.old)) }
    ensures width { IfOk result (λ cells. cells.width ≡ length select.now.items.items) }
    ensures same { Becomes set.old set.old.view set.new }
{
    match counted_grouping(select) {
        Some(grouping) => select_counted(alloc, select, grouping, set, work),
        None => select_listed(alloc, select, set, work),
    }
}
