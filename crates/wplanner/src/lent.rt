//! The text of what a SELECT over the table answers whose items are plain columns or answers of its calls: the rows that WHERE
//! keeps are printed where they lie.
ghost use Rattle.std.specs.Prelude.{◌≡◌, [], true, IfOk, IfSome, None, length};
ghost use Rattle.std.specs.Option.{is_some};
ghost use Rattle.wplan.specs.Plans.{select_plan};
ghost use Rattle.wrows.specs.Outcomes.{Gives};
ghost use Rattle.wset.specs.Running.{live_rows};
ghost use Rattle.wset.specs.Sets.{Becomes};
ghost use Rattle.wplanner.specs.Answers.{select_of};
ghost use Rattle.wplanner.specs.Lent.{ReadsPlaces, is_lent, text_in};
ghost use Rattle.wplanner.specs.Sound.{is_sound_select};
ghost use Rattle.wtable.specs.Few.{MayGive};
ghost use Rattle.wtable.specs.TableOrders.{AreTableOrders, IsOrderFor, by_keys};
ghost use Rattle.wtable.specs.Tables.{rows_of_set};

use crate::beside::{is_unwindowed, rows_text, standing_text};
use crate::parts::item_places;
use crate::placed::PlacedSelect;
use std::alloc::{AllocError, Global};
use wplan::Selection;
use wprinted::Layout;
use wrows::AnswerFault;
use wruns::RowRef;
use wset::SegmentSet;
use wtable::{
    NumberedRows, PresortedOrders, TableOrders, asked_of, few_kept_rows, kept_table_rows,
    numbered_table_rows, presorted_orders, referenced_rows, standing_rows, table_orders,
};

// The text of the rows that WHERE keeps, where these are few.
fn few_text(
    alloc: Global,
    placed: &PlacedSelect,
    set: &SegmentSet,
) -> Result<Option<Vec<u8>>, AnswerFault>
    requires reads { ReadsPlaces (select_plan placed.now.select.now) placed.now.places.now }
    requires sound { is_sound_select (select_plan placed.now.select.now) ≡ true }
    ensures { MayGive (λ bytes. bytes.items) result
        (text_in (select_plan placed.now.select.now) (select_of (select_plan placed.now.select.now) (rows_of_set set.now))) }
{
    let found = few_kept_rows(alloc, placed.select, set)?;
    match found {
        None => Ok(None),
        Some(kept) => {
            let bytes = rows_text(alloc, placed, kept, PresortedOrders::none(alloc))?;
            Ok(Some(bytes))
        }
    }
}

// Whether a SELECT asks for rows of the table as they stand: it keeps all of them, calls for no window and has no order.
fn asks_for_standing(select: &Selection) -> bool
    ensures all { result ≡ true → (select_plan select.now).condition ≡ None }
    ensures unwindowed { result ≡ true → length (select_plan select.now).windows ≡ 0 }
    ensures unordered { result ≡ true → length (select_plan select.now).keys ≡ 0 }
{
    let None = &select.condition else {
        return false;
    };
    if !select.keys.is_empty() {
        return false;
    }
    is_unwindowed(select)
}

// The text of the rows of the table that are asked for, as they stand. No row behind them is listed.
fn front_text(
    alloc: Global,
    placed: &PlacedSelect,
    set: &SegmentSet,
) -> Result<Vec<u8>, AnswerFault>
    requires reads { ReadsPlaces (select_plan placed.now.select.now) placed.now.places.now }
    requires sound { is_sound_select (select_plan placed.now.select.now) ≡ true }
    requires all { (select_plan placed.now.select.now).condition ≡ None }
    requires unwindowed { length (select_plan placed.now.select.now).windows ≡ 0 }
    requires unordered { length (select_plan placed.now.select.now).keys ≡ 0 }
    ensures { Gives (λ bytes. bytes.items) result
        (text_in (select_plan placed.now.select.now) (select_of (select_plan placed.now.select.now) (rows_of_set set.now))) }
{
    let rows = standing_rows(alloc, placed.select, set)?;
    let bytes = standing_text(alloc, placed, &rows, &[], Layout::Contiguous)?;
    Ok(bytes)
}

// The text of the rows that WHERE keeps, where no order of them is presorted: where no order is asked for either, and all are kept, only
// those that are asked for are listed.
fn unordered_text(
    alloc: Global,
    placed: &PlacedSelect,
    set: &SegmentSet,
) -> Result<Vec<u8>, AnswerFault>
    requires reads { ReadsPlaces (select_plan placed.now.select.now) placed.now.places.now }
    requires sound { is_sound_select (select_plan placed.now.select.now) ≡ true }
    ensures { Gives (λ bytes. bytes.items) result
        (text_in (select_plan placed.now.select.now) (select_of (select_plan placed.now.select.now) (rows_of_set set.now))) }
{
    if asks_for_standing(placed.select) {
        return front_text(alloc, placed, set);
    }
    let kept = kept_table_rows(alloc, &placed.select.condition, set)?;
    rows_text(alloc, placed, kept, PresortedOrders::none(alloc))
}

// The text of all rows, whose order references give.
fn referenced_text(
    alloc: Global,
    placed: &PlacedSelect,
    set: &SegmentSet,
    refs: &[RowRef],
) -> Result<Vec<u8>, AnswerFault>
    requires reads { ReadsPlaces (select_plan placed.now.select.now) placed.now.places.now }
    requires sound { is_sound_select (select_plan placed.now.select.now) ≡ true }
    requires unwindowed { length (select_plan placed.now.select.now).windows ≡ 0 }
    requires all { (select_plan placed.now.select.now).condition ≡ None }
    requires order { IsOrderFor (live_rows set.now) (by_keys (select_plan placed.now.select.now).keys []) refs.now }
    ensures { Gives (λ bytes. bytes.items) result
        (text_in (select_plan placed.now.select.now) (select_of (select_plan placed.now.select.now) (rows_of_set set.now))) }
{
    let rows = referenced_rows(alloc, set, refs)?;
    let bytes = standing_text(alloc, placed, &rows, &[], Layout::Scattered)?;
    Ok(bytes)
}

// The text of all rows, whose order references may give.
fn all_text(
    alloc: Global,
    placed: &PlacedSelect,
    set: &SegmentSet,
    orders: &TableOrders,
) -> Result<Vec<u8>, AnswerFault>
    requires reads { ReadsPlaces (select_plan placed.now.select.now) placed.now.places.now }
    requires sound { is_sound_select (select_plan placed.now.select.now) ≡ true }
    requires unwindowed { length (select_plan placed.now.select.now).windows ≡ 0 }
    requires all { (select_plan placed.now.select.now).condition ≡ None }
    requires orders { AreTableOrders (live_rows set.now) (select_plan placed.now.select.now).keys orders.now }
    ensures { Gives (λ bytes. bytes.items) result
        (text_in (select_plan placed.now.select.now) (select_of (select_plan placed.now.select.now) (rows_of_set set.now))) }
{
    match &orders.keys {
        None => unordered_text(alloc, placed, set),
        Some(refs) => referenced_text(alloc, placed, set, refs),
    }
}

// The text of the rows that WHERE keeps, of which some orders are presorted by those of all rows. Where all are kept and nothing calls
// for a window, their numbers are not needed.
fn presorted_text(
    alloc: Global,
    placed: &PlacedSelect,
    set: &SegmentSet,
    orders: TableOrders,
) -> Result<Vec<u8>, AnswerFault>
    requires reads { ReadsPlaces (select_plan placed.now.select.now) placed.now.places.now }
    requires sound { is_sound_select (select_plan placed.now.select.now) ≡ true }
    requires orders { AreTableOrders (live_rows set.now) (select_plan placed.now.select.now).keys orders }
    ensures { Gives (λ bytes. bytes.items) result
        (text_in (select_plan placed.now.select.now) (select_of (select_plan placed.now.select.now) (rows_of_set set.now))) }
{
    if placed.select.condition.is_none() && is_unwindowed(placed.select) {
        return all_text(alloc, placed, set, &orders);
    }
    let kept = numbered_table_rows(alloc, &placed.select.condition, set)?;
    let presorted = presorted_orders(alloc, orders, &kept)?;
    let NumberedRows { rows, .. } = kept;
    rows_text(alloc, placed, rows, presorted)
}

// The text of the rows that WHERE keeps, whose orders are taken from runs, where they are by columns.
fn text_by_runs(
    alloc: Global,
    placed: &PlacedSelect,
    set: &mut SegmentSet,
) -> Result<Vec<u8>, AnswerFault>
    requires reads { ReadsPlaces (select_plan placed.now.select.now) placed.now.places.now }
    requires sound { is_sound_select (select_plan placed.now.select.now) ≡ true }
    ensures text { Gives (λ bytes. bytes.items) result
        (text_in (select_plan placed.now.select.now) (select_of (select_plan placed.now.select.now) (rows_of_set set.old))) }
    ensures same { Becomes set.old set.old.view set.new }
{
    let orders = table_orders(alloc, placed.select, set)?;
    if orders.is_none() {
        unordered_text(alloc, placed, set)
    } else {
        presorted_text(alloc, placed, set, orders)
    }
}

/// The text of what a SELECT answers on the rows of the set's live segments, whose items are columns and answers of calls at some
/// places. The rows are printed where they lie, and no value of theirs is copied, but where calls stand behind them and an order is
/// asked for that no run tells. What the set knows stays as it is; runs may be made.
pub(crate) fn lent_text(
    alloc: Global,
    placed: &PlacedSelect,
    set: &mut SegmentSet,
) -> Result<Vec<u8>, AnswerFault>
    requires reads { ReadsPlaces (select_plan placed.now.select.now) placed.now.places.now }
    requires sound { is_sound_select (select_plan placed.now.select.now) ≡ true }
    ensures text { Gives (λ bytes. bytes.items) result
        (text_in (select_plan placed.now.select.now) (select_of (select_plan placed.now.select.now) (rows_of_set set.old))) }
    ensures same { Becomes set.old set.old.view set.new }
{
    let few = few_text(alloc, placed, set)?;
    match few {
        Some(bytes) => Ok(bytes),
        None => text_by_runs(alloc, placed, set),
    }
}

/// The places of a SELECT's items, where it groups no rows and each item is a plain column or the answer of a call; none where so
/// few rows of an order are asked for that they are selected.
pub(crate) fn lent_places(
    alloc: Global,
    select: &Selection,
) -> Result<Option<Vec<usize>>, AllocError>
    ensures places { IfOk result (λ found. IfSome found (λ places. ReadsPlaces (select_plan select.now) places.items)) }
    ensures found { IfOk result (λ found. is_some found ≡ is_lent select.now) }
{
    if select.grouping.is_some() {
        return Ok(None);
    }
    if is_unwindowed(select) && !select.keys.is_empty() && asked_of(select).is_selected() {
        return Ok(None);
    }
    item_places(alloc, &select.items)
}
