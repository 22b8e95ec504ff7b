//! The text of rows that stay where they lie, with what calls over windows answer for them beside their cells. A table is made only
//! where calls stand behind rows and an order is asked for that is not presorted.
ghost use Rattle.std.specs.Prelude.{◌≡◌, ◌==◌, ◌≤◌, ◌<◌, ◌^◌, [], true, IfOk, IfSome, None, Ok, length, map, min};
ghost use Rattle.wcolumns.specs.Columns.{columns_seen};
ghost use Rattle.wplan.specs.Plans.{select_plan};
ghost use Rattle.wprinted.specs.Printing.{table_text, values_at};
ghost use Rattle.wrows.specs.Columns.{beside};
ghost use Rattle.wrows.specs.Laid.{rows_in, rows_seen};
ghost use Rattle.wrows.specs.Outcomes.{Gives};
ghost use Rattle.wrows.specs.Picked.{row_beside};
ghost use Rattle.wrows.specs.Plain.{cut};
ghost use Rattle.wplanner.specs.Answers.{items_of, left_items};
ghost use Rattle.wplanner.specs.Lent.{ReadsPlaces, text_in};
ghost use Rattle.wplanner.specs.Sound.{is_sound_select};
ghost use Rattle.wtable.specs.TableOrders.{ArePresorted, by_keys};

use crate::parts::item_names;
use crate::placed::PlacedSelect;
use crate::printing::print;
use crate::selecting::left_items;
use crate::table::Table;
use crate::windows::{call_columns, window_answers};
use crate::work::Work;
use std::alloc::{AllocError, Global};
use wcalls::{key_orders, key_values};
use wcolumns::{Column, LentColumn};
use wplan::Selection;
use wprinted::{Layout, PickedRows, RowsBeside, print_rows};
use wrows::{AnswerFault, Cells, asked_for, lists, sorted_numbers};
use wtable::{PresortedOrders, asked_of};
use wvalues::Value;

// Of numbers in order, those that OFFSET and LIMIT ask for.
fn asked_numbers<'a>(select: &Selection, numbers: &'a [u32]) -> &'a [u32]
    ensures { result.now ≡ cut select.now.offset select.now.limit numbers.now }
{
    let (from, count) = asked_for(asked_of(select), numbers.len());
    &numbers[from..from + count]
}

// The text of rows that have the values of some columns behind their cells, in a presorted order, as many as are asked for.
fn picked_text(
    alloc: Global,
    placed: &PlacedSelect,
    rows: &[&[Value]],
    columns: &[LentColumn],
    numbers: &[u32],
) -> Result<Vec<u8>, AllocError>
    ensures { IfOk result (λ bytes. bytes.items ≡ table_text (map (λ o. o.name) (select_plan placed.now.select.now).items)
        (map (values_at placed.now.places.now) (map (row_beside (rows_seen rows.now) (columns_seen columns.now))
        (cut placed.now.select.now.offset placed.now.select.now.limit numbers.now)))) }
{
    let names = item_names(alloc, &placed.select.items)?;
    let picked = PickedRows {
        rows,
        columns,
        numbers: asked_numbers(placed.select, numbers),
    };
    print_rows(alloc, &names, placed.places, &picked)
}

/// The text of rows that have the values of some columns behind their cells, as they stand, as many as are asked for.
pub(crate) fn standing_text(
    alloc: Global,
    placed: &PlacedSelect,
    rows: &[&[Value]],
    columns: &[LentColumn],
    layout: Layout,
) -> Result<Vec<u8>, AllocError>
    ensures { IfOk result (λ bytes. bytes.items ≡ table_text (map (λ o. o.name) (select_plan placed.now.select.now).items)
        (map (values_at placed.now.places.now) (cut placed.now.select.now.offset placed.now.select.now.limit
        (beside (rows_seen rows.now) (columns_seen columns.now))))) }
{
    let names = item_names(alloc, &placed.select.items)?;
    let (from, count) = asked_for(asked_of(placed.select), rows.len());
    let standing = RowsBeside {
        rows,
        columns,
        from,
        count,
        layout,
    };
    print_rows(alloc, &names, placed.places, &standing)
}

// The text of rows that have the values of some columns behind their cells, in the presorted order where one is asked for.
fn text_beside(
    alloc: Global,
    placed: &PlacedSelect,
    rows: &[&[Value]],
    columns: &[LentColumn],
    presorted: &Option<Vec<u32>>,
) -> Result<Vec<u8>, AllocError>
    requires reads { ReadsPlaces (select_plan placed.now.select.now) placed.now.places.now }
    requires presorted { IfSome presorted.now (λ numbers. by_keys (select_plan placed.now.select.now).keys (columns_seen columns.now)
        (rows_seen rows.now) ≡ Ok numbers.items) }
    requires standing { presorted.now ≡ None → length (select_plan placed.now.select.now).keys ≡ 0 }
    ensures { IfOk result (λ bytes. text_in (select_plan placed.now.select.now)
        (items_of (select_plan placed.now.select.now) (beside (rows_seen rows.now) (columns_seen columns.now))) ≡ Ok bytes.items) }
{
    match presorted {
        None => standing_text(alloc, placed, rows, columns, Layout::Contiguous),
        Some(numbers) => picked_text(alloc, placed, rows, columns, numbers),
    }
}

// The text of rows with what the calls answer behind their cells, in the presorted order where one is asked for.
fn called_text(
    alloc: Global,
    placed: &PlacedSelect,
    rows: &[&[Value]],
    presorted: PresortedOrders,
) -> Result<Vec<u8>, AnswerFault>
    requires reads { ReadsPlaces (select_plan placed.now.select.now) placed.now.places.now }
    requires sound { is_sound_select (select_plan placed.now.select.now) ≡ true }
    requires few { length rows.now < 2 ^ 31 }
    requires presorted { ArePresorted (rows_seen rows.now) (select_plan placed.now.select.now).keys presorted }
    requires standing { presorted.keys ≡ None → length (select_plan placed.now.select.now).keys ≡ 0 }
    ensures { Gives (λ bytes. bytes.items) result
        (text_in (select_plan placed.now.select.now) (left_items (select_plan placed.now.select.now) (rows_seen rows.now))) }
{
    let PresortedOrders { windows, keys } = presorted;
    let mut work = Work::new();
    let answers = window_answers(
        alloc,
        &placed.select.windows,
        &placed.select.calls,
        &*rows,
        windows,
        &mut work,
    )?;
    let none = Column::none(alloc);
    let columns = call_columns(alloc, &answers, &none, &placed.select.calls)?;
    let bytes = text_beside(alloc, placed, rows, &columns, &keys)?;
    Ok(bytes)
}

// The numbers of rows in the order of ORDER BY, where nothing stands behind their cells.
fn key_numbers(
    alloc: Global,
    select: &Selection,
    rows: &[&[Value]],
) -> Result<Vec<u32>, AnswerFault>
    ensures { Gives (λ numbers. numbers.items) result (by_keys (select_plan select.now).keys [] (rows_seen rows.now)) }
{
    let keys = key_values(alloc, &select.keys)?;
    let order = key_orders(alloc, &select.keys)?;
    let cells = lists(alloc, &keys, rows)?;
    let numbers = sorted_numbers(alloc, &cells, &order, rows.len())?;
    Ok(numbers)
}

// The text of rows that are put in order by themselves, where nothing calls for a window.
fn sorted_text(
    alloc: Global,
    placed: &PlacedSelect,
    rows: &[&[Value]],
) -> Result<Vec<u8>, AnswerFault>
    requires reads { ReadsPlaces (select_plan placed.now.select.now) placed.now.places.now }
    requires sound { is_sound_select (select_plan placed.now.select.now) ≡ true }
    requires unwindowed { length (select_plan placed.now.select.now).windows ≡ 0 }
    ensures { Gives (λ bytes. bytes.items) result
        (text_in (select_plan placed.now.select.now) (left_items (select_plan placed.now.select.now) (rows_seen rows.now))) }
{
    let numbers = key_numbers(alloc, placed.select, rows)?;
    let bytes = picked_text(alloc, placed, rows, &[], &numbers)?;
    Ok(bytes)
}

// The items of rows that are put in order by themselves, whose list is let go.
fn made_items(
    alloc: Global,
    select: &Selection,
    rows: Vec<&[Value]>,
    presorted: PresortedOrders,
    work: &mut Work,
) -> Result<Cells, AnswerFault>
    requires sound { is_sound_select (select_plan select.now) ≡ true }
    requires few { length rows.items < 2 ^ 31 }
    requires presorted { ArePresorted (rows_seen rows.items) (select_plan select.now).keys presorted }
    ensures rows { Gives rows_in result (left_items (select_plan select.now) (rows_seen rows.entry.items)) }
    ensures width { IfOk result (λ cells. cells.width ≡ length select.now.items.items) }
{
    left_items(alloc, select, &rows, presorted, work)
}

// The text of the items of rows that are put in order by themselves, of which a table is made.
fn made_text(
    alloc: Global,
    select: &Selection,
    rows: Vec<&[Value]>,
    presorted: PresortedOrders,
) -> Result<Vec<u8>, AnswerFault>
    requires sound { is_sound_select (select_plan select.now) ≡ true }
    requires few { length rows.items < 2 ^ 31 }
    requires presorted { ArePresorted (rows_seen rows.items) (select_plan select.now).keys presorted }
    ensures { Gives (λ bytes. bytes.items) result
        (text_in (select_plan select.now) (left_items (select_plan select.now) (rows_seen rows.entry.items))) }
{
    let mut work = Work::new();
    let cells = made_items(alloc, select, rows, presorted, &mut work)?;
    let names = item_names(alloc, &select.items)?;
    let table = Table::new(names, cells, &work);
    let bytes = print(alloc, &table)?;
    Ok(bytes)
}

// Whether no order is asked for, or that which is asked for is presorted.
fn is_presorted(select: &Selection, presorted: &PresortedOrders) -> bool
    ensures { result ≡ true → presorted.now.keys ≡ None → length (select_plan select.now).keys ≡ 0 }
{
    if select.keys.is_empty() {
        return true;
    }
    presorted.keys.is_some()
}

/// Whether a SELECT calls for no window.
pub(crate) fn is_unwindowed(select: &Selection) -> bool
    ensures plan { result ≡ true → length (select_plan select.now).windows ≡ 0 }
    ensures exact { result ≡ (length select.now.windows.items == 0) }
{
    select.windows.is_empty()
}

/// The text of rows, of which some orders are presorted. Where the order that is asked for is not, they are put in order by themselves,
/// and a table is made where the calls of windows stand behind them.
pub(crate) fn rows_text(
    alloc: Global,
    placed: &PlacedSelect,
    rows: Vec<&[Value]>,
    presorted: PresortedOrders,
) -> Result<Vec<u8>, AnswerFault>
    requires reads { ReadsPlaces (select_plan placed.now.select.now) placed.now.places.now }
    requires sound { is_sound_select (select_plan placed.now.select.now) ≡ true }
    requires few { length rows.items < 2 ^ 31 }
    requires presorted { ArePresorted (rows_seen rows.items) (select_plan placed.now.select.now).keys presorted }
    ensures { Gives (λ bytes. bytes.items) result
        (text_in (select_plan placed.now.select.now) (left_items (select_plan placed.now.select.now) (rows_seen rows.entry.items))) }
{
    if is_presorted(placed.select, &presorted) {
        called_text(alloc, placed, &rows, presorted)
    } else if is_unwindowed(placed.select) {
        sorted_text(alloc, placed, &rows)
    } else {
        made_text(alloc, placed.select, rows, presorted)
    }
}
