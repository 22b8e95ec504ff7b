//! The columns of the calls with OVER.
ghost use Rattle.std.specs.Prelude.{◌≡◌, ◌≤◌, ◌<◌, ◌+◌, ◌-◌, ◌^◌, if◌then◌else◌, [], true, length, map, min, slice_index_or};
ghost use Rattle.std.specs.Prelude.{IfOk, OnOk};
ghost use Rattle.std.specs.List.{list_all, list_any};
ghost use Rattle.wcolumns.specs.Columns.{column_seen, columns_in, columns_seen};
ghost use Rattle.wplan.specs.Plans.{call_plan, window_plan};
ghost use Rattle.wshare.specs.Sameness.{is_same_order};
ghost use Rattle.wrows.specs.Outcomes.{Gives};
ghost use Rattle.wrows.specs.Laid.{rows_seen};
ghost use Rattle.wcalls.specs.Frames.{frame_of};
ghost use Rattle.wcalls.specs.Functions.{window_columns};
ghost use Rattle.wcalls.specs.Joins.{most_of_functions};
ghost use Rattle.wcalls.specs.Lent.{functions_seen};
ghost use Rattle.wcalls.specs.Sound.{is_sound_function, is_sound_window};
ghost use Rattle.wplanner.specs.ByWindow.{columns_from, columns_of_calls, functions_over, most_from};
ghost use Rattle.wplanner.specs.KeptOrders.{AreOrdersOf, serves};
ghost use Rattle.wplanner.specs.Sound.{is_sound_call};
ghost use Rattle.wtable.specs.TableOrders.{ArePresortedOf};

use crate::orders::{KeptOrder, keep_shared, order_of};
use crate::work::Work;
use std::alloc::{AllocError, Global};
use wcalls::window_columns;
use wcolumns::{Column, LentColumn};
use wplan::{CallOver, ResolvedWindow, WindowFunction};
use wrows::AnswerFault;
use wtable::PresortedOrder;
use wvalues::Value;

// The functions of the calls over the window of a number.
fn functions_over(
    alloc: Global,
    calls: &[CallOver],
    window: usize,
) -> Result<Vec<&WindowFunction>, AllocError>
    ensures { IfOk result (λ functions. functions_seen functions.items ≡ functions_over (map call_plan calls.now) window) }
{
    let mut functions = Vec::new(alloc);
    for call in calls {
        if call.window == window {
            functions.push(&call.function)?;
        }
    }
    Ok(functions)
}

// The columns of the functions over the window of a number. Its order is kept for the later windows that share it, and none
// is made where one that it shares is kept.
fn answers_over<'a>(
    alloc: Global,
    window: &'a ResolvedWindow,
    number: usize,
    later: &[ResolvedWindow],
    calls: &[CallOver],
    rows: &'a [&'a [Value]],
    kept: &mut Vec<KeptOrder<'a>>,
    presorted: &mut Vec<PresortedOrder>,
    work: &mut Work,
) -> Result<Vec<Column<'a>>, AnswerFault>
    requires few { length rows.now < 2 ^ 31 }
    requires window { is_sound_window (window_plan window.now) ≡ true }
    requires functions { list_all is_sound_function (functions_over (map call_plan calls.now) number) ≡ true }
    requires kept { AreOrdersOf (rows_seen rows.now) kept.old.items }
    requires presorted { ArePresortedOf (rows_seen rows.now) presorted.old.items }
    ensures columns { Gives columns_in result (window_columns (window_plan window.now)
        (functions_over (map call_plan calls.now) number) (rows_seen rows.now)) }
    ensures kept { AreOrdersOf (rows_seen rows.now) kept.new.items }
    ensures presorted { ArePresortedOf (rows_seen rows.now) presorted.new.items }
    ensures let_go { OnOk result (length kept.new.items + (if list_any (serves window.entry.now) kept.old.items then 1 else 0)
        ≡ length kept.old.items + (if list_any (is_same_order window.entry.now) later.now then 1 else 0)) }
    ensures made { work.new.orders ≤ work.old.orders + (if list_any (serves window.entry.now) kept.old.items then 0 else 1) }
    ensures counted { OnOk result (work.new.orders ≡ (if list_any (serves window.entry.now) kept.old.items then work.old.orders
        else min (work.old.orders + 1) (2 ^ 64 - 1))) }
    ensures joins { work.new.joins ≤ work.old.joins + most_of_functions
        (frame_of (window_plan window.entry.now).frame).exclusion (length rows.now) (functions_over (map call_plan calls.now) number) }
{
    let functions = functions_over(alloc, calls, number)?;
    let order = order_of(alloc, window, rows, kept, presorted, &mut work.orders)?;
    let columns = window_columns(alloc, window, &order, &functions, rows, &mut work.joins)?;
    keep_shared(kept, window, order, later)?;
    Ok(columns)
}

/// For each window the columns of the functions of its calls. Windows that order rows alike share one order, so there is at
/// most one for each window; where the rows are presorted in it, nothing is sorted. The joins are those of its aggregates.
pub(crate) fn window_answers<'a>(
    alloc: Global,
    windows: &'a [ResolvedWindow],
    calls: &[CallOver],
    rows: &'a [&'a [Value]],
    presorted: Vec<PresortedOrder>,
    work: &mut Work,
) -> Result<Vec<Vec<Column<'a>>>, AnswerFault>
    requires few { length rows.now < 2 ^ 31 }
    requires windows { list_all is_sound_window (map window_plan windows.now) ≡ true }
    requires calls { list_all (is_sound_call (length windows.now)) (map call_plan calls.now) ≡ true }
    requires presorted { ArePresortedOf (rows_seen rows.now) presorted.items }
    ensures made { work.new.orders ≤ work.old.orders + length windows.now }
    ensures joins { work.new.joins ≤ work.old.joins + most_from (length rows.now) (map call_plan calls.now) 0
        (map window_plan windows.now) }
    ensures answers { Gives (λ answers. map columns_in answers.items) result
        (columns_from (rows_seen rows.now) (map call_plan calls.now) 0 (map window_plan windows.now)) }
{
    let mut answers = Vec::with_capacity(alloc, windows.len())?;
    let mut kept = Vec::new(alloc);
    let mut presorted = presorted;
    for (number, window) in windows.iter().enumerate() {
        let later = &windows[number + 1..];
        match answers_over(
            alloc,
            window,
            number,
            later,
            calls,
            rows,
            &mut kept,
            &mut presorted,
            work,
        ) {
            Err(fault) => return Err(fault),
            Ok(columns) => answers.push(columns)?,
        }
    }
    Ok(answers)
}

// How many calls are over the window of a number.
fn count_over(calls: &[CallOver], window: usize) -> usize
    ensures { result ≡ length (functions_over (map call_plan calls.now) window) }
{
    let mut count = 0;
    for call in calls {
        if call.window == window {
            count += 1;
        }
    }
    count
}

// The column of a number, or this one of no rows where there is none.
fn column_at<'a, 'b>(
    columns: &'a [Column<'b>],
    none: &'a Column<'b>,
    number: usize,
) -> &'a Column<'b>
    requires { column_seen none.now ≡ [] }
    ensures { column_seen result.now ≡ slice_index_or (map column_seen columns.now) number [] }
{
    if number < columns.len() {
        &columns[number]
    } else {
        none
    }
}

// The column of a number among those of a window, or this one of no rows where there is none.
fn column_over<'a, 'b>(
    answers: &'a [Vec<Column<'b>>],
    none: &'a Column<'b>,
    window: usize,
    number: usize,
) -> &'a Column<'b>
    requires { column_seen none.now ≡ [] }
    ensures { column_seen result.now ≡ slice_index_or (slice_index_or (map columns_in answers.now) window []) number [] }
{
    if window < answers.len() {
        column_at(&answers[window], none, number)
    } else {
        none
    }
}

/// The columns of the calls, in their order, and this one of no rows for a call without one.
pub(crate) fn call_columns<'a, 'b>(
    alloc: Global,
    answers: &'a [Vec<Column<'b>>],
    none: &'a Column<'b>,
    calls: &[CallOver],
) -> Result<Vec<LentColumn<'a>>, AllocError>
    requires { column_seen none.now ≡ [] }
    ensures { IfOk result (λ columns. columns_seen columns.items ≡ columns_of_calls (map columns_in answers.now) (map call_plan calls.now)) }
{
    let mut columns = Vec::with_capacity(alloc, calls.len())?;
    for (number, call) in calls.iter().enumerate() {
        let earlier = count_over(&calls[..number], call.window);
        let column = column_over(answers, none, call.window, earlier);
        columns.push(LentColumn { column })?;
    }
    Ok(columns)
}
