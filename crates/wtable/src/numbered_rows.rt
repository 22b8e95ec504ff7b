//! The rows that WHERE keeps, with what tells the number among them of each row of the table.
ghost use Rattle.std.specs.Prelude.{◌≡◌, ◌<◌, ◌^◌, ◌++◌, ◌∷◌, [], if◌then◌else◌, IfOk, List, None, OnOk};
ghost use Rattle.std.specs.Prelude.{Option, Some, filter, length, map, min, nat_lt, slice_index_or};
ghost use Rattle.std.specs.List.{list_any};
ghost use Rattle.wvalues.specs.Meaning.{meaning};
ghost use Rattle.wplan.specs.Formula.{Formula, formula};
ghost use Rattle.wplan.specs.Plans.{optional_formula};
ghost use Rattle.wrows.specs.declared.fault.AnswerFault.TheVariants.{OutOfRange};
ghost use Rattle.wrows.specs.Columns.{Row, held_rows, holds_on, is_out_of_range};
ghost use Rattle.wrows.specs.Laid.{rows_seen};
ghost use Rattle.wrows.specs.Outcomes.{Gives, unless};
ghost use Rattle.wrows.specs.Plain.{kept_of};
ghost use Rattle.wset.specs.Running.{live_rows};
ghost use Rattle.wtable.specs.TableOrders.{AreNumbers, IsNumbered, all_present, left_out, number_among, number_in};
ghost use Rattle.wtable.specs.TableOrders.{number_kept, numbers_kept, presorted_numbers, starts_from};
ghost use Rattle.wtable.specs.Tables.{rows_of_set};

use crate::counting::row_count;
use crate::kept_rows::{push_rows, push_where};
use std::alloc::{AllocError, Global};
use wplan::Expr;
use wrows::{AnswerFault, Condition, not_too_many};
use wruns::RowRef;
use wset::{Kept, SegmentSet};
use wvalues::Value;

/// The number of a row that is left out.
const LEFT_OUT: u32 = u32::MAX;

/// Rows of the table that WHERE keeps, and what tells the number among them of each row of the table.
#[derive(Drop)]
pub struct NumberedRows<'a> {
    /// The kept rows, by name and then by place. Their numbers count from 0.
    pub rows: Vec<&'a [Value]>,
    /// For each live segment, by name, how many rows of the table stand before its first one.
    pub starts: Vec<usize>,
    /// For each row of the table, by name and then by place, its number among the kept rows, `u32::MAX` where it is left out.
    /// None where there is no condition: then all rows are kept, and the number of each is its place in the table.
    pub numbers: Option<Vec<u32>>,
}

// The number of a row, where so many rows are kept before it, and so many with it.
fn number_of(before: usize, with: usize) -> u32
    ensures { result ≡ (if nat_lt before with then min before left_out else left_out) }
{
    if before < with && before < LEFT_OUT as usize {
        before as u32
    } else {
        LEFT_OUT
    }
}

// Appends a row, if a condition is true on it, and its number among those that are held.
#[inline(always)]
fn push_numbered<'a>(
    held: &mut Vec<&'a [Value]>,
    numbers: &mut Vec<u32>,
    condition: &Condition,
    row: &'a [Value],
) -> Result<(), AnswerFault>
    ensures gives { Gives (λ u. u) result (unless (is_out_of_range (formula condition.now.expr.now) (map meaning row.entry.now))
        OutOfRange tt) }
    ensures added { OnOk result (rows_seen held.new.items ≡ (if holds_on (formula condition.now.expr.now) (map meaning row.entry.now)
        then rows_seen held.old.items ++ map meaning row.entry.now ∷ [] else rows_seen held.old.items)) }
    ensures numbered { OnOk result (numbers.new.items ≡ numbers.old.items ++ numbers_kept (holds_on (formula condition.now.expr.now))
        (length held.old.items) (map meaning row.entry.now ∷ [])) }
{
    let before = held.len();
    push_where(held, condition, row)?;
    numbers.push(number_of(before, held.len()))?;
    Ok(())
}

// Appends the rows of a segment on which a condition is true, and the number of each of its rows among those that are held.
fn push_rows_numbered<'a>(
    held: &mut Vec<&'a [Value]>,
    numbers: &mut Vec<u32>,
    condition: &Condition,
    kept: &'a Kept,
) -> Result<(), AnswerFault>
    ensures gives { Gives (λ u. u) result (unless (list_any (is_out_of_range (formula condition.now.expr.now)) kept.now.content.rows)
        OutOfRange tt) }
    ensures added { OnOk result (rows_seen held.new.items ≡ rows_seen held.old.items ++ filter
        (holds_on (formula condition.now.expr.now)) kept.now.content.rows) }
    ensures numbered { OnOk result (numbers.new.items ≡ numbers.old.items ++ numbers_kept (holds_on (formula condition.now.expr.now))
        (length held.old.items) kept.now.content.rows) }
{
    let segment = kept.segment()?;
    numbers.reserve(segment.rows())?;
    for row in 0..segment.rows() {
        push_numbered(held, numbers, condition, segment.row(row))?;
    }
    Ok(())
}

// The rows of all live segments on which a condition is true, with the number of each row of the table among them.
fn rows_where<'a>(
    alloc: Global,
    condition: &Condition,
    set: &'a SegmentSet,
) -> Result<NumberedRows<'a>, AnswerFault>
    ensures rows { Gives (λ kept. rows_seen kept.rows.items) result (held_rows (Some (formula condition.now.expr.now))
        (rows_of_set set.now)) }
    ensures starts { IfOk result (λ kept. kept.starts.items ≡ starts_from 0 (live_rows set.now)) }
    ensures numbers { IfOk result (λ kept. AreNumbers (Some (formula condition.now.expr.now)) (rows_of_set set.now) kept.numbers) }
    ensures fit { IfOk result (λ kept. length (rows_of_set set.now) < 2 ^ 64) }
{
    let mut rows = Vec::new(alloc);
    let mut starts = Vec::new(alloc);
    let mut numbers = Vec::with_capacity(alloc, row_count(set))?;
    'segments: for (_, segment) in set.lives() {
        starts.push(numbers.len())?;
        push_rows_numbered(&mut rows, &mut numbers, condition, segment)?;
    }
    Ok(NumberedRows {
        rows,
        starts,
        numbers: Some(numbers),
    })
}

// The rows of all live segments, and where those of each begin.
fn all_rows(alloc: Global, set: &SegmentSet) -> Result<NumberedRows<'_>, AllocError>
    ensures rows { IfOk result (λ kept. rows_seen kept.rows.items ≡ rows_of_set set.now) }
    ensures starts { IfOk result (λ kept. kept.starts.items ≡ starts_from 0 (live_rows set.now)) }
    ensures numbers { IfOk result (λ kept. kept.numbers ≡ None) }
    ensures fit { IfOk result (λ kept. length (rows_of_set set.now) < 2 ^ 64) }
{
    let mut rows = Vec::with_capacity(alloc, row_count(set))?;
    let mut starts = Vec::new(alloc);
    'segments: for (_, segment) in set.lives() {
        starts.push(rows.len())?;
        push_rows(&mut rows, segment)?;
    }
    Ok(NumberedRows {
        rows,
        starts,
        numbers: None,
    })
}

// The rows of all live segments on which a condition is true, all, where there is none, with what tells their numbers.
fn rows_held<'a>(
    alloc: Global,
    condition: &Option<Expr>,
    set: &'a SegmentSet,
) -> Result<NumberedRows<'a>, AnswerFault>
    ensures rows { Gives (λ kept. rows_seen kept.rows.items) result (held_rows (optional_formula condition.now) (rows_of_set set.now)) }
    ensures starts { IfOk result (λ kept. kept.starts.items ≡ starts_from 0 (live_rows set.now)) }
    ensures numbers { IfOk result (λ kept. AreNumbers (optional_formula condition.now) (rows_of_set set.now) kept.numbers) }
    ensures fit { IfOk result (λ kept. length (rows_of_set set.now) < 2 ^ 64) }
{
    match condition {
        None => {
            let kept = all_rows(alloc, set)?;
            Ok(kept)
        }
        Some(condition) => {
            let condition = Condition::new(alloc, condition)?;
            rows_where(alloc, &condition, set)
        }
    }
}

/// The rows of all live segments that a condition keeps, all, where there is none, with what tells the number among them of
/// each row of the table. They stay where they lie.
///
/// The condition is evaluated on every row: `OutOfRange` where a number is so on any of them. `TooManyRows` where more than
/// 2,147,483,647 rows are kept, `NoMemory` where memory is refused, or of a set whose cells are not made (`SegmentSet::make`).
pub fn numbered_table_rows<'a>(
    alloc: Global,
    condition: &Option<Expr>,
    set: &'a SegmentSet,
) -> Result<NumberedRows<'a>, AnswerFault>
    ensures rows { Gives (λ kept. rows_seen kept.rows.items) result (kept_of (optional_formula condition.now) (rows_of_set set.now)) }
    ensures numbered { IfOk result (IsNumbered (optional_formula condition.now) (live_rows set.now)) }
{
    let NumberedRows {
        rows,
        starts,
        numbers,
    } = rows_held(alloc, condition, set)?;
    let rows = not_too_many(rows)?;
    Ok(NumberedRows {
        rows,
        starts,
        numbers,
    })
}

// Where the rows of a segment begin, 0 where there is no such segment.
fn start_of(starts: &[usize], segment: u32) -> usize
    ensures { result ≡ slice_index_or starts.now segment 0 }
{
    let place = segment as usize;
    if place < starts.len() {
        starts[place]
    } else {
        0
    }
}

// The number of a row among those that are kept, if it is kept, by its number in the table.
fn number_at(numbers: &[u32], number: usize) -> Option<usize>
    ensures { result ≡ number_kept (slice_index_or numbers.now number left_out) }
{
    if number < numbers.len() && numbers[number] < LEFT_OUT {
        Some(numbers[number] as usize)
    } else {
        None
    }
}

// The number of a row among those that are kept, if it is kept.
fn number_among(kept: &NumberedRows, row: &RowRef) -> Option<usize>
    ensures { result ≡ number_among kept.now.numbers (number_in kept.now.starts.items row.now) }
{
    let start = start_of(&kept.starts, row.segment);
    let number = start.saturating_add(row.row as usize);
    match &kept.numbers {
        None => Some(number),
        Some(numbers) => number_at(numbers, number),
    }
}

// Appends a number, if there is one. Rows whose numbers are of more than 32 bits are too many to be held, so there is none such.
fn push_present(numbers: &mut Vec<u32>, number: Option<usize>) -> Result<(), AllocError>
    ensures { OnOk result (numbers.new.items ≡ numbers.old.items ++ all_present (number ∷ [])) }
{
    let Some(number) = number else {
        return Ok(());
    };
    let Ok(short) = u32::try_from(number) else {
        return Err(AllocError);
    };
    numbers.push(short)?;
    Ok(())
}

/// The numbers, among the rows that are kept, of those of some rows that are kept, in their order.
pub(crate) fn presorted_numbers(
    alloc: Global,
    rows: &[RowRef],
    kept: &NumberedRows,
) -> Result<Vec<u32>, AllocError>
    ensures { IfOk result (λ numbers. numbers.items ≡ presorted_numbers kept.now rows.now) }
{
    let mut numbers = Vec::with_capacity(alloc, kept.rows.len())?;
    for row in rows {
        push_present(&mut numbers, number_among(kept, row))?;
    }
    Ok(numbers)
}
