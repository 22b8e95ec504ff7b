//! The table's rows, as the live segments of a set have them.
ghost use Rattle.std.specs.Prelude.{◌≡◌, ◌+◌, ◌<◌, ◌≤◌, ◌∷◌, ◌++◌, [], if◌then◌else◌, false, true, IfNone, IfOk, IfSome};
ghost use Rattle.std.specs.Prelude.{OnOk, Some, filter, length, map};
ghost use Rattle.std.specs.List.{list_any};
ghost use Rattle.wvalues.specs.Meaning.{meaning};
ghost use Rattle.weval.specs.NumberTests.{passes_all};
ghost use Rattle.wplan.specs.Formula.{formula};
ghost use Rattle.wplan.specs.Plans.{optional_formula};
ghost use Rattle.wrows.specs.declared.fault.AnswerFault.TheVariants.{OutOfRange};
ghost use Rattle.wrows.specs.Columns.{held_rows, holds_on, is_out_of_range};
ghost use Rattle.wrows.specs.Laid.{rows_seen};
ghost use Rattle.wrows.specs.Outcomes.{Gives, unless};
ghost use Rattle.wrows.specs.Plain.{kept_of};
ghost use Rattle.wtable.specs.Few.{GivesAtEnd, KeepsMany, MayGive, asks_for_orders as are_orders_asked};
ghost use Rattle.wplan.specs.declared.expr.Expr as expr;
ghost use Rattle.wtable.specs.Tables.{rows_of_set};

use crate::counting::row_count;
use crate::orders::asks_for_orders;
use std::alloc::{AllocError, Global};
use weval::NumberTests;
use wplan::{Expr, Selection};
use wrows::{AnswerFault, Condition, not_too_many};
use wsegment::Segment;
use wset::{Kept, SegmentSet};
use wvalues::Value;

/// A condition keeps few rows where there are at least so many of the table for each of them. To sort the kept rows then costs
/// no more than to take them out of an order of all rows that is at hand, and less than to make one.
const MANY_TIMES: usize = 4;

/// Appends the rows of a segment, which stay where they lie.
pub(crate) fn push_rows<'a>(rows: &mut Vec<&'a [Value]>, kept: &'a Kept) -> Result<(), AllocError>
    ensures { OnOk result (rows_seen rows.new.items ≡ rows_seen rows.old.items ++ kept.now.content.rows) }
{
    let segment = kept.segment()?;
    rows.reserve(segment.rows())?;
    for row in 0..segment.rows() {
        rows.push(segment.row(row))?;
    }
    Ok(())
}

// The rows of all live segments, by name and then by place. They stay where they lie.
fn table_rows(alloc: Global, set: &SegmentSet) -> Result<Vec<&[Value]>, AllocError>
    ensures { IfOk result (λ rows. rows_seen rows.items ≡ rows_of_set set.now) }
{
    let mut rows = Vec::with_capacity(alloc, row_count(set))?;
    'segments: for (_, segment) in set.lives() {
        push_rows(&mut rows, segment)?;
    }
    Ok(rows)
}

/// Appends a row, if a condition is true on it.
#[inline(always)]
pub(crate) fn push_where<'a>(
    held: &mut Vec<&'a [Value]>,
    condition: &Condition,
    row: &'a [Value],
) -> Result<(), AnswerFault>
    ensures gives { Gives (λ u. u) result (unless (is_out_of_range (formula condition.now.expr.now) (map meaning row.entry.now))
        OutOfRange tt) }
    ensures added { OnOk result (rows_seen held.new.items ≡ (if holds_on (formula condition.now.expr.now) (map meaning row.entry.now)
        then rows_seen held.old.items ++ map meaning row.entry.now ∷ [] else rows_seen held.old.items)) }
{
    if condition.holds(row)? {
        held.push(row)?;
    }
    Ok(())
}

// Appends a row, if it passes some tests.
#[inline(always)]
fn push_passing<'a>(
    held: &mut Vec<&'a [Value]>,
    tests: &NumberTests,
    row: &'a [Value],
) -> Result<(), AllocError>
    ensures { OnOk result (rows_seen held.new.items ≡ (if passes_all tests.now.tests.items (map meaning row.entry.now)
        then rows_seen held.old.items ++ map meaning row.entry.now ∷ [] else rows_seen held.old.items)) }
{
    if tests.pass(row) {
        held.push(row)?;
    }
    Ok(())
}

// Appends the rows of a segment that pass some tests. They stay where they lie. The loop calls nothing.
fn push_all_passing<'a>(
    held: &mut Vec<&'a [Value]>,
    tests: &NumberTests,
    segment: &'a Segment,
) -> Result<(), AllocError>
    ensures { OnOk result (rows_seen held.new.items ≡ rows_seen held.old.items ++ filter (passes_all tests.now.tests.items)
        segment.now.rows) }
{
    for row in 0..segment.rows() {
        push_passing(held, tests, segment.row(row))?;
    }
    Ok(())
}

// Appends the rows of a segment on which a condition is true. They stay where they lie.
fn push_all_where<'a>(
    held: &mut Vec<&'a [Value]>,
    condition: &Condition,
    segment: &'a Segment,
) -> Result<(), AnswerFault>
    ensures gives { Gives (λ u. u) result (unless (list_any (is_out_of_range (formula condition.now.expr.now)) segment.now.rows)
        OutOfRange tt) }
    ensures added { OnOk result (rows_seen held.new.items ≡ rows_seen held.old.items ++ filter
        (holds_on (formula condition.now.expr.now)) segment.now.rows) }
{
    for row in 0..segment.rows() {
        push_where(held, condition, segment.row(row))?;
    }
    Ok(())
}

// Appends the rows of a kept segment on which a condition is true, by its tests where it has some.
fn push_rows_where<'a>(
    held: &mut Vec<&'a [Value]>,
    condition: &Condition,
    kept: &'a Kept,
) -> Result<(), AnswerFault>
    ensures gives { Gives (λ u. u) result (unless (list_any (is_out_of_range (formula condition.now.expr.now)) kept.now.content.rows)
        OutOfRange tt) }
    ensures added { OnOk result (rows_seen held.new.items ≡ rows_seen held.old.items ++ filter
        (holds_on (formula condition.now.expr.now)) kept.now.content.rows) }
{
    let segment = kept.segment()?;
    match &condition.tests {
        Some(tests) => {
            push_all_passing(held, tests, segment)?;
            Ok(())
        }
        None => push_all_where(held, condition, segment),
    }
}

// The rows of all live segments on which a condition is true, in their order. No list of the others is made.
fn rows_where<'a>(
    alloc: Global,
    condition: &Condition,
    set: &'a SegmentSet,
) -> Result<Vec<&'a [Value]>, AnswerFault>
    ensures { Gives (λ held. rows_seen held.items) result (held_rows (Some (formula condition.now.expr.now)) (rows_of_set set.now)) }
{
    let mut held = Vec::new(alloc);
    'segments: for (_, segment) in set.lives() {
        push_rows_where(&mut held, condition, segment)?;
    }
    Ok(held)
}

// The rows of all live segments on which a condition is true: all, where there is none.
fn rows_held<'a>(
    alloc: Global,
    condition: &Option<Expr>,
    set: &'a SegmentSet,
) -> Result<Vec<&'a [Value]>, AnswerFault>
    ensures { Gives (λ held. rows_seen held.items) result (held_rows (optional_formula condition.now) (rows_of_set set.now)) }
{
    match condition {
        None => {
            let rows = table_rows(alloc, set)?;
            Ok(rows)
        }
        Some(condition) => {
            let condition = Condition::new(alloc, condition)?;
            rows_where(alloc, &condition, set)
        }
    }
}

/// The rows of all live segments that a condition keeps, by name and then by place: all, where there is none. They stay where
/// they lie.
///
/// The condition is evaluated on every row: `OutOfRange` where a number is so on any of them. `TooManyRows` where more than
/// 2,147,483,647 rows are kept, `NoMemory` where memory is refused, or of a set whose cells are not made (`SegmentSet::make`).
pub fn kept_table_rows<'a>(
    alloc: Global,
    condition: &Option<Expr>,
    set: &'a SegmentSet,
) -> Result<Vec<&'a [Value]>, AnswerFault>
    ensures { Gives (λ kept. rows_seen kept.items) result (kept_of (optional_formula condition.now) (rows_of_set set.now)) }
{
    let held = rows_held(alloc, condition, set)?;
    not_too_many(held)
}

// Appends the rows of a segment on which a condition is true, until one more than so many are held. It says whether it went over all
// rows.
fn push_few_where<'a>(
    held: &mut Vec<&'a [Value]>,
    condition: &Condition,
    kept: &'a Kept,
    most: usize,
) -> Result<bool, AnswerFault>
    ensures gives { GivesAtEnd result (unless (list_any (is_out_of_range (formula condition.now.expr.now)) kept.now.content.rows)
        OutOfRange tt) }
    ensures added { IfOk result (λ all. all ≡ true → rows_seen held.new.items ≡ rows_seen held.old.items ++ filter
        (holds_on (formula condition.now.expr.now)) kept.now.content.rows) }
    ensures stopped { IfOk result (λ all. all ≡ false → most < length held.old.items + length (filter
        (holds_on (formula condition.now.expr.now)) kept.now.content.rows)) }
    ensures few { length held.old.items ≤ most + 1 → OnOk result (length held.new.items ≤ most + 1) }
{
    let segment = kept.segment()?;
    for row in 0..segment.rows() {
        if held.len() > most {
            return Ok(false);
        }
        push_where(held, condition, segment.row(row))?;
    }
    Ok(true)
}

// The rows of all live segments on which a condition is true, in their order, where they are no more than so many: it ends with
// none where more are held before the last row.
fn few_rows_where<'a>(
    alloc: Global,
    condition: &Condition,
    set: &'a SegmentSet,
    most: usize,
) -> Result<Option<Vec<&'a [Value]>>, AnswerFault>
    ensures rows { MayGive (λ held. rows_seen held.items) result (held_rows (Some (formula condition.now.expr.now)) (rows_of_set set.now)) }
    ensures given { IfOk result (λ found. IfNone found (most < length (filter (holds_on (formula condition.now.expr.now))
        (rows_of_set set.now)))) }
    ensures few { IfOk result (λ found. IfSome found (λ held. length held.items ≤ most + 1)) }
{
    let mut held = Vec::new(alloc);
    'segments: for (_, segment) in set.lives() {
        let all = push_few_where(&mut held, condition, segment, most)?;
        if !all {
            return Ok(None);
        }
    }
    Ok(Some(held))
}

// The rows of all live segments that a condition keeps, by name and then by place, where they are few among all of them; none
// where they are not, as soon as that is seen. They stay where they lie. The condition is evaluated on every row before rows
// are answered.
fn few_table_rows<'a>(
    alloc: Global,
    condition: &Expr,
    set: &'a SegmentSet,
) -> Result<Option<Vec<&'a [Value]>>, AnswerFault>
    ensures rows { MayGive (λ kept. rows_seen kept.items) result (kept_of (Some (formula condition.now)) (rows_of_set set.now)) }
    ensures given { IfOk result (λ found. IfNone found (KeepsMany (formula condition.now) (rows_of_set set.now))) }
{
    let most = row_count(set) / MANY_TIMES;
    let condition = Condition::new(alloc, condition)?;
    let found = few_rows_where(alloc, &condition, set, most)?;
    match found {
        None => Ok(None),
        Some(held) => {
            let kept = not_too_many(held)?;
            Ok(Some(kept))
        }
    }
}

/// The rows of the set's live segments that the WHERE of a SELECT keeps, by name and then by place, where they are few among
/// all and orders of them are asked for; none where they are not, as soon as that is seen. They stay where they lie.
///
/// The condition is evaluated on every row before rows are answered: `OutOfRange` where a number is so on any of them, also
/// where it ends with that before it sees that they are not few. `TooManyRows` where more than 2,147,483,647 rows are kept,
/// `NoMemory` where memory is refused, or of a set whose cells are not made (`SegmentSet::make`).
pub fn few_kept_rows<'a>(
    alloc: Global,
    select: &Selection,
    set: &'a SegmentSet,
) -> Result<Option<Vec<&'a [Value]>>, AnswerFault>
    ensures rows { MayGive (λ kept. rows_seen kept.items) result (kept_of (optional_formula select.now.condition) (rows_of_set set.now)) }
    ensures given { (condition : expr.Expr) → select.now.condition ≡ Some condition → are_orders_asked select.now ≡ true
        → IfOk result (λ found. IfNone found (KeepsMany (formula condition) (rows_of_set set.now))) }
{
    match &select.condition {
        Some(condition) if asks_for_orders(select) => few_table_rows(alloc, condition, set),
        _ => Ok(None),
    }
}
