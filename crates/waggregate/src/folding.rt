//! Aggregates over frames.
ghost use Rattle.std.specs.Prelude.{◌≡◌, ◌≤◌, ◌<◌, ◌+◌, ◌-◌, ◌^◌, OnOk, min, List, All, Option};
ghost use Rattle.std.specs.Prelude.{Some, drop, length, map, option_map, pos, slice_index_or};
ghost use Rattle.std.specs.Option.{ForSome};
ghost use Rattle.wvalues.specs.Meaning.{Int, Meaning, Null, meaning};
ghost use Rattle.wframe.specs.Cells.{meanings};
ghost use Rattle.wframe.specs.Places.{Tiles};
ghost use Rattle.wplan.specs.declared.resolved.AggregateFunction.TheVariants as functions;
ghost use Rattle.wslide.specs.Aggregates.{picked_tests, tests};
ghost use Rattle.wslide.specs.Frames.{folds_of_spans, most_by_queues};
ghost use Rattle.wslide.specs.Leasts.{IsPlace};
ghost use Rattle.wrows.specs.Outcomes.{Gives};
ghost use Rattle.waggregate.specs.Aggregating as aggregating;
ghost use Rattle.waggregate.specs.Aggregating.{sum_answer, value_or_null};
ghost use Rattle.waggregate.specs.Batches.{batch_spans, batch_start};
ghost use Rattle.waggregate.specs.Feeding.{fed_by, rows_of};
ghost use Rattle.waggregate.specs.FrameAnswers.{Appends, IsPicked, Puts, batch_answers, answer_or_out_of_range, window_answers};
ghost use Rattle.waggregate.specs.Put.{put_all};

use crate::answers::{count_value, sum_value};
use crate::batch::{Batch, batch_from};
use crate::feeding::Fed;
use crate::grouped::lent_values;
use crate::picking::{copied_values, filter_of, lent};
use crate::tally::Tally;
use std::alloc::Global;
use std::mem;
use wframe::{Partitions, frames_are_rows, stable_sorts_agree};
use wplan::AggregateFunction;
use wrows::AnswerFault;
use wslide::{
    Count, CountRows, Extreme, Fold, Meter, PartialSum, Sum, counts_are_exact,
    picked_rows_feed_alike, places_are_least, push_window_folds, see_ranges, sums_are_exact,
};
use wvalues::Value;

// A copy of the value at a place, null where there is none.
fn value_at(values: &[&Value], place: Option<usize>) -> Result<Value, AnswerFault>
    requires { IsPlace (meanings values.now) place }
    ensures { Gives meaning result (answer_or_out_of_range (Some (value_or_null (meanings values.now) place))) }
{
    match place {
        None => Ok(Value::Null),
        Some(place) => {
            let value = values[place].duplicate()?;
            Ok(value)
        }
    }
}

/// A fold of which each part has an answer.
pub(crate) trait AnsweringFold: Fold {
    /// The value of a part; none where it is out of range.
    ghost answer: { Self → Self.Part → Option Meaning };

    /// The value of a part, `OutOfRange` where it is so.
    fn value(&self, part: Self::Part) -> Result<Value, AnswerFault>
        requires { Self.is_part self.now part }
        ensures { Gives meaning result (answer_or_out_of_range (answer self.now part)) };
}

impl<'a> AnsweringFold for CountRows<'a> {
    ghost answer = { λ _ count. Some (Int (pos count)) };

    fn value(&self, part: u64) -> Result<Value, AnswerFault> {
        Ok(count_value(part))
    }
}

impl<'a> AnsweringFold for Count<'a> {
    ghost answer = { λ _ count. Some (Int (pos count)) };

    fn value(&self, part: u64) -> Result<Value, AnswerFault> {
        Ok(count_value(part))
    }
}

impl<'a> AnsweringFold for Sum<'a> {
    ghost answer = { λ _ sum. sum_answer sum };

    fn value(&self, part: PartialSum) -> Result<Value, AnswerFault> {
        sum_value(part)
    }
}

impl<'a> AnsweringFold for Extreme<'a> {
    ghost answer = { λ extreme place. Some (value_or_null (meanings extreme.values.now) place) };

    fn value(&self, part: Option<usize>) -> Result<Value, AnswerFault> {
        value_at(self.values, part)
    }
}

/// The fold that finds the greatest of some values, or else the least, of the rows whose filter is true, or of all.
pub(crate) fn extreme<'a>(
    values: &'a [&'a Value],
    filter: Option<&'a [bool]>,
    greatest: bool,
) -> Extreme<'a>
    requires { ForSome filter (λ tests. length tests.now ≡ length values.now) }
    ensures values { result.values.now ≡ values.now }
    ensures filter { tests result.filter ≡ tests filter.entry }
    ensures greatest { result.greatest ≡ greatest }
{
    Extreme {
        values,
        filter,
        greatest,
    }
}

/// Appends the values of some parts, `OutOfRange` where one is so.
pub(crate) fn push_values<F: AnsweringFold>(
    column: &mut Vec<Value>,
    fold: &F,
    parts: &[F::Part],
) -> Result<(), AnswerFault>
    requires { All (F.is_part fold.now) parts.now }
    ensures { Appends (map (F.answer fold.now) parts.now) result column.old.items column.new.items }
{
    for part in parts {
        column.push(fold.value(*part)?)?;
    }
    Ok(())
}

/// How many rows ahead cells are read before values are put there, so few that a cache holds them until then.
const AHEAD: usize = 256;

// Whether one of the cells of these rows holds a text that lies apart. Each is read, whatever was found before.
fn hold_text(column: &[Value], rows: &[u32]) -> bool
    requires { All (λ i. i < length column.now) rows.now }
{
    let mut found = false;
    for row in rows {
        if let Value::Shared(_) = &column[*row as usize] {
            found = true;
        }
    }
    found
}

// Whether one of the cells holds a text that lies apart where values are put next. They are looked at where a place begins so many,
// and what was seen then holds for those that follow. This is a matter of speed alone.
fn texts_ahead(column: &[Value], rows: &[u32], place: usize, seen: bool) -> bool
    requires { All (λ i. i < length column.now) rows.now }
{
    if place % AHEAD != 0 || place >= rows.len() {
        return seen;
    }
    let rows = &rows[place..];
    hold_text(column, &rows[..rows.len().min(AHEAD)])
}

// Puts a value in the place of another one, which is let go. Both ways put the same, so what was seen ahead need not be right: the
// choice is there so that what is read ahead is used, and not left out when the program is built.
fn put(cell: &mut Value, value: Value, texts: bool)
    ensures { cell.new ≡ value }
{
    if texts {
        *cell = value;
    } else {
        match mem::replace(cell, value) {
            Value::Null | Value::Int(_) | Value::Short(_) => {}
            Value::Shared(text) => drop(text),
        }
    }
}

// Puts a value at the number of the row at a place, if there is such a row.
fn put_at(column: &mut [Value], rows: &[u32], place: usize, value: Value, texts: bool)
    requires { All (λ i. i < length column.old) rows.now }
    ensures put { (values : List Meaning) → place < length values → meaning value ≡ slice_index_or values place Null
        → put_all (map meaning column.new) (drop (place + 1) rows.now) (drop (place + 1) values)
        ≡ put_all (map meaning column.old) (drop place rows.now) (drop place values) }
    ensures len { length column.new ≡ length column.old }
{
    if place < rows.len() {
        put(&mut column[rows[place] as usize], value, texts);
    }
}

// Puts the values of some parts, each at the number of its row, `OutOfRange` where one is so.
fn put_values<F: AnsweringFold>(
    column: &mut [Value],
    rows: &[u32],
    fold: &F,
    parts: &[F::Part],
) -> Result<(), AnswerFault>
    requires parts { All (F.is_part fold.now) parts.now }
    requires below { All (λ i. i < length column.old) rows.now }
    ensures { Puts (map (F.answer fold.now) parts.now) rows.now result column.old column.new }
{
    let mut texts = false;
    for place in 0..parts.len() {
        texts = texts_ahead(column, rows, place, texts);
        let value = fold.value(parts[place])?;
        put_at(column, rows, place, value, texts);
    }
    Ok(())
}

// Puts the value of the fold of each row's frame in a batch at the number of the row, `OutOfRange` where one is so. The joins
// that the meter counts are added to the tally.
fn put_folds<F: AnsweringFold>(
    alloc: Global,
    fold: &F,
    batch: &Batch,
    meter: &mut F::Meter,
    column: &mut [Value],
    tally: &mut Tally,
) -> Result<(), AnswerFault>
    requires rows { length batch.now.rows.now ≡ F.rows fold.now }
    requires few { F.rows fold.now < 2 ^ 31 }
    requires fresh { F.count meter.old ≡ 0 }
    requires below { All (λ i. i < length column.old) batch.now.rows.now }
    ensures answers { Puts (map (F.answer fold.now) (folds_of_spans (F.neutral fold.now) (F.joined fold.now) (F.part_at fold.now)
        batch.now.partitions.now (batch_start batch.now) (batch_spans batch.now))) batch.now.rows.now result column.old column.new }
    ensures tallied { OnOk result (tally.new ≡ min (tally.old + F.count meter.new) (2 ^ 64 - 1)) }
    ensures joins { tally.new ≤ tally.old + most_by_queues batch.now.partitions.now.frame.exclusion (F.rows fold.now) }
    ensures not_less { tally.old ≤ tally.new }
{
    let mut parts = Vec::with_capacity(alloc, batch.rows.len())?;
    push_window_folds(
        alloc,
        &mut parts,
        fold,
        batch.partitions,
        batch.numbers,
        meter,
    )?;
    tally.add(fold.joins(meter));
    put_values(column, batch.rows, fold, &parts)
}

// Puts how many rows there are in the frame of each row of a batch at the number of the row: those for which the filter is true, where
// `filter` is what it says of the rows of the batch, in its order, and all if there is none. No value is looked at. The tally rises by
// the joins that it takes.
fn put_counts(
    alloc: Global,
    filter: Option<&[bool]>,
    batch: &Batch,
    column: &mut [Value],
    tally: &mut Tally,
) -> Result<(), AnswerFault>
    requires tiles { Tiles 0 batch.now.partitions.now.spans (length batch.now.partitions.now.keys) }
    requires len { ForSome filter (λ tests. length tests.now ≡ length batch.now.rows.now) }
    requires few { length batch.now.rows.now < 2 ^ 31 }
    requires below { All (λ i. i < length column.old) batch.now.rows.now }
    ensures joins { tally.new ≤ tally.old + most_by_queues batch.now.partitions.now.frame.exclusion (length batch.now.rows.now) }
    ensures not_less { tally.old ≤ tally.new }
    ensures answers { (feed : aggregating.Feed) → tests filter.entry ≡ picked_tests feed.filter batch.now.rows.now
        → Puts (batch_answers functions.CountRows feed batch.now.partitions.now (batch_start batch.now) (batch_spans batch.now)
        batch.now.rows.now) batch.now.rows.now result column.old column.new }
{
    // Laws, which do nothing.
    frames_are_rows();
    picked_rows_feed_alike();
    counts_are_exact();
    let fold = CountRows {
        rows: batch.rows.len(),
        filter,
    };
    let mut meter = Meter::new();
    put_folds(alloc, &fold, batch, &mut meter, column, tally)
}

// Puts what an aggregate comes to over the frame of each row of a batch at the number of the row, where `values` and `filter` are
// what the rows of the batch feed, in its order. It is `OutOfRange` where a result is so. The tally rises by the joins that it takes.
fn put_fed(
    alloc: Global,
    function: AggregateFunction,
    values: &[&Value],
    filter: &Option<Vec<bool>>,
    batch: &Batch,
    column: &mut [Value],
    tally: &mut Tally,
) -> Result<(), AnswerFault>
    requires tiles { Tiles 0 batch.now.partitions.now.spans (length batch.now.partitions.now.keys) }
    requires values { length values.now ≡ length batch.now.rows.now }
    requires len { ForSome filter.now (λ tests. length tests.items ≡ length values.now) }
    requires few { length batch.now.rows.now < 2 ^ 31 }
    requires below { All (λ i. i < length column.old) batch.now.rows.now }
    ensures joins { tally.new ≤ tally.old + most_by_queues batch.now.partitions.now.frame.exclusion (length batch.now.rows.now) }
    ensures not_less { tally.old ≤ tally.new }
    ensures answers { (feed : aggregating.Feed)
        → IsPicked feed batch.now.rows.now (meanings values.now) (option_map (λ tests. tests.items) filter.now)
        → Puts (batch_answers function feed batch.now.partitions.now (batch_start batch.now) (batch_spans batch.now)
        batch.now.rows.now) batch.now.rows.now result column.old column.new }
{
    // Laws, which do nothing.
    frames_are_rows();
    picked_rows_feed_alike();
    counts_are_exact();
    sums_are_exact();
    places_are_least();
    stable_sorts_agree();
    let filter = lent(filter);
    let mut meter = Meter::new();
    match function {
        AggregateFunction::CountRows => put_counts(alloc, filter, batch, column, tally),
        AggregateFunction::Count => {
            let fold = Count { values, filter };
            put_folds(alloc, &fold, batch, &mut meter, column, tally)
        }
        AggregateFunction::Sum => {
            see_ranges(values);
            let fold = Sum { values, filter };
            put_folds(alloc, &fold, batch, &mut meter, column, tally)
        }
        AggregateFunction::Min => {
            let fold = extreme(values, filter, false);
            put_folds(alloc, &fold, batch, &mut meter, column, tally)
        }
        AggregateFunction::Max => {
            let fold = extreme(values, filter, true);
            put_folds(alloc, &fold, batch, &mut meter, column, tally)
        }
    }
}

// Puts what an aggregate comes to over the frame of each row of a batch at the number of the row, where `fed` is what all rows
// feed. What the rows of the batch feed is copied in its order, unless rows are counted, at which nobody looks.
fn put_batch(
    alloc: Global,
    function: AggregateFunction,
    fed: &Fed,
    batch: &Batch,
    column: &mut [Value],
    tally: &mut Tally,
) -> Result<(), AnswerFault>
    requires tiles { Tiles 0 batch.now.partitions.now.spans (length batch.now.partitions.now.keys) }
    requires few { length batch.now.rows.now < 2 ^ 31 }
    requires fed { All (λ i. i < rows_of fed.now.argument) batch.now.rows.now }
    requires below { All (λ i. i < length column.old) batch.now.rows.now }
    ensures joins { tally.new ≤ tally.old + most_by_queues batch.now.partitions.now.frame.exclusion (length batch.now.rows.now) }
    ensures not_less { tally.old ≤ tally.new }
    ensures answers { Puts (batch_answers function (fed_by fed.now.argument fed.now.filter.now) batch.now.partitions.now
        (batch_start batch.now) (batch_spans batch.now) batch.now.rows.now) batch.now.rows.now result column.old column.new }
{
    let filter = filter_of(alloc, fed.filter, batch.rows)?;
    if let AggregateFunction::CountRows = function {
        return put_counts(alloc, lent(&filter), batch, column, tally);
    }
    let cells = copied_values(alloc, fed.argument, batch.rows)?;
    let values = lent_values(alloc, &cells)?;
    put_fed(alloc, function, &values, &filter, batch, column, tally)
}

/// Puts what an aggregate comes to over the frame of each row of a window at the number of the row, where `fed` is what the rows
/// feed, and `rows` has their numbers in the window's order. It is `OutOfRange` where a result is so. The tally rises with each
/// join, by three for each row at most, and by eight where the frame clause excludes rows. What the rows of some partitions feed is
/// copied in the window's order, and then that of the next ones, so that a cache holds it while it is folded.
pub fn put_frame_aggregates<'a>(
    alloc: Global,
    function: AggregateFunction,
    fed: &Fed,
    rows: &'a [u32],
    partitions: &'a Partitions<'a>,
    column: &mut [Value],
    tally: &mut Tally,
) -> Result<(), AnswerFault>
    requires rows { length rows.now ≡ length partitions.now.keys }
    requires values { rows_of fed.now.argument ≡ length rows.now }
    requires few { length rows.now < 2 ^ 31 }
    requires fed { All (λ i. i < rows_of fed.now.argument) rows.now }
    requires below { All (λ i. i < length column.old) rows.now }
    ensures joins { tally.new ≤ tally.old + most_by_queues partitions.now.frame.exclusion (length rows.now) }
    ensures not_less { tally.old ≤ tally.new }
    ensures answers { Puts (window_answers function (fed_by fed.now.argument fed.now.filter.now) partitions.now rows.now) rows.now
        result column.old column.new }
{
    let count = partitions.count();
    let mut done = 0;
    while done < count {
        let batch = batch_from(rows, partitions, done);
        put_batch(alloc, function, fed, &batch, column, tally)?;
        done = batch.numbers.to;
    }
    Ok(())
}
