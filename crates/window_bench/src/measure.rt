//! Builds the frames of partitions, folds them, and asks the clock what each took.
ghost use Rattle.std.specs.Prelude.{◌≡◌, ◌≤◌, ◌<◌, ◌+◌, ◌^◌, length, IfOk, None};
ghost use Rattle.wslide.specs.Frames.{folds_of_spans, most_by_queues};

use crate::case::{Aggregate, Case};
use crate::columns::{keys, lent, numbers};
use crate::failure::Failure;
use std::alloc::{AllocError, Global};
use std::rt::Clock;
use std::time::{Duration, Instant};
use wframe::{KeyRows, Partitions, Span, are_in_order};
use wslide::{Count, Extreme, Fold, Meter, Sum, push_window_folds};
use wvalues::{SortKey, Value};

/// The order of partition values, and of keys.
const BY_KEY: SortKey = SortKey {
    col: 0,
    desc: false,
    nulls_first: false,
};

/// What the folds of frames came to.
#[derive(Debug, Drop)]
pub struct Outcome {
    /// How many rows were folded, each with its frame.
    pub rows: usize,
    /// How many joins that took.
    pub joins: u64,
    /// The sum of what the frames come to, without those that have no value.
    pub sum: i128,
    /// How long partitions, peers and frames took.
    pub building: Duration,
    /// How long the folds took.
    pub folding: Duration,
}

// The number at a row of a column; 0 where there is none.
fn number_at(numbers: &[&Value], row: Option<usize>) -> i128 {
    match row.and_then(|row| numbers.get(row)) {
        Some(Value::Int(number)) => number.get(),
        _ => 0,
    }
}

// The sum of a column's numbers at these rows, each of which may be none.
fn sum_at(numbers: &[&Value], rows: &[Option<usize>]) -> i128 {
    let numbers = rows.iter().map(|row| number_at(numbers, *row));
    numbers.fold(0, i128::wrapping_add)
}

// The fold of each row's frame.
fn folds<F: Fold>(
    alloc: Global,
    fold: &F,
    rows: usize,
    partitions: &Partitions,
    meter: &mut F::Meter,
) -> Result<Vec<F::Part>, AllocError>
    requires rows { length partitions.now.keys ≡ F.rows fold.now }
    requires few { F.rows fold.now < 2 ^ 31 }
    requires fresh { F.count meter.old ≡ 0 }
    ensures folds { IfOk result (λ folds. folds.items ≡ folds_of_spans (F.neutral fold.now) (F.joined fold.now)
        (F.part_at fold.now) partitions.now 0 partitions.now.spans) }
    ensures joins { F.count meter.new ≤ most_by_queues partitions.now.frame.exclusion (F.rows fold.now) }
{
    let mut folds = Vec::with_capacity(alloc, rows)?;
    let numbers = Span {
        from: 0,
        to: partitions.count(),
    };
    push_window_folds(alloc, &mut folds, fold, partitions, numbers, meter)?;
    Ok(folds)
}

// The fold that finds the greatest of some values, or else the least.
fn extreme<'a>(values: &'a [&'a Value], greatest: bool) -> Extreme<'a>
    ensures values { result.values.now ≡ values.now }
    ensures filter { result.filter ≡ None }
    ensures greatest { result.greatest ≡ greatest }
{
    Extreme {
        values,
        filter: None,
        greatest,
    }
}

// The sum of what an aggregate comes to over each frame.
fn sum_of_folds(
    alloc: Global,
    partitions: &Partitions,
    aggregate: Aggregate,
    values: &[&Value],
    meter: &mut Meter,
) -> Result<i128, AllocError>
    requires values { length partitions.now.keys ≡ length values.now }
    requires few { length values.now < 2 ^ 31 }
    requires fresh { meter.old ≡ 0 }
    ensures joins { meter.new ≤ most_by_queues partitions.now.frame.exclusion (length values.now) }
{
    let filter = None;
    let rows = values.len();
    match aggregate {
        Aggregate::Count => {
            let counts = folds(alloc, &Count { values, filter }, rows, partitions, meter)?;
            let numbers = counts.iter().map(|count| *count as i128);
            Ok(numbers.fold(0, i128::wrapping_add))
        }
        Aggregate::Sum => {
            let sums = folds(alloc, &Sum { values, filter }, rows, partitions, meter)?;
            let numbers = sums.iter().map(|sum| sum.get().unwrap_or(0));
            Ok(numbers.fold(0, i128::wrapping_add))
        }
        Aggregate::Least => {
            let least = extreme(values, false);
            let places = folds(alloc, &least, rows, partitions, meter)?;
            Ok(sum_at(values, &places))
        }
        Aggregate::Greatest => {
            let greatest = extreme(values, true);
            let places = folds(alloc, &greatest, rows, partitions, meter)?;
            Ok(sum_at(values, &places))
        }
    }
}

// Folds the frames of so many rows whose building took so long.
fn folded(
    rt: &(impl Clock + AllocGlobal),
    partitions: &Partitions,
    rows: usize,
    aggregate: Aggregate,
    building: Duration,
) -> Result<Outcome, Failure>
    requires rows { length partitions.now.keys ≡ rows }
    requires few { rows < 2 ^ 31 }
    ensures rows { IfOk result (λ outcome. outcome.rows ≡ rows) }
    ensures joins { IfOk result (λ outcome. outcome.joins ≤ most_by_queues partitions.now.frame.exclusion outcome.rows) }
{
    let alloc = rt.alloc();
    let made = numbers(alloc, rows)?;
    let values = lent(alloc, &made)?;
    let mut meter = Meter::new();
    let start = Instant::now(rt)?;
    let sum = sum_of_folds(alloc, partitions, aggregate, &values, &mut meter)?;
    let folding = start.elapsed(rt)?;
    Ok(Outcome {
        rows,
        joins: meter.joins(),
        sum,
        building,
        folding,
    })
}

/// Makes the rows of a case, builds their frames and folds them.
///
/// The times leave out making the rows and testing their order. The error is want of memory, or a clock that fails.
pub fn measured(rt: &(impl Clock + AllocGlobal), case: &Case) -> Result<Outcome, Failure>
    ensures rows { IfOk result (λ outcome. outcome.rows ≡ case.now.rows) }
    ensures joins { IfOk result (λ outcome. outcome.joins ≤ most_by_queues case.now.frame.exclusion outcome.rows) }
{
    let alloc = rt.alloc();
    let partition_values = keys(alloc, case.rows, case.partition)?;
    let value_cells = lent(alloc, &partition_values)?;
    let made = keys(alloc, case.rows, case.peers)?;
    let cells = lent(alloc, &made)?;
    let by_value = [BY_KEY];
    let by_key = [BY_KEY];
    let values = KeyRows::new(&value_cells, &by_value, cells.len());
    let keys = KeyRows::new(&cells, &by_key, cells.len());
    if !are_in_order(&values, &keys) {
        return Err(Failure::Order);
    }
    let start = Instant::now(rt)?;
    let partitions = Partitions::build(alloc, &values, keys, case.frame)?;
    let building = start.elapsed(rt)?;
    folded(rt, &partitions, cells.len(), case.aggregate, building)
}
