//! Places and folds of the frames of one partition.
ghost use Rattle.std.specs.Prelude.{◌≡◌, ◌<◌, ◌^◌, length, None};

use crate::case::{Aggregate, PlaceFunction};
use std::alloc::{AllocError, Global};
use wframe::{
    Frame, FrameBound, FrameExclusion, FrameMode, Frames, KeyRows, Partitions, are_in_order,
};
use wplaces::{dense_rank, first_value, lag, last_value, lead, nth_value, ntile, rank, row_number};
use wreplies::Text;
use wslide::{Count, Extreme, Fold, Meter, Sum, frame_folds, most_is_small};
use wvalues::{SortKey, Value, Whole};

const BY_KEY: [SortKey; 1] = [SortKey {
    col: 0,
    desc: false,
    nulls_first: false,
}];

/// How many rows the partition has, of which each two are peers.
const ROWS: i64 = 20;

// The frames of rows that are one partition if they stand in order: from the row before to the row behind.
fn built<'a>(
    alloc: Global,
    cells: &'a [&'a Value],
    exclusion: FrameExclusion,
) -> Result<Option<Partitions<'a>>, AllocError> {
    let values = KeyRows::new(&[], &[], cells.len());
    let keys = KeyRows::new(cells, &BY_KEY, cells.len());
    if !are_in_order(&values, &keys) {
        return Ok(None);
    }
    let frame = Frame {
        mode: FrameMode::Rows,
        start: FrameBound::Preceding(1),
        end: FrameBound::Following(1),
        exclusion,
    };
    Ok(Some(Partitions::build(alloc, &values, keys, frame)?))
}

// The fold of the frame of each row.
fn folds<F: Fold>(
    alloc: Global,
    cells: &[&Value],
    exclusion: FrameExclusion,
    fold: &F,
    meter: &mut F::Meter,
) -> Result<Vec<F::Part>, AllocError>
    requires rows { length cells.now ≡ F.rows fold.now }
    requires few { length cells.now < 2 ^ 31 }
    requires fresh { F.count meter.old ≡ 0 }
{
    let Some(partitions) = built(alloc, cells, exclusion)? else {
        return Ok(Vec::new(alloc));
    };
    if partitions.count() != 1 {
        return Ok(Vec::new(alloc));
    }
    let frames = partitions.partition(0);
    if frames.count() != cells.len() {
        return Ok(Vec::new(alloc));
    }
    most_is_small();
    frame_folds(alloc, fold, &frames, meter)
}

// Adds a number on a line.
fn push_line(alloc: Global, text: &mut Vec<u8>, number: i128) -> Result<(), AllocError> {
    let line = format!(in alloc; "{number}\n")?;
    text.extend_from_slice(line.as_bytes())
}

// Each number on a line.
fn number_lines(alloc: Global, numbers: &[i128]) -> Result<Text, AllocError> {
    let mut text = Vec::new(alloc);
    for number in numbers {
        push_line(alloc, &mut text, *number)?;
    }
    Ok(Text::Made(text))
}

// Each count on a line.
fn count_lines(alloc: Global, counts: &[usize]) -> Result<Text, AllocError> {
    let mut text = Vec::new(alloc);
    for count in counts {
        push_line(alloc, &mut text, *count as i128)?;
    }
    Ok(Text::Made(text))
}

// Each place on a line, and -1 of none.
fn place_lines(alloc: Global, places: &[Option<usize>]) -> Result<Text, AllocError> {
    let mut text = Vec::new(alloc);
    for place in places {
        let number = match place {
            Some(place) => *place as i128,
            None => -1,
        };
        push_line(alloc, &mut text, number)?;
    }
    Ok(Text::Made(text))
}

// The values of the partition's rows.
fn values(alloc: Global) -> Result<Vec<Value>, AllocError> {
    (0..ROWS)
        .map(|row| Value::Int(Whole::from(row / 2)))
        .collect(alloc)
}

// The fold that finds the greatest of some values, or else the least.
fn extreme<'a>(values: &'a [&'a Value], greatest: bool) -> Extreme<'a>
    ensures values { result.values.now ≡ values.now }
    ensures filter { result.filter ≡ None }
    ensures greatest { result.greatest ≡ greatest }
{
    Extreme {
        values,
        filter: None,
        greatest,
    }
}

// The folds of the frames of rows with these values, which are their keys.
fn folds_of(
    alloc: Global,
    aggregate: Aggregate,
    exclusion: FrameExclusion,
    values: &[&Value],
) -> Result<Text, AllocError>
    requires { length values.now < 2 ^ 31 }
{
    let filter = None;
    let mut meter = Meter::new();
    match aggregate {
        Aggregate::Count => {
            let fold = Count { values, filter };
            let counts = folds(alloc, values, exclusion, &fold, &mut meter)?;
            let numbers = counts.iter().map(|count| *count as i128);
            number_lines(alloc, &numbers.collect::<Vec<i128>>(alloc)?)
        }
        Aggregate::Sum => {
            let fold = Sum { values, filter };
            let sums = folds(alloc, values, exclusion, &fold, &mut meter)?;
            let numbers = sums.iter().map(|sum| sum.get().unwrap_or(-1));
            number_lines(alloc, &numbers.collect::<Vec<i128>>(alloc)?)
        }
        Aggregate::Least => {
            let fold = extreme(values, false);
            place_lines(alloc, &folds(alloc, values, exclusion, &fold, &mut meter)?)
        }
        Aggregate::Greatest => {
            let fold = extreme(values, true);
            place_lines(alloc, &folds(alloc, values, exclusion, &fold, &mut meter)?)
        }
    }
}

/// The folds of the frames of a partition of twenty rows, whose values are their keys 0, 0, 1, 1, 2 and so on: each on a line,
/// of the least and the greatest value the place, and -1 for none.
pub fn folds_text(
    alloc: Global,
    aggregate: Aggregate,
    exclusion: FrameExclusion,
) -> Result<Text, AllocError> {
    let made = values(alloc)?;
    let lent: Vec<&Value> = made.iter().collect(alloc)?;
    if lent.len() > ROWS as usize {
        return Ok(Text::Fixed(b"more rows\n"));
    }
    folds_of(alloc, aggregate, exclusion, &lent)
}

// What a function answers for each row of a partition.
fn places_in(alloc: Global, function: PlaceFunction, frames: &Frames) -> Result<Text, AllocError> {
    match function {
        PlaceFunction::RowNumber => count_lines(alloc, &row_number(alloc, frames)?),
        PlaceFunction::Rank => count_lines(alloc, &rank(alloc, frames)?),
        PlaceFunction::DenseRank => count_lines(alloc, &dense_rank(alloc, frames)?),
        PlaceFunction::Ntile => count_lines(alloc, &ntile(alloc, frames, 3)?),
        PlaceFunction::Lag => place_lines(alloc, &lag(alloc, frames, 2)?),
        PlaceFunction::Lead => place_lines(alloc, &lead(alloc, frames, 2)?),
        PlaceFunction::FirstValue => place_lines(alloc, &first_value(alloc, frames)?),
        PlaceFunction::LastValue => place_lines(alloc, &last_value(alloc, frames)?),
        PlaceFunction::NthValue => place_lines(alloc, &nth_value(alloc, frames, 2)?),
    }
}

/// What a function answers for each row of that partition, on a line: a number or a place, and -1 for none.
pub fn places_text(alloc: Global, function: PlaceFunction) -> Result<Text, AllocError> {
    let made = values(alloc)?;
    let lent: Vec<&Value> = made.iter().collect(alloc)?;
    let Some(partitions) = built(alloc, &lent, FrameExclusion::NoOthers)? else {
        return Ok(Text::Fixed(b"no order\n"));
    };
    if partitions.count() != 1 {
        return Ok(Text::Fixed(b"not one partition\n"));
    }
    places_in(alloc, function, &partitions.partition(0))
}
