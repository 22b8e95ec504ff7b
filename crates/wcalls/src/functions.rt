//! The column of one function of a window.
ghost use Rattle.std.specs.Prelude.{[], ◌≡◌, ◌≤◌, ◌+◌, true, false, IfOk, length};
ghost use Rattle.wvalues.specs.Meaning.{meaning, Null};
ghost use Rattle.wcolumns.specs.Columns.{column_seen};
ghost use Rattle.wplan.specs.Formula.{formula};
ghost use Rattle.wslide.specs.Frames.{most_by_queues};
ghost use Rattle.wplan.specs.Plans.{aggregate_plan, function_plan, Aggregated};
ghost use Rattle.wrows.specs.Outcomes.{Gives};
ghost use Rattle.wrows.specs.Laid.{rows_seen};
ghost use Rattle.wcalls.specs.Windows.{Windowed, partition_at, partition_rows, place_at};
ghost use Rattle.wcalls.specs.Calls.{numbers, values_read};
ghost use Rattle.wcalls.specs.Functions.{function_column};
ghost use Rattle.wcalls.specs.Arranged.{IsArranged};
ghost use Rattle.wcalls.specs.Sound.{is_sound_function};
ghost use Rattle.wcalls.specs.Joins.{most_of_function};
ghost use Rattle.wcalls.specs.Kept.{are_values, is_aggregate};

use crate::aggregated::aggregated_column;
use crate::arranged::ArrangedRows;
use crate::counts::{Counted, Counts, DenseRank, Rank, RowNumber, Tile};
use crate::other_rows::{FirstValue, Lag, LastValue, Lead, NthValue, OtherRow, RowPlaces};
use crate::room::Room;
use crate::row_function::kept_numbers;
use crate::values::column_values;
use std::alloc::{AllocError, Global};
use waggregate::Tally;
use wcolumns::{Column, OtherRows};
use wplan::{Aggregate, Expr, WindowFunction};
use wrows::AnswerFault;
use wvalues::Value;

// The column of a function that counts.
fn counts_column<'r, N: Counts + Copy>(
    counts: N,
    arranged: &ArrangedRows<'_, 'r>,
    room: Room,
) -> Result<Column<'r>, AnswerFault>
    ensures column { (w : Windowed) → IsArranged w arranged.now.order.now arranged.now.partitions.now
        → Gives column_seen result (numbers w (λ i. N.count_at counts (length (partition_rows w i)) (partition_at w i) (place_at w i))) }
    ensures kept { IfOk result (λ column. are_values column ≡ false) }
{
    let call = Counted { counts };
    let kept = kept_numbers(&call, arranged, room.numbers)?;
    Ok(Column::Counts(kept))
}

// The column of a function that reads other rows.
fn other_rows_column<'r, P: RowPlaces + Copy>(
    alloc: Global,
    places: P,
    expr: &Expr,
    default: &Value,
    arranged: &ArrangedRows<'_, 'r>,
    room: Room,
) -> Result<Column<'r>, AnswerFault>
    ensures column { (w : Windowed) → IsArranged w arranged.now.order.now arranged.now.partitions.now
        → Gives column_seen result (values_read w (formula expr.now) (rows_seen arranged.now.rows.now) (meaning default.now)
        (λ i. P.place_read places (length (partition_rows w i)) (partition_at w i) (place_at w i))) }
    ensures kept { IfOk result (λ column. are_values column ≡ false) }
{
    let values = column_values(alloc, expr, arranged)?;
    let otherwise = default.duplicate()?;
    let call = OtherRow { places };
    let numbers = kept_numbers(&call, arranged, room.numbers)?;
    Ok(Column::Others(OtherRows {
        numbers,
        values,
        default: otherwise,
    }))
}

// The column of a function that reads other rows, null where it reads none.
fn other_rows_or_null<'r, P: RowPlaces + Copy>(
    alloc: Global,
    places: P,
    expr: &Expr,
    arranged: &ArrangedRows<'_, 'r>,
    room: Room,
) -> Result<Column<'r>, AnswerFault>
    ensures column { (w : Windowed) → IsArranged w arranged.now.order.now arranged.now.partitions.now
        → Gives column_seen result (values_read w (formula expr.now) (rows_seen arranged.now.rows.now) Null
        (λ i. P.place_read places (length (partition_rows w i)) (partition_at w i) (place_at w i))) }
    ensures kept { IfOk result (λ column. are_values column ≡ false) }
{
    let null = Value::Null;
    other_rows_column(alloc, places, expr, &null, arranged, room)
}

// So many nulls, put into a list that is empty.
fn nulls(room: Vec<Value>, count: usize) -> Result<Vec<Value>, AllocError>
    requires { room.items ≡ [] }
    ensures { IfOk result (λ nulls. length nulls.items ≡ count) }
{
    let mut nulls = room;
    for _ in 0..count {
        nulls.push(Value::Null)?;
    }
    Ok(nulls)
}

// The column of an aggregate. Its answers are put by the numbers of the rows, so nulls stand there before.
fn aggregates_column<'r>(
    alloc: Global,
    aggregate: &Aggregate,
    arranged: &ArrangedRows<'_, 'r>,
    room: Room,
    tally: &mut Tally,
) -> Result<Column<'r>, AnswerFault>
    ensures joins { tally.new ≤ tally.old + most_by_queues arranged.now.partitions.now.frame.exclusion (length arranged.now.order.now) }
    ensures not_less { tally.old ≤ tally.new }
    ensures column { (w : Windowed) → IsArranged w arranged.now.order.now arranged.now.partitions.now
        → Gives column_seen result (function_column (rows_seen arranged.now.rows.now) w (Aggregated (aggregate_plan aggregate.now))) }
    ensures kept { IfOk result (λ column. are_values column ≡ true) }
{
    let mut column = nulls(room.values, arranged.order.len())?;
    aggregated_column(alloc, aggregate, arranged, &mut column, tally)?;
    Ok(Column::Values(column))
}

/// The column of a function on rows, by number, where they stand in the window's order. The tally rises by the joins that it takes.
pub(crate) fn function_column<'r>(
    alloc: Global,
    function: &WindowFunction,
    arranged: &ArrangedRows<'_, 'r>,
    room: Room,
    tally: &mut Tally,
) -> Result<Column<'r>, AnswerFault>
    requires { is_sound_function (function_plan function.now) ≡ true }
    ensures joins { tally.new ≤ tally.old + most_of_function arranged.now.partitions.now.frame.exclusion
        (length arranged.now.order.now) (function_plan function.now) }
    ensures not_less { tally.old ≤ tally.new }
    ensures column { (w : Windowed) → IsArranged w arranged.now.order.now arranged.now.partitions.now
        → Gives column_seen result (function_column (rows_seen arranged.now.rows.now) w (function_plan function.now)) }
    ensures kept { IfOk result (λ column. are_values column ≡ is_aggregate (function_plan function.now)) }
{
    match function {
        WindowFunction::RowNumber => counts_column(RowNumber, arranged, room),
        WindowFunction::Rank => counts_column(Rank, arranged, room),
        WindowFunction::DenseRank => counts_column(DenseRank, arranged, room),
        WindowFunction::Tile(tiles) => counts_column(Tile { tiles: *tiles }, arranged, room),
        WindowFunction::Lag {
            value,
            rows: before,
            default,
        } => {
            let lag = Lag { rows: *before };
            other_rows_column(alloc, lag, value, default, arranged, room)
        }
        WindowFunction::Lead {
            value,
            rows: after,
            default,
        } => {
            let lead = Lead { rows: *after };
            other_rows_column(alloc, lead, value, default, arranged, room)
        }
        WindowFunction::FirstValue(value) => {
            other_rows_or_null(alloc, FirstValue, value, arranged, room)
        }
        WindowFunction::LastValue(value) => {
            other_rows_or_null(alloc, LastValue, value, arranged, room)
        }
        WindowFunction::NthValue { value, place } => {
            let nth = NthValue { n: *place };
            other_rows_or_null(alloc, nth, value, arranged, room)
        }
        WindowFunction::Aggregated(aggregate) => {
            aggregates_column(alloc, aggregate, arranged, room, tally)
        }
    }
}
