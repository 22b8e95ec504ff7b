//! Aggregates with OVER.
ghost use Rattle.std.specs.Prelude.{◌≡◌, ◌≤◌, ◌+◌, Ok, length, map};
ghost use Rattle.wvalues.specs.Meaning.{meaning};
ghost use Rattle.wslide.specs.Frames.{most_by_queues};
ghost use Rattle.wplan.specs.Formula.{formula};
ghost use Rattle.wplan.specs.Plans.{aggregate_plan, Aggregated};
ghost use Rattle.wrows.specs.Columns.{column_of};
ghost use Rattle.wrows.specs.Outcomes.{Gives};
ghost use Rattle.wrows.specs.Laid.{rows_seen};
ghost use Rattle.waggregate.specs.Aggregating.{aggregate_of};
ghost use Rattle.waggregate.specs.Feeding.{fed_by, rows_of, values_of};
ghost use Rattle.waggregate.specs.FrameAnswers.{frame_numbers};
ghost use Rattle.wcalls.specs.Windows.{Windowed};
ghost use Rattle.wcalls.specs.Functions.{function_column};
ghost use Rattle.wcalls.specs.Arranged.{answered, IsArranged};

use crate::arranged::ArrangedRows;
use crate::near::near_values;
use std::alloc::Global;
use waggregate::{
    Argument, Fed, Tally, argument_values, filter_rows, plain_argument, put_frame_aggregates,
};
use wplan::{Aggregate, AggregateFunction};
use wrows::AnswerFault;
use wvalues::Value;

// Puts an aggregate over the frame of each row, at the row's number.
fn put_aggregates(
    alloc: Global,
    function: AggregateFunction,
    fed: &Fed,
    arranged: &ArrangedRows,
    column: &mut [Value],
    tally: &mut Tally,
) -> Result<(), AnswerFault>
    requires values { rows_of fed.now.argument ≡ length arranged.now.order.now }
    requires room { length column.old ≡ length arranged.now.order.now }
    ensures joins { tally.new ≤ tally.old + most_by_queues arranged.now.partitions.now.frame.exclusion (length arranged.now.order.now) }
    ensures not_less { tally.old ≤ tally.new }
    ensures column { (w : Windowed) → IsArranged w arranged.now.order.now arranged.now.partitions.now
        → Gives (λ _. map meaning column.new) result (answered w (λ p rows place. aggregate_of function
        (fed_by fed.now.argument fed.now.filter.now) (frame_numbers p rows place))) }
{
    put_frame_aggregates(
        alloc,
        function,
        fed,
        arranged.order,
        arranged.partitions,
        column,
        tally,
    )
}

// Puts the column of an aggregate that has this argument, by the numbers of the rows.
fn fed_column(
    alloc: Global,
    aggregate: &Aggregate,
    argument: Argument,
    arranged: &ArrangedRows,
    column: &mut [Value],
    tally: &mut Tally,
) -> Result<(), AnswerFault>
    requires values { column_of (formula aggregate.now.argument) (rows_seen arranged.now.rows.now) ≡ Ok (values_of argument) }
    requires wide { rows_of argument ≡ length arranged.now.rows.now }
    requires room { length column.old ≡ length arranged.now.order.now }
    ensures joins { tally.new ≤ tally.old + most_by_queues arranged.now.partitions.now.frame.exclusion (length arranged.now.order.now) }
    ensures not_less { tally.old ≤ tally.new }
    ensures column { (w : Windowed) → IsArranged w arranged.now.order.now arranged.now.partitions.now
        → Gives (λ _. map meaning column.new) result (function_column (rows_seen arranged.now.rows.now) w
        (Aggregated (aggregate_plan aggregate.now))) }
{
    let filter = filter_rows(alloc, &aggregate.filter, arranged.rows)?;
    let fed = Fed {
        argument,
        filter: &filter,
    };
    put_aggregates(alloc, aggregate.function, &fed, arranged, column, tally)
}

// Puts the column of an aggregate, by the numbers of the rows, with its argument evaluated on every row.
fn evaluated_column(
    alloc: Global,
    aggregate: &Aggregate,
    arranged: &ArrangedRows,
    column: &mut [Value],
    tally: &mut Tally,
) -> Result<(), AnswerFault>
    requires { length column.old ≡ length arranged.now.order.now }
    ensures joins { tally.new ≤ tally.old + most_by_queues arranged.now.partitions.now.frame.exclusion (length arranged.now.order.now) }
    ensures not_less { tally.old ≤ tally.new }
    ensures column { (w : Windowed) → IsArranged w arranged.now.order.now arranged.now.partitions.now
        → Gives (λ _. map meaning column.new) result (function_column (rows_seen arranged.now.rows.now) w
        (Aggregated (aggregate_plan aggregate.now))) }
{
    let cells = argument_values(alloc, &aggregate.argument, arranged.rows)?;
    let argument = Argument::Values(&cells);
    fed_column(alloc, aggregate, argument, arranged, column, tally)
}

// Puts the column of an aggregate, by the numbers of the rows, with its argument read where it lies, if it is a plain column.
fn read_column(
    alloc: Global,
    aggregate: &Aggregate,
    arranged: &ArrangedRows,
    column: &mut [Value],
    tally: &mut Tally,
) -> Result<(), AnswerFault>
    requires { length column.old ≡ length arranged.now.order.now }
    ensures joins { tally.new ≤ tally.old + most_by_queues arranged.now.partitions.now.frame.exclusion (length arranged.now.order.now) }
    ensures not_less { tally.old ≤ tally.new }
    ensures column { (w : Windowed) → IsArranged w arranged.now.order.now arranged.now.partitions.now
        → Gives (λ _. map meaning column.new) result (function_column (rows_seen arranged.now.rows.now) w
        (Aggregated (aggregate_plan aggregate.now))) }
{
    match plain_argument(&aggregate.argument, arranged.rows) {
        Some(argument) => fed_column(alloc, aggregate, argument, arranged, column, tally),
        None => evaluated_column(alloc, aggregate, arranged, column, tally),
    }
}

/// Puts the column of an aggregate, by the numbers of the rows. A plain column is not evaluated: what it has is read in its copy, if
/// there is one, and else where it lies. The tally rises by the joins that it takes.
pub(crate) fn aggregated_column(
    alloc: Global,
    aggregate: &Aggregate,
    arranged: &ArrangedRows,
    column: &mut [Value],
    tally: &mut Tally,
) -> Result<(), AnswerFault>
    requires { length column.old ≡ length arranged.now.order.now }
    ensures joins { tally.new ≤ tally.old + most_by_queues arranged.now.partitions.now.frame.exclusion (length arranged.now.order.now) }
    ensures not_less { tally.old ≤ tally.new }
    ensures column { (w : Windowed) → IsArranged w arranged.now.order.now arranged.now.partitions.now
        → Gives (λ _. map meaning column.new) result (function_column (rows_seen arranged.now.rows.now) w
        (Aggregated (aggregate_plan aggregate.now))) }
{
    match near_values(&aggregate.argument, arranged.near) {
        Some(values) => {
            let argument = Argument::Values(values);
            fed_column(alloc, aggregate, argument, arranged, column, tally)
        }
        None => read_column(alloc, aggregate, arranged, column, tally),
    }
}
