//! The columns of a window's functions.
ghost use Rattle.std.specs.Prelude.{◌≡◌, ◌≤◌, ◌+◌, ◌<◌, ◌^◌, true, IfOk, Ok, length, map};
ghost use Rattle.std.specs.List.{list_all};
ghost use Rattle.wcolumns.specs.Columns.{column_seen};
ghost use Rattle.wplan.specs.Plans.{window_plan};
ghost use Rattle.wrows.specs.Outcomes.{Gives, each};
ghost use Rattle.wrows.specs.Laid.{rows_seen};
ghost use Rattle.wcalls.specs.Windows.{Windowed};
ghost use Rattle.wcalls.specs.Functions.{function_column, window_columns};
ghost use Rattle.wcalls.specs.Lent.{functions_seen};
ghost use Rattle.wcalls.specs.Sound.{is_sound_function, is_sound_window};
ghost use Rattle.wcalls.specs.Joins.{most_of_functions};
ghost use Rattle.wcalls.specs.Kept.{are_values, is_aggregate};
ghost use Rattle.wcalls.specs.Frames.{frame_of};
ghost use Rattle.wcalls.specs.Arranged.{IsArranged};
ghost use Rattle.wcalls.specs.Ordered.{ordered_rows};

use crate::arranged::ArrangedRows;
use crate::functions::function_column;
use crate::near::near_columns;
use crate::parts::frame_of;
use crate::room::{Room, rooms};
use crate::window_order::WindowOrder;
use std::alloc::Global;
use waggregate::Tally;
use wcolumns::Column;
use wplan::{ResolvedWindow, WindowFunction};
use wrows::AnswerFault;
use wvalues::Value;

// The columns of functions of a window, by number, where the rows stand in its order and in its partitions. Each takes the last
// room that is left.
fn every_column<'r>(
    alloc: Global,
    functions: &[&WindowFunction],
    arranged: &ArrangedRows<'_, 'r>,
    rooms: Vec<Room>,
    tally: &mut Tally,
) -> Result<Vec<Column<'r>>, AnswerFault>
    requires { list_all is_sound_function (functions_seen functions.now) ≡ true }
    ensures joins { tally.new ≤ tally.old + most_of_functions arranged.now.partitions.now.frame.exclusion
        (length arranged.now.order.now) (functions_seen functions.now) }
    ensures not_less { tally.old ≤ tally.new }
    ensures columns { (w : Windowed) → IsArranged w arranged.now.order.now arranged.now.partitions.now
        → Gives (λ columns. map column_seen columns.items) result
        (each (function_column (rows_seen arranged.now.rows.now) w) (functions_seen functions.now)) }
    ensures kept { IfOk result (λ columns. map are_values columns.items ≡ map is_aggregate (functions_seen functions.now)) }
{
    let mut rooms = rooms;
    let mut columns = Vec::with_capacity(alloc, functions.len())?;
    for function in functions {
        let room = match rooms.pop() {
            Some(room) => room,
            None => Room::none(alloc),
        };
        let column = function_column(alloc, function, arranged, room, tally)?;
        columns.push(column)?;
    }
    Ok(columns)
}

/// What functions of a window answer on rows, where `order` has the rows in the window's order: a column for each
/// function, with a value for each row by its number. An aggregate has a column of values, any other function one of numbers.
///
/// Nothing is skipped: it is `OutOfRange` where an argument or a filter is so on any row, or a result is. Where there are no
/// functions nothing is worked out, no partition and no frame.
///
/// The tally rises with each join of an aggregate, by three for each row at most, and by eight where the frame clause excludes
/// rows; other functions take no joins.
pub fn window_columns<'r>(
    alloc: Global,
    window: &ResolvedWindow,
    order: &WindowOrder,
    functions: &[&WindowFunction],
    rows: &'r [&'r [Value]],
    tally: &mut Tally,
) -> Result<Vec<Column<'r>>, AnswerFault>
    requires few { length rows.now < 2 ^ 31 }
    requires window { is_sound_window (window_plan window.now) ≡ true }
    requires order { ordered_rows (rows_seen rows.now) (window_plan window.now) ≡ Ok order.now }
    requires functions { list_all is_sound_function (functions_seen functions.now) ≡ true }
    ensures joins { tally.new ≤ tally.old + most_of_functions (frame_of (window_plan window.now).frame).exclusion
        (length rows.now) (functions_seen functions.now) }
    ensures not_less { tally.old ≤ tally.new }
    ensures columns { Gives (λ columns. map column_seen columns.items) result
        (window_columns (window_plan window.now) (functions_seen functions.now) (rows_seen rows.entry.now)) }
    ensures kept { IfOk result (λ columns. map are_values columns.items ≡ map is_aggregate (functions_seen functions.now)) }
{
    if functions.is_empty() {
        return Ok(Vec::new(alloc));
    }
    // Room for all columns at once, since a list that grows is held twice while it is moved; and before the frames and the copies, whose
    // room is then free for the answer's text behind the columns.
    let rooms = rooms(alloc, functions, rows.len())?;
    let numbers = order.rows();
    let near = near_columns(alloc, functions, rows, numbers)?;
    let keys = order.key_rows();
    let partitions = order.partitions(alloc, keys, frame_of(&window.frame))?;
    let arranged = ArrangedRows {
        rows,
        near: &near,
        order: numbers,
        partitions: &partitions,
    };
    every_column(alloc, functions, &arranged, rooms, tally)
}
