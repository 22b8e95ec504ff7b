//! The rows of the groups.
ghost use Rattle.std.specs.Prelude.{◌≡◌, ◌+◌, ◌<◌, ◌^◌, IfOk, length};
ghost use Rattle.wrows.specs.Outcomes.{Gives};
ghost use Rattle.wrows.specs.Laid.{rows_in, rows_seen};
ghost use Rattle.wgroup.specs.Grouping.{group_rows};
ghost use Rattle.wplan.specs.Plans.{grouping_plan};

use crate::call_columns::call_columns;
use crate::groups::find_all_groups;
use crate::having::{group_cells, rows_held};
use std::alloc::Global;
use wplan::Grouping;
use wrows::{AnswerFault, Cells};
use wvalues::Value;

/// The rows of the groups of all sets, one set after the other, in the order of their keys: each group's values in the
/// columns of GROUP BY, null in those that its set lacks, then what the calls answer, of those groups that HAVING keeps. The
/// empty set has one group, of all rows, also where there is none.
///
/// Nothing is skipped: it is `OutOfRange` where an argument or a filter is so on any row, or an aggregate or HAVING on
/// any group, and `TooManyRows` where there are more than 2,147,483,647 groups of all sets.
pub fn group_rows(
    alloc: Global,
    grouping: &Grouping,
    rows: &[&[Value]],
) -> Result<Cells, AnswerFault>
    requires { length rows.now < 2 ^ 31 }
    ensures rows { Gives rows_in result (group_rows (grouping_plan grouping.now) (rows_seen rows.now)) }
    ensures width { IfOk result (λ cells. cells.width ≡ length grouping.now.columns.items + length grouping.now.calls.items) }
{
    let sets = find_all_groups(alloc, &grouping.columns, &grouping.sets, rows)?;
    let columns = call_columns(alloc, &grouping.calls, rows, &sets)?;
    let cells = group_cells(alloc, grouping.columns.len(), &sets, &columns)?;
    rows_held(alloc, &grouping.having, cells)
}
