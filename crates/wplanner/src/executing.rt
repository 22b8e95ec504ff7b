//! Answers resolved queries.
ghost use Rattle.std.specs.Prelude.{◌≡◌, ◌≢◌, ◌<◌, ◌⊎◌, ◌∷◌, [], true, Err, IfNone, IfOk, IfSome, MatchResult, Ok, length, map};
ghost use Rattle.std.specs.List.{list_all};
ghost use Rattle.std.specs.Rc.{rc_str_bytes};
ghost use Rattle.wset.specs.Sets.{Becomes};
ghost use Rattle.wplan.specs.Plans.{plans, select_plan};
ghost use Rattle.wrows.specs.Outcomes.{Gives};
ghost use Rattle.wrows.specs.Laid.{rows_in};
ghost use Rattle.wplanner.specs.Answers.{answer_of, names_of, select_of, table_answer, width_of};
ghost use Rattle.wplanner.specs.Faults.{AnswersTable};
ghost use Rattle.wplanner.specs.Lent.{ReadsPlaces};
ghost use Rattle.wplanner.specs.Sound.{is_sound_query, is_sound_select};
ghost use Rattle.wtable.specs.Tables.{rows_of_set};
ghost use Rattle.wplanner.specs.Texts.{plan_answer};
ghost use Rattle.wplanner.specs.declared.fault.AskFault.TheVariants.{NoMemory};

use crate::fault::AskFault;
use crate::lent::{lent_places, lent_text};
use crate::parts::item_names;
use crate::placed::PlacedSelect;
use crate::printing::print;
use crate::selecting::{select_rows, select_table_rows};
use crate::table::Table;
use crate::work::Work;
use std::alloc::{AllocError, Global};
use std::rc::RcStr;
use wplan::{Resolved, Selection};
use wrows::{AnswerFault, Cells, lent_rows};
use wset::SegmentSet;

// What one SELECT answers on the rows of the one before.
fn select_cells(
    alloc: Global,
    select: &Selection,
    source: &Cells,
    work: &mut Work,
) -> Result<Cells, AnswerFault>
    requires { is_sound_select (select_plan select.now) ≡ true }
    ensures rows { Gives rows_in result (select_of (select_plan select.now) (rows_in source.now)) }
    ensures width { IfOk result (λ cells. cells.width ≡ length select.now.items.items) }
{
    let rows = lent_rows(alloc, source)?;
    select_rows(alloc, select, rows, work)
}

// What the SELECTs answer, each over the rows of the one before.
fn answered(
    alloc: Global,
    selects: &[Selection],
    source: Cells,
    work: &mut Work,
) -> Result<Cells, AnswerFault>
    requires { list_all is_sound_select (map select_plan selects.now) ≡ true }
    ensures rows { Gives rows_in result (answer_of (map select_plan selects.now) (rows_in source)) }
    ensures width { IfOk result (λ cells. cells.width ≡ width_of (map select_plan selects.now) source.width) }
{
    let mut cells = source;
    'selects: for select in selects {
        match select_cells(alloc, select, &cells, work) {
            Err(fault) => return Err(fault),
            Ok(next) => cells = next,
        }
    }
    Ok(cells)
}

// The output names of the outermost SELECT.
fn output_names(alloc: Global, selects: &[Selection]) -> Result<Vec<RcStr>, AllocError>
    requires { 0 < length selects.now }
    ensures { IfOk result (λ names. map rc_str_bytes names.items ≡ names_of (map select_plan selects.now)) }
{
    let outermost = &selects[selects.len() - 1];
    let names = item_names(alloc, &outermost.items)?;
    Ok(names)
}

// What the SELECTs answer, of which the first is over the rows of the table.
fn query_rows(
    alloc: Global,
    selects: &[Selection],
    set: &mut SegmentSet,
    work: &mut Work,
) -> Result<Cells, AnswerFault>
    requires { is_sound_query (map select_plan selects.now) ≡ true }
    ensures rows { Gives rows_in result (answer_of (map select_plan selects.now) (rows_of_set set.old)) }
    ensures width { IfOk result (λ cells. cells.width ≡ width_of (map select_plan selects.now) 0) }
    ensures same { Becomes set.old set.old.view set.new }
{
    let cells = select_table_rows(alloc, &selects[0], set, work)?;
    answered(alloc, &selects[1..], cells, work)
}

// The answer of a query on the rows of the table.
fn query_answer(
    alloc: Global,
    selects: &[Selection],
    set: &mut SegmentSet,
) -> Result<Table, AnswerFault>
    requires { is_sound_query (map select_plan selects.now) ≡ true }
    ensures answer { Gives (λ table. table) result (table_answer (map select_plan selects.now) (rows_of_set set.old)) }
    ensures same { Becomes set.old set.old.view set.new }
{
    let mut work = Work::new();
    let cells = query_rows(alloc, selects, set, &mut work)?;
    let names = output_names(alloc, selects)?;
    Ok(Table::new(names, cells, &work))
}

/// The answer of a query on the rows of the set's live segments, by name and then by place.
///
/// Nothing is skipped: it is `OutOfRange` where a condition, an item, a key, an argument or a filter is so on any row
/// that it is evaluated on, or a result is, whatever is left out, and `TooManyRows` where more than 2,147,483,647 rows are
/// kept or groups of all sets together made. Otherwise it answers the table, unless memory is refused; of a set whose cells are
/// not all made (`SegmentSet::make`) it may answer `NoMemory` though there is memory.
///
/// What the set knows stays as it is. Where rows of the table are ordered by columns of it and are not grouped, their order may come
/// from runs that the segments keep, and runs that are missing may be made: `table_orders` of `wtable` says of which orders.
///
/// The query is to be sound: it has a SELECT, each call is over one of its windows, an offset in RANGE has one key, there
/// is a tile at least, and places count from 1. So is each one that `resolve` answers, since it breaks no rule.
pub fn execute(alloc: Global, set: &mut SegmentSet, query: &Resolved) -> Result<Table, AskFault>
    requires sound { is_sound_query (plans query.now) ≡ true }
    ensures answered { AnswersTable result (table_answer (plans query.now) (rows_of_set set.old)) }
    ensures same { Becomes set.old set.old.view set.new }
{
    let table = query_answer(alloc, query.selections.as_slice(), set)?;
    Ok(table)
}

// The bytes of what a query answers as a table.
fn printed_answer(
    alloc: Global,
    set: &mut SegmentSet,
    query: &Resolved,
) -> Result<Vec<u8>, AskFault>
    requires { is_sound_query (plans query.now) ≡ true }
    ensures answer { MatchResult result
        (λ bytes. plan_answer (plans query.now) (rows_of_set set.old) ≡ Ok bytes.items)
        (λ fault. (fault ≡ NoMemory) ⊎ (plan_answer (plans query.now) (rows_of_set set.old) ≡ Err fault)) }
    ensures same { Becomes set.old set.old.view set.new }
{
    let table = execute(alloc, set, query)?;
    let bytes = print(alloc, &table)?;
    Ok(bytes)
}

// The SELECT of a query that is one alone.
fn one_select(selects: &[Selection]) -> Option<&Selection>
    ensures one { IfSome result (λ select. map select_plan selects.now ≡ select_plan select.now ∷ []) }
    ensures none { IfNone result (length selects.now ≢ 1) }
{
    if selects.len() == 1 {
        Some(&selects[0])
    } else {
        None
    }
}

// The bytes of what one SELECT answers, whose items are columns and answers of calls at some places.
fn lent_answer(
    alloc: Global,
    set: &mut SegmentSet,
    placed: &PlacedSelect,
) -> Result<Vec<u8>, AskFault>
    requires sound { is_sound_select (select_plan placed.now.select.now) ≡ true }
    requires reads { ReadsPlaces (select_plan placed.now.select.now) placed.now.places.now }
    ensures answer { MatchResult result
        (λ bytes. plan_answer (select_plan placed.now.select.now ∷ []) (rows_of_set set.old) ≡ Ok bytes.items)
        (λ fault. (fault ≡ NoMemory) ⊎ (plan_answer (select_plan placed.now.select.now ∷ []) (rows_of_set set.old) ≡ Err fault)) }
    ensures same { Becomes set.old set.old.view set.new }
{
    let bytes = lent_text(alloc, placed, set)?;
    Ok(bytes)
}

/// The bytes of the answer of a query, as `print` makes them of the table that `execute` answers, or its fault, of a set whose cells
/// are made, as `execute` wants it. No table is built for one SELECT without GROUP BY whose items are plain columns or answers of calls
/// over windows, whose rows are printed where they lie. There are two exceptions: no window, an ORDER BY, and OFFSET plus LIMIT at most
/// 1,024; or windows, and an ORDER BY whose order no run tells. Where such a SELECT has no WHERE, no window and no ORDER BY, no row behind
/// the last that is asked for is listed.
pub fn answer_text(
    alloc: Global,
    set: &mut SegmentSet,
    query: &Resolved,
) -> Result<Vec<u8>, AskFault>
    requires sound { is_sound_query (plans query.now) ≡ true }
    ensures answer { MatchResult result
        (λ bytes. plan_answer (plans query.now) (rows_of_set set.old) ≡ Ok bytes.items)
        (λ fault. (fault ≡ NoMemory) ⊎ (plan_answer (plans query.now) (rows_of_set set.old) ≡ Err fault)) }
    ensures same { Becomes set.old set.old.view set.new }
{
    let Some(select) = one_select(&query.selections) else {
        return printed_answer(alloc, set, query);
    };
    let Some(places) = lent_places(alloc, select)? else {
        return printed_answer(alloc, set, query);
    };
    let placed = PlacedSelect {
        select,
        places: &places,
    };
    lent_answer(alloc, set, &placed)
}
