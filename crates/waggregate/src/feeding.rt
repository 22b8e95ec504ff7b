//! What aggregates are fed.
ghost use Rattle.std.specs.Prelude.{◌≡◌, ◌<◌, length, map, IfNone, IfOk, IfSome, Ok, Some, option_map, slice_index_or, true};
ghost use Rattle.std.specs.Option.{ForSome, is_some};
ghost use Rattle.wvalues.specs.Meaning.{Null, meaning};
ghost use Rattle.wframe.specs.Cells.{meanings};
ghost use Rattle.wplan.specs.declared.expr.Expr.{out-Expr};
ghost use Rattle.wplan.specs.Formula.{At, Constant, formula};
ghost use Rattle.wplan.specs.Plans.{optional_formula};
ghost use Rattle.wrows.specs.Columns.{column_of, filter_of, value_on};
ghost use Rattle.wrows.specs.Outcomes.{Gives};
ghost use Rattle.wrows.specs.Laid.{rows_seen};
ghost use Rattle.waggregate.specs.Feeding.{is_lent, is_null, rows_of, value_or_none, values_of};

use std::alloc::{AllocError, Global};
use wplan::Expr;
use wrows::{AnswerFault, Condition, lists, place_of};
use wvalues::Value;

/// What an aggregate's argument has on each row, by the rows' numbers.
#[derive(Clone, Copy)]
pub enum Argument<'a> {
    /// NULL on so many rows, as the argument of `count(*)` is.
    Null(usize),
    /// What the rows have at a place; null where one has no such place. It is read where it lies.
    Column(&'a [&'a [Value]], usize),
    /// A value for each row.
    Values(&'a [Value]),
}

/// What rows feed an aggregate, by their numbers.
#[derive(Clone, Copy)]
pub struct Fed<'a> {
    /// What its argument has on each row.
    pub argument: Argument<'a>,
    /// Whether its filter is true on each row, if it has one.
    pub filter: &'a Option<Vec<bool>>,
    ghost tests: { ForSome filter.now (λ tests. length tests.items ≡ rows_of argument) },
}

// Whether a condition is true on each row.
fn tests(alloc: Global, condition: &Condition, rows: &[&[Value]]) -> Result<Vec<bool>, AnswerFault>
    ensures gives { Gives (λ tests. Some tests.items) result (filter_of (Some (formula condition.now.expr.now)) (rows_seen rows.now)) }
    ensures len { IfOk result (λ tests. length tests.items ≡ length rows.now) }
{
    let mut tests = Vec::with_capacity(alloc, rows.len())?;
    for row in rows {
        tests.push(condition.holds(row)?)?;
    }
    Ok(tests)
}

/// Whether a filter is true on each row, if there is one, `OutOfRange` where it is so on any.
pub fn filter_rows(
    alloc: Global,
    condition: &Option<Expr>,
    rows: &[&[Value]],
) -> Result<Option<Vec<bool>>, AnswerFault>
    ensures gives { Gives (λ filter. option_map (λ tests. tests.items) filter) result
        (filter_of (optional_formula condition.now) (rows_seen rows.now)) }
    ensures len { IfOk result (λ filter. ForSome filter (λ tests. length tests.items ≡ length rows.now)) }
{
    match condition {
        None => Ok(None),
        Some(condition) => {
            let condition = Condition::new(alloc, condition)?;
            let tests = tests(alloc, &condition, rows)?;
            Ok(Some(tests))
        }
    }
}

/// The value of an argument on each row, `OutOfRange` where it is so on any.
pub fn argument_values(
    alloc: Global,
    expr: &Expr,
    rows: &[&[Value]],
) -> Result<Vec<Value>, AnswerFault>
    ensures gives { Gives (λ column. map meaning column.items) result (column_of (formula expr.now) (rows_seen rows.now)) }
    ensures len { IfOk result (λ column. length column.items ≡ length rows.now) }
{
    let exprs = [expr];
    let cells = lists(alloc, &exprs, rows)?;
    Ok(cells)
}

// A row's value at a place, if the row goes so far.
#[inline(always)]
fn cell_at(row: &[Value], place: usize) -> Option<&Value>
    ensures some { IfSome result (λ value. meaning value.now ≡ value_on (At place) (map meaning row.now)) }
    ensures none { IfNone result (value_on (At place) (map meaning row.now) ≡ Null) }
{
    if place < row.len() {
        Some(&row[place])
    } else {
        None
    }
}

impl<'a> Argument<'a> {
    /// On how many rows it is.
    pub fn rows(self) -> usize
        ensures { result ≡ rows_of self.entry }
    {
        match self {
            Argument::Null(rows) => rows,
            Argument::Column(rows, _) => rows.len(),
            Argument::Values(values) => values.len(),
        }
    }

    /// What it has on a row; none where that is null without a value that says so.
    #[inline(always)]
    pub(crate) fn value(self, row: usize) -> Option<&'a Value>
        requires { row < rows_of self }
        ensures { value_or_none result ≡ slice_index_or (values_of self.entry) row Null }
    {
        match self {
            Argument::Null(_) => None,
            Argument::Column(rows, place) => cell_at(rows[row], place),
            Argument::Values(values) => Some(&values[row]),
        }
    }

    // The same, `null` where there is none.
    #[inline(always)]
    fn value_or(self, row: usize, null: &'a Value) -> &'a Value
        requires within { row < rows_of self }
        requires lacking { meaning null.now ≡ Null }
        ensures { meaning result.now ≡ slice_index_or (values_of self.entry) row Null }
    {
        match self.value(row) {
            None => null,
            Some(value) => value,
        }
    }
}

/// What an argument has on each row, in a list of 8 bytes a row, lent from where it lies, and `null` where it is null without a
/// value that says so.
pub(crate) fn listed<'a>(
    alloc: Global,
    argument: Argument<'a>,
    null: &'a Value,
) -> Result<Vec<&'a Value>, AllocError>
    requires { meaning null.now ≡ Null }
    ensures value { IfOk result (λ values. meanings values.items ≡ values_of argument.entry) }
    ensures len { IfOk result (λ values. length values.items ≡ rows_of argument.entry) }
{
    let rows = argument.rows();
    let mut values = Vec::with_capacity(alloc, rows)?;
    for row in 0..rows {
        values.push(argument.value_or(row, null))?;
    }
    Ok(values)
}

/// The argument of an aggregate on some rows, where nothing has to be evaluated for it: where it is NULL, or a plain column, which
/// cannot be out of range.
pub fn plain_argument<'a>(expr: &Expr, rows: &'a [&'a [Value]]) -> Option<Argument<'a>>
    ensures found { is_some result ≡ is_lent (out-Expr expr.now) }
    ensures value { IfSome result (λ argument. column_of (formula expr.now) (rows_seen rows.now) ≡ Ok (values_of argument)) }
    ensures rows { IfSome result (λ argument. rows_of argument ≡ length rows.now) }
{
    if is_null(expr) {
        return Some(Argument::Null(rows.len()));
    }
    match place_of(expr) {
        None => None,
        Some(place) => Some(Argument::Column(rows, place)),
    }
}

/// Whether an argument is NULL, as that of `count(*)` is.
#[tactic(auto, unfolding(wplan::specs::Formula::formula))]
pub fn is_null(expr: &Expr) -> bool
    ensures found { result ≡ is_null (out-Expr expr.now) }
    ensures null { result ≡ true → formula expr.now ≡ Constant Null }
{
    match expr {
        Expr::Null => true,
        _ => false,
    }
}
