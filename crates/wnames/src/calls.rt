//! The rules on what a call is given: Q13, Q18 and Q25.

ghost use Rattle.std.specs.Prelude.{◌≡◌, ◌&&◌, nat_le, None, Some};
ghost use Rattle.wquery.specs.Tree.{Tree, view, views, trees, view_call, view_arguments};
ghost use Rattle.wscope.specs.Functions.{takes as may_take};
ghost use Rattle.wscope.specs.Scoped.{scope_clauses, scope_columns};
ghost use Rattle.wnodes.specs.Nodes.{count_trees};
ghost use Rattle.wscope.specs.Finding.{finds};
ghost use Rattle.wnames.specs.Calls.{is_count as is_count_function, passes_at, are_literal as are_literals, is_number as is_numeral};
ghost use Rattle.wnames.specs.Calls.{is_literal as is_constant, is_nonzero as is_some_number, is_well_given as suits_function};
ghost use Rattle.wnames.specs.Calls.{is_bad_call as is_bad, is_aggregate_name as is_name_of_aggregate};
ghost use Rattle.wnames.specs.Calls.{is_group_function as is_function_of_group, most_grouping_columns, is_bad_filter};
ghost use Rattle.wnames.specs.Calls.{counts_some as is_some_count, is_zeroth as is_none_count, breaks_calls, breaks_filters};
ghost use Rattle.wnames.specs.Calls.{breaks_zeroths};

use wquery::{Arguments, Call, Expression};
use wscope::{Function, Look, NodeTest, Scope, any_anywhere, found_if, function_of};

#[tactic(auto, unfolding(wquery::specs::Tree::view))]
fn is_number(expression: &Expression) -> bool
    ensures { result ≡ is_numeral (view expression.now) }
{
    matches!(expression, Expression::Number(_))
}

#[tactic(auto, unfolding(wquery::specs::Tree::view))]
fn is_nonzero(expression: &Expression) -> bool
    ensures { result ≡ is_some_number (view expression.now) }
{
    match expression {
        Expression::Number(number) => number.get() != 0,
        _ => true,
    }
}

/// A number with at most one minus, a text, NULL.
#[tactic(auto, unfolding(wquery::specs::Tree::view))]
fn is_literal(expression: &Expression) -> bool
    ensures { result ≡ is_constant (view expression.now) }
{
    match expression {
        Expression::Null => true,
        Expression::Number(_) => true,
        Expression::Text(_) => true,
        Expression::Sign { minus, operand } => *minus && is_number(operand),
        _ => false,
    }
}

fn is_number_at(list: &[Expression], place: usize) -> bool
    ensures { result ≡ passes_at place is_numeral (trees (views list.now)) }
{
    if place < list.len() {
        return is_number(&list[place]);
    }
    true
}

fn is_literal_at(list: &[Expression], place: usize) -> bool
    ensures { result ≡ passes_at place is_constant (trees (views list.now)) }
{
    if place < list.len() {
        return is_literal(&list[place]);
    }
    true
}

fn is_nonzero_at(list: &[Expression], place: usize) -> bool
    ensures { result ≡ passes_at place is_some_number (trees (views list.now)) }
{
    if place < list.len() {
        return is_nonzero(&list[place]);
    }
    true
}

fn are_literal(function: Function, list: &[Expression]) -> bool
    ensures { result ≡ are_literals function (trees (views list.now)) }
{
    match function {
        Function::Ntile => is_number_at(list, 0),
        Function::NthValue => is_number_at(list, 1),
        Function::Lag => is_number_at(list, 1) && is_literal_at(list, 2),
        Function::Lead => is_number_at(list, 1) && is_literal_at(list, 2),
        _ => true,
    }
}

fn takes_list(function: Function, list: &[Expression]) -> bool
    ensures { result ≡ may_take function (count_trees (trees (views list.now))) }
{
    function.takes(list.len())
}

fn is_list_given(function: Function, list: &[Expression]) -> bool
    ensures { result ≡ (may_take function (count_trees (trees (views list.now))) && are_literals function (trees (views list.now))) }
{
    if !takes_list(function, list) {
        return false;
    }
    are_literal(function, list)
}

fn is_count(function: Function) -> bool
    ensures { result ≡ is_count_function function }
{
    matches!(function, Function::Count)
}

/// The most columns of GROUPING.
const MAX_GROUPING_COLUMNS: usize = 31;

fn are_few(columns: &[Expression]) -> bool
    ensures { result ≡ nat_le (count_trees (trees (views columns.now))) most_grouping_columns }
{
    columns.len() <= MAX_GROUPING_COLUMNS
}

#[tactic(auto, unfolding(wquery::specs::Tree::view_arguments, wquery::specs::Tree::view))]
fn is_grouping_given(arguments: &Arguments) -> bool
    ensures { result ≡ suits_function None (view_arguments arguments.now) }
{
    match arguments {
        Arguments::Star => false,
        Arguments::Listed(_) => false,
        Arguments::Columns(columns) => are_few(columns.as_slice()),
    }
}

#[tactic(auto, unfolding(wquery::specs::Tree::view_arguments, wquery::specs::Tree::view))]
fn is_given(function: Function, arguments: &Arguments) -> bool
    ensures { result ≡ suits_function (Some function) (view_arguments arguments.now) }
{
    match arguments {
        Arguments::Star => is_count(function),
        Arguments::Listed(list) => is_list_given(function, list.as_slice()),
        Arguments::Columns(columns) => are_few(columns.as_slice()),
    }
}

fn is_well_given(function: Option<Function>, arguments: &Arguments) -> bool
    ensures { result ≡ suits_function function (view_arguments arguments.now) }
{
    match function {
        None => is_grouping_given(arguments),
        Some(function) => is_given(function, arguments),
    }
}

fn is_bad_call(call: &Call) -> bool
    ensures { result ≡ is_bad (view_call call.now) }
{
    !is_well_given(function_of(call.name.as_str()), &call.arguments)
}

/// An unknown function, or arguments that it does not take.
#[derive(Drop)]
struct BadCall;

impl NodeTest for BadCall {
    ghost sees = { λ _. finds is_bad };

    #[tactic(auto, unfolding(wquery::specs::Tree::view, wquery::specs::Tree::view_call))]
    fn look(&self, node: &Expression) -> Look {
        match node {
            Expression::Call(call) => found_if(is_bad_call(call)),
            _ => Look::Below,
        }
    }
}

/// Q13.
pub fn calls_wrongly(scope: &Scope) -> bool
    ensures { result ≡ breaks_calls (scope_columns scope.now) (scope_clauses scope.now) }
{
    any_anywhere(&BadCall, scope)
}

/// Whether this is the name of an aggregate.
pub(crate) fn is_aggregate_name(name: &str) -> bool
    ensures { result ≡ is_name_of_aggregate name.now }
{
    match function_of(name) {
        None => false,
        Some(function) => function.is_aggregate(),
    }
}

/// Whether this is an aggregate, or GROUPING.
#[tactic(auto, unfolding(wquery::specs::Tree::view_arguments, wquery::specs::Tree::view))]
pub(crate) fn is_group_function(name: &str, arguments: &Arguments) -> bool
    ensures { result ≡ is_function_of_group name.now (view_arguments arguments.now) }
{
    match arguments {
        Arguments::Star => is_aggregate_name(name),
        Arguments::Listed(_) => is_aggregate_name(name),
        Arguments::Columns(_) => true,
    }
}

/// FILTER on a function that is no aggregate.
#[derive(Drop)]
struct BadFilter;

impl NodeTest for BadFilter {
    ghost sees = { λ _. finds is_bad_filter };

    #[tactic(auto, unfolding(wquery::specs::Tree::view, wquery::specs::Tree::view_call))]
    fn look(&self, node: &Expression) -> Look {
        let Expression::Call(call) = node else {
            return Look::Below;
        };
        if call.filter.is_none() {
            return Look::Below;
        }
        found_if(!is_aggregate_name(call.name.as_str()))
    }
}

/// Q18.
pub fn filters_wrongly(scope: &Scope) -> bool
    ensures { result ≡ breaks_filters (scope_columns scope.now) (scope_clauses scope.now) }
{
    any_anywhere(&BadFilter, scope)
}

#[tactic(auto, unfolding(wquery::specs::Tree::view_arguments, wquery::specs::Tree::view))]
fn counts_some(function: Option<Function>, arguments: &Arguments) -> bool
    ensures { result ≡ is_some_count function (view_arguments arguments.now) }
{
    let Arguments::Listed(list) = arguments else {
        return true;
    };
    match function {
        Some(Function::Ntile) => is_nonzero_at(list.as_slice(), 0),
        Some(Function::NthValue) => is_nonzero_at(list.as_slice(), 1),
        _ => true,
    }
}

fn is_zeroth(call: &Call) -> bool
    ensures { result ≡ is_none_count (view_call call.now) }
{
    !counts_some(function_of(call.name.as_str()), &call.arguments)
}

/// `ntile(0)`, or `nth_value(v, 0)`.
#[derive(Drop)]
struct Zeroth;

impl NodeTest for Zeroth {
    ghost sees = { λ _. finds is_none_count };

    #[tactic(auto, unfolding(wquery::specs::Tree::view, wquery::specs::Tree::view_call))]
    fn look(&self, node: &Expression) -> Look {
        match node {
            Expression::Call(call) => found_if(is_zeroth(call)),
            _ => Look::Below,
        }
    }
}

/// Q25.
pub fn counts_none(scope: &Scope) -> bool
    ensures { result ≡ breaks_zeroths (scope_columns scope.now) (scope_clauses scope.now) }
{
    any_anywhere(&Zeroth, scope)
}
