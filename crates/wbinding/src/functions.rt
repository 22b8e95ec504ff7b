//! Aggregates and functions over windows.

ghost use Rattle.std.specs.Prelude.{◌≡◌, IfOk, Some, None};
ghost use Rattle.wscope.specs.declared.function.Function.TheVariants.{Lag, Lead, NthValue};
ghost use Rattle.wquery.specs.Tree.{view_call, view_arguments, view_optional, filter_of, Unfiltered};
ghost use Rattle.wplan.specs.Plans.{aggregate_plan, function_plan, optional_formula};
ghost use Rattle.wbinding.specs.Resolving.{layout_of, resolved_option};
ghost use Rattle.wbinding.specs.Functions.{aggregate_function as aggregate_function_of, aggregated, aggregate_made};
ghost use Rattle.wbinding.specs.Functions.{function_made, call_function, filter_made};

use crate::arguments::{build_argument, literal_at, number_at};
use crate::layout::RowLayout;
use crate::resolving::build;
use std::alloc::{AllocError, Global};
use wplan::{Aggregate, AggregateFunction, Expr, WindowFunction};
use wquery::{Arguments, Call, Expression};
use wscope::{Function, function_of};

#[tactic(auto, unfolding(wquery::specs::Tree::view_arguments, wquery::specs::Tree::view))]
fn count_function(arguments: &Arguments) -> AggregateFunction
    ensures { result ≡ aggregate_function_of None (view_arguments arguments.now) }
{
    match arguments {
        Arguments::Star => AggregateFunction::CountRows,
        Arguments::Listed(_) => AggregateFunction::Count,
        Arguments::Columns(_) => AggregateFunction::Count,
    }
}

fn aggregate_function(function: Option<Function>, arguments: &Arguments) -> AggregateFunction
    ensures { result ≡ aggregate_function_of function (view_arguments arguments.now) }
{
    match function {
        Some(Function::Sum) => AggregateFunction::Sum,
        Some(Function::Min) => AggregateFunction::Min,
        Some(Function::Max) => AggregateFunction::Max,
        _ => count_function(arguments),
    }
}

/// An expression that may be left out.
pub fn build_option(
    alloc: Global,
    layout: &RowLayout,
    e: &Option<Expression>,
) -> Result<Option<Expr>, AllocError>
    ensures { IfOk result (λ x. optional_formula x ≡ resolved_option (layout_of layout.now) (view_optional e.now)) }
{
    match e {
        None => Ok(None),
        Some(e) => {
            let x = build(alloc, layout, e)?;
            Ok(Some(x))
        }
    }
}

fn build_filter(
    alloc: Global,
    layout: &RowLayout,
    filter: &Option<Expression>,
) -> Result<Option<Expr>, AllocError>
    ensures { IfOk result (λ x. optional_formula x ≡ filter_made (layout_of layout.now) (filter_of (view_optional filter.now))) }
{
    match filter {
        None => Ok(None),
        Some(e) => {
            let x = build(alloc, layout, e)?;
            Ok(Some(x))
        }
    }
}

fn build_aggregated(
    alloc: Global,
    layout: &RowLayout,
    function: Option<Function>,
    arguments: &Arguments,
    filter: &Option<Expression>,
) -> Result<Aggregate, AllocError>
    ensures { IfOk result (λ a. aggregate_plan a ≡ aggregated (layout_of layout.now) function (view_arguments arguments.now)
        (filter_of (view_optional filter.now))) }
{
    let argument = build_argument(alloc, layout, arguments, 0)?;
    let filter = build_filter(alloc, layout, filter)?;
    Ok(Aggregate {
        function: aggregate_function(function, arguments),
        argument,
        filter,
    })
}

/// An aggregate.
pub(crate) fn build_aggregate(
    alloc: Global,
    layout: &RowLayout,
    call: &Call,
) -> Result<Aggregate, AllocError>
    ensures { IfOk result (λ a. aggregate_plan a ≡ aggregate_made (layout_of layout.now) (view_call call.now)) }
{
    let function = function_of(call.name.as_str());
    build_aggregated(alloc, layout, function, &call.arguments, &call.filter)
}

fn build_lag(
    alloc: Global,
    layout: &RowLayout,
    arguments: &Arguments,
) -> Result<WindowFunction, AllocError>
    ensures { IfOk result (λ f. function_plan f ≡ function_made (layout_of layout.now) (Some Lag)
        (view_arguments arguments.now) Unfiltered) }
{
    let value = build_argument(alloc, layout, arguments, 0)?;
    let default = literal_at(arguments, 2)?;
    Ok(WindowFunction::Lag {
        value,
        rows: number_at(arguments, 1, 1),
        default,
    })
}

fn build_lead(
    alloc: Global,
    layout: &RowLayout,
    arguments: &Arguments,
) -> Result<WindowFunction, AllocError>
    ensures { IfOk result (λ f. function_plan f ≡ function_made (layout_of layout.now) (Some Lead)
        (view_arguments arguments.now) Unfiltered) }
{
    let value = build_argument(alloc, layout, arguments, 0)?;
    let default = literal_at(arguments, 2)?;
    Ok(WindowFunction::Lead {
        value,
        rows: number_at(arguments, 1, 1),
        default,
    })
}

fn build_nth_value(
    alloc: Global,
    layout: &RowLayout,
    arguments: &Arguments,
) -> Result<WindowFunction, AllocError>
    ensures { IfOk result (λ f. function_plan f ≡ function_made (layout_of layout.now) (Some NthValue)
        (view_arguments arguments.now) Unfiltered) }
{
    let value = build_argument(alloc, layout, arguments, 0)?;
    Ok(WindowFunction::NthValue {
        value,
        place: number_at(arguments, 1, 1),
    })
}

fn build_of(
    alloc: Global,
    layout: &RowLayout,
    function: Option<Function>,
    arguments: &Arguments,
    filter: &Option<Expression>,
) -> Result<WindowFunction, AllocError>
    ensures { IfOk result (λ f. function_plan f ≡ function_made (layout_of layout.now) function
        (view_arguments arguments.now) (filter_of (view_optional filter.now))) }
{
    match function {
        Some(Function::RowNumber) => Ok(WindowFunction::RowNumber),
        Some(Function::Rank) => Ok(WindowFunction::Rank),
        Some(Function::DenseRank) => Ok(WindowFunction::DenseRank),
        Some(Function::Ntile) => Ok(WindowFunction::Tile(number_at(arguments, 0, 1))),
        Some(Function::Lag) => build_lag(alloc, layout, arguments),
        Some(Function::Lead) => build_lead(alloc, layout, arguments),
        Some(Function::FirstValue) => {
            let value = build_argument(alloc, layout, arguments, 0)?;
            Ok(WindowFunction::FirstValue(value))
        }
        Some(Function::LastValue) => {
            let value = build_argument(alloc, layout, arguments, 0)?;
            Ok(WindowFunction::LastValue(value))
        }
        Some(Function::NthValue) => build_nth_value(alloc, layout, arguments),
        _ => {
            let aggregate = build_aggregated(alloc, layout, function, arguments, filter)?;
            Ok(WindowFunction::Aggregated(aggregate))
        }
    }
}

/// The function of a call with OVER.
pub fn build_function(
    alloc: Global,
    layout: &RowLayout,
    call: &Call,
) -> Result<WindowFunction, AllocError>
    ensures { IfOk result (λ f. function_plan f ≡ call_function (layout_of layout.now) (view_call call.now)) }
{
    let function = function_of(call.name.as_str());
    build_of(alloc, layout, function, &call.arguments, &call.filter)
}
