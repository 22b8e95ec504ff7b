//! The types of expressions.

ghost use Rattle.std.specs.Prelude.{◌≡◌};
ghost use Rattle.wquery.specs.Tree.{view, view_call, view_arguments, trees, views};
ghost use Rattle.wscope.specs.Signature.{known_type};
ghost use Rattle.wscope.specs.Types.{type_of as type_in, given_type, type_at, type_named, call_type, type_or};
ghost use Rattle.wscope.specs.Sources.{all_titled};

use crate::data_type::DataType;
use crate::function::Function;
use crate::naming::function_of;
use crate::signature::{Gives, signature_of};
use crate::source::SourceColumn;
use wquery::{Arguments, Call, Expression};

fn named(columns: &[SourceColumn], name: &str) -> DataType
    ensures { result ≡ type_named (all_titled columns.now) name.now }
{
    'columns: for column in columns {
        if column.has_name(name) {
            return column.data_type;
        }
    }
    DataType::Null
}

fn of_form(gives: Gives) -> DataType
    ensures { result ≡ known_type gives }
{
    match gives {
        Gives::Known(data_type) => data_type,
        Gives::ItsColumn => DataType::Null,
        Gives::ItsFunction => DataType::Null,
    }
}

fn either(value: DataType, other: DataType) -> DataType
    ensures { result ≡ type_or value other }
{
    match value {
        DataType::Null => other,
        _ => value,
    }
}

fn of_call(function: Option<Function>, value: DataType, default: DataType) -> DataType
    ensures { result ≡ call_type function value default }
{
    match function {
        Some(Function::Lag) => either(value, default),
        Some(Function::Lead) => either(value, default),
        Some(Function::FirstValue) => value,
        Some(Function::LastValue) => value,
        Some(Function::NthValue) => value,
        Some(Function::Min) => value,
        Some(Function::Max) => value,
        _ => DataType::Integer,
    }
}

/// The type of an expression over these columns.
#[cycle(typing)]
#[tactic(auto, unfolding(wquery::specs::Tree::view, wquery::specs::Tree::view_call))]
pub fn type_of(columns: &[SourceColumn], e: &Expression) -> DataType
    ensures { result ≡ type_in (all_titled columns.now) (view e.now) }
{
    match e {
        Expression::Column(column) => named(columns, column.name.as_str()),
        Expression::Call(call) => type_of_call(columns, call),
        _ => of_form(signature_of(e).gives),
    }
}

#[cycle(typing)]
#[tactic(auto, unfolding(wquery::specs::Tree::view_call))]
fn type_of_call(columns: &[SourceColumn], call: &Call) -> DataType
    ensures { result ≡ type_in (all_titled columns.now) (view_call call.now) }
{
    let value = type_given(columns, &call.arguments, 0);
    let default = type_given(columns, &call.arguments, 2);
    of_call(function_of(call.name.as_str()), value, default)
}

#[cycle(typing)]
#[tactic(auto, unfolding(wquery::specs::Tree::view_arguments, wquery::specs::Tree::view))]
fn type_given(columns: &[SourceColumn], arguments: &Arguments, place: usize) -> DataType
    ensures { result ≡ given_type (all_titled columns.now) place (view_arguments arguments.now) }
{
    match arguments {
        Arguments::Star => DataType::Null,
        Arguments::Listed(list) => type_at_place(columns, list.as_slice(), place),
        Arguments::Columns(_) => DataType::Null,
    }
}

#[cycle(typing)]
fn type_at_place(columns: &[SourceColumn], list: &[Expression], place: usize) -> DataType
    ensures { result ≡ type_at (all_titled columns.now) place (trees (views list.now)) }
{
    if place < list.len() {
        return type_of(columns, &list[place]);
    }
    DataType::Null
}
