//! Names of columns and of items.

ghost use Rattle.std.specs.Prelude.{◌≡◌, ◌≤◌, length};
ghost use Rattle.std.specs.List.{list_any};
ghost use Rattle.wquery.specs.Tree.{view, name_bytes};
ghost use Rattle.wscope.specs.Scope.{has_name, own_name as name_of_own, output_name as name_of_output};
ghost use Rattle.wscope.specs.Sources.{all_titled};
ghost use Rattle.wscope.specs.Types.{place_named as place_of_name};

use crate::source::SourceColumn;
use std::rc::RcStr;
use wquery::Expression;

/// Whether a column has this name.
pub fn has_column(columns: &[SourceColumn], name: &str) -> bool
    ensures { result ≡ list_any (has_name name.now) (all_titled columns.now) }
{
    'columns: for column in columns {
        if column.has_name(name) {
            return true;
        }
    }
    false
}

/// The place of the first column of this name, counted from 0, or the number of columns where none has it.
pub fn place_named(columns: &[SourceColumn], name: &str) -> usize
    ensures place { result ≡ place_of_name (all_titled columns.now) name.now }
    ensures within { result ≤ length columns.now }
{
    let mut place = 0;
    'columns: for column in columns {
        if column.has_name(name) {
            return place;
        }
        place += 1;
    }
    place
}

/// The name of an expression without alias: the column's, else the function's, else `?column?`.
#[tactic(auto, unfolding(wquery::specs::Tree::view, wquery::specs::Tree::view_call))]
fn own_name(expression: &Expression) -> &str
    ensures { result.now ≡ name_of_own (view expression.now) }
{
    match expression {
        Expression::Column(column) => column.name.as_str(),
        Expression::Call(call) => call.name.as_str(),
        _ => "?column?",
    }
}

/// An item's output name: its alias, else its own.
pub fn output_name<'a>(expression: &'a Expression, alias: &'a Option<RcStr>) -> &'a str
    ensures { result.now ≡ name_of_output (view expression.now) (name_bytes alias.now) }
{
    match alias {
        Some(name) => name.as_str(),
        None => own_name(expression),
    }
}
