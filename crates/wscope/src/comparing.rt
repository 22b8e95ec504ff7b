//! Whether two items have one expression.

ghost use Rattle.std.specs.Prelude.{◌≡◌};
ghost use Rattle.wquery.specs.Tree.{view};
ghost use Rattle.wscope.specs.Sources.{all_titled};
ghost use Rattle.wscope.specs.Called.{is_column_at as stands_at, same_shown};
ghost use Rattle.wscope.specs.Outputs.{shown};

use crate::names::place_named;
use crate::output::Output;
use crate::source::SourceColumn;
use wnodes::same;
use wquery::Expression;

#[tactic(auto, unfolding(wquery::specs::Tree::view))]
fn is_column_at(columns: &[SourceColumn], place: usize, expression: &Expression) -> bool
    ensures { result ≡ stands_at (all_titled columns.now) place (view expression.now) }
{
    match expression {
        Expression::Column(column) => place_named(columns, column.name.as_str()) == place,
        _ => false,
    }
}

/// Whether two items have one expression, a column being its place.
pub(crate) fn same_output(columns: &[SourceColumn], a: Output, b: Output) -> bool
    ensures { result ≡ same_shown (all_titled columns.now) (shown a.entry) (shown b.entry) }
{
    match a {
        Output::Placed(p) => match b {
            Output::Placed(q) => p == q,
            Output::Spelled(t) => is_column_at(columns, p, t),
        },
        Output::Spelled(t) => match b {
            Output::Placed(p) => is_column_at(columns, p, t),
            Output::Spelled(u) => same(t, u),
        },
    }
}
