//! The rules on groups, of where calls and columns may stand: Q15, Q16 and Q17.

ghost use Rattle.std.specs.Prelude.{◌≡◌, ◌&&◌, map, if◌then◌else◌};
ghost use Rattle.std.specs.List.{list_any};
ghost use Rattle.wquery.specs.GroupElements.{all_columns};
ghost use Rattle.wquery.specs.Tree.{view, view_call};
ghost use Rattle.wquery.specs.QueryTree.{view_item};
ghost use Rattle.wscope.specs.Called.{is_star, names};
ghost use Rattle.wscope.specs.Scoped.{scope_clauses, scope_columns};
ghost use Rattle.wscope.specs.Sources.{all_titled};
ghost use Rattle.wscope.specs.declared.look.Look.TheVariants.{Found, Below};
ghost use Rattle.wscope.specs.Finding.{finds};
ghost use Rattle.wnames.specs.Groups.{is_window_call as is_call_over, is_misplaced_window_call as is_misplaced};
ghost use Rattle.wnames.specs.Groups.{is_group_call as is_call_of_group, is_nested_group_call as is_nested, has_columns};
ghost use Rattle.wnames.specs.Groups.{sees_ungrouped, is_ungrouped_column as is_outside, names_ungrouped as names_outside};
ghost use Rattle.wnames.specs.Groups.{is_grouped as has_groups, breaks_window_places, breaks_aggregate_places, breaks_grouping};

use crate::calls::is_group_function;
use wquery::{Arguments, Expression, Item};
use wscope::{
    Look, NodeTest, Scope, SourceColumn, any_anywhere, any_below, any_in_entries, any_in_option,
    any_shown, found_if,
};

/// A call with OVER.
#[derive(Drop)]
struct WindowCall;

impl NodeTest for WindowCall {
    ghost sees = { λ _. finds is_call_over };

    #[tactic(auto, unfolding(wquery::specs::Tree::view, wquery::specs::Tree::view_call, wquery::specs::Tree::view_over))]
    fn look(&self, node: &Expression) -> Look {
        match node {
            Expression::Call(call) => found_if(call.over.is_some()),
            _ => Look::Below,
        }
    }
}

/// Whether it is an aggregate without OVER, or GROUPING.
#[tactic(auto, unfolding(wquery::specs::Tree::view, wquery::specs::Tree::view_call, wquery::specs::Tree::view_over, wquery::specs::Tree::view_arguments))]
fn is_group_call(node: &Expression) -> bool
    ensures { result ≡ is_call_of_group (view node.now) }
{
    let Expression::Call(call) = node else {
        return false;
    };
    if call.over.is_some() {
        return false;
    }
    is_group_function(call.name.as_str(), &call.arguments)
}

/// An aggregate without OVER, or GROUPING.
#[derive(Drop)]
struct GroupCall;

impl NodeTest for GroupCall {
    ghost sees = { λ _. finds is_call_of_group };

    fn look(&self, node: &Expression) -> Look {
        found_if(is_group_call(node))
    }
}

#[tactic(auto, unfolding(wquery::specs::Tree::view, wquery::specs::Tree::view_call, wquery::specs::Tree::view_over, wquery::specs::Tree::view_arguments))]
fn is_misplaced_window_call(node: &Expression) -> bool
    ensures { result ≡ is_misplaced (view node.now) }
{
    let Expression::Call(call) = node else {
        return false;
    };
    if any_below(&WindowCall, node) {
        return true;
    }
    if call.over.is_some() {
        return false;
    }
    !is_group_function(call.name.as_str(), &call.arguments)
}

/// A call in whose arguments, FILTER or window a call with OVER stands, or one that has no OVER and is neither of an
/// aggregate nor GROUPING.
#[derive(Drop)]
struct MisplacedWindowCall;

impl NodeTest for MisplacedWindowCall {
    ghost sees = { λ _. finds is_misplaced };

    fn look(&self, node: &Expression) -> Look {
        found_if(is_misplaced_window_call(node))
    }
}

/// Q15.
pub fn misplaces_window_calls(scope: &Scope) -> bool
    ensures { result ≡ breaks_window_places (scope_columns scope.now) (scope_clauses scope.now) }
{
    let query = scope.query;
    if any_in_option(&WindowCall, &query.condition) {
        return true;
    }
    if any_in_option(&WindowCall, &query.having) {
        return true;
    }
    if any_in_entries(&WindowCall, query.windows.as_slice()) {
        return true;
    }
    any_anywhere(&MisplacedWindowCall, scope)
}

/// An aggregate without OVER, in whose arguments or FILTER another one, or GROUPING, stands.
#[derive(Drop)]
struct NestedGroupCall;

impl NodeTest for NestedGroupCall {
    ghost sees = { λ _. finds is_nested };

    fn look(&self, node: &Expression) -> Look {
        if !is_group_call(node) {
            return Look::Below;
        }
        found_if(any_below(&GroupCall, node))
    }
}

/// Q16.
pub fn misplaces_aggregates(scope: &Scope) -> bool
    ensures { result ≡ breaks_aggregate_places (scope_columns scope.now) (scope_clauses scope.now) }
{
    if any_in_option(&GroupCall, &scope.query.condition) {
        return true;
    }
    any_anywhere(&NestedGroupCall, scope)
}

/// Whether a query over these columns is grouped: by GROUP BY, HAVING, or an aggregate without OVER or GROUPING in the
/// SELECT list, WINDOW or ORDER BY. (A query with GROUPING alone breaks Q17.)
fn is_grouped(scope: &Scope) -> bool
    ensures { result ≡ has_groups (scope_columns scope.now) (scope_clauses scope.now) }
{
    if !scope.query.grouping.is_empty() {
        return true;
    }
    if scope.query.having.is_some() {
        return true;
    }
    any_shown(&GroupCall, scope)
}

fn look_at_column(scope: &Scope, name: &str) -> Look
    ensures { result ≡ if list_any (names name.now) (all_columns (scope_clauses scope.now).grouping) then Below else Found }
{
    if scope.groups_by(name) {
        Look::Below
    } else {
        Look::Found
    }
}

/// Whether it is GROUPING.
#[tactic(auto, unfolding(wquery::specs::Tree::view, wquery::specs::Tree::view_call, wquery::specs::Tree::view_arguments))]
fn is_grouping_call(node: &Expression) -> bool
    ensures { result ≡ has_columns (view node.now) }
{
    match node {
        Expression::Call(call) => matches!(&call.arguments, Arguments::Columns(_)),
        _ => false,
    }
}

/// A column outside GROUP BY, one of GROUPING too, not in arguments and FILTER of aggregates without OVER.
#[derive(Drop)]
struct Ungrouped<'a, 'b> {
    scope: &'a Scope<'b>,
}

impl<'a, 'b> NodeTest for Ungrouped<'a, 'b> {
    ghost sees = { λ u. sees_ungrouped (all_columns (scope_clauses u.scope.now).grouping) };

    #[tactic(auto, unfolding(wquery::specs::Tree::view))]
    fn look(&self, node: &Expression) -> Look {
        if is_grouping_call(node) {
            return Look::Below;
        }
        if is_group_call(node) {
            return Look::Closed;
        }
        match node {
            Expression::Column(column) => look_at_column(self.scope, column.name.as_str()),
            _ => Look::Below,
        }
    }
}

fn any_ungrouped_column(scope: &Scope, columns: &[SourceColumn]) -> bool
    ensures { result ≡ list_any (is_outside (all_columns (scope_clauses scope.now).grouping)) (all_titled columns.now) }
{
    'columns: for column in columns {
        if !scope.groups_by(column.name.as_str()) {
            return true;
        }
    }
    false
}

fn has_star(items: &[Item]) -> bool
    ensures { result ≡ list_any is_star (map view_item items.now) }
{
    'items: for item in items {
        if matches!(item, Item::All) {
            return true;
        }
    }
    false
}

fn stars_ungrouped(scope: &Scope) -> bool
    ensures { result ≡ (list_any is_star (scope_clauses scope.now).items
        && list_any (is_outside (all_columns (scope_clauses scope.now).grouping)) (scope_columns scope.now)) }
{
    if !has_star(scope.query.items.as_slice()) {
        return false;
    }
    any_ungrouped_column(scope, scope.columns)
}

fn names_ungrouped(scope: &Scope) -> bool
    ensures { result ≡ names_outside (scope_columns scope.now) (scope_clauses scope.now) }
{
    let test = Ungrouped { scope };
    if any_shown(&test, scope) {
        return true;
    }
    if any_in_option(&test, &scope.query.having) {
        return true;
    }
    stars_ungrouped(scope)
}

/// Q17.
pub fn names_ungrouped_column(scope: &Scope) -> bool
    ensures { result ≡ breaks_grouping (scope_columns scope.now) (scope_clauses scope.now) }
{
    is_grouped(scope) && names_ungrouped(scope)
}
