//! The least rule that a SELECT breaks.

ghost use Rattle.std.specs.Prelude.{◌≡◌, nat_lt};
ghost use Rattle.wquery.specs.QueryTree.{view_query};
ghost use Rattle.wscope.specs.Earlier.{windows_in};
ghost use Rattle.wscope.specs.Scoped.{IsExpanded, scope_clauses, scope_columns, scope_source};
ghost use Rattle.wrules.specs.Rules.{depth, depth_rule as rule_on_depth, first_of_names as first_on_names};
ghost use Rattle.wrules.specs.Rules.{first_of_windows as first_on_windows, least_broken, or_else as rule_or, sets_rule as rule_on_sets};

use crate::rule::Rule;
use wgroupby::has_too_many_sets;
use wnames::{
    calls_wrongly, counts_none, filters_wrongly, has_wrong_types, misplaces_aggregates,
    misplaces_window_calls, names_ambiguously, names_ungrouped_column, names_unknown_column,
    names_unknown_table,
};
use wquery::{Query, Source};
use wscope::Scope;
use wwindows::{
    bounds_wrongly, copies_wrongly, exceeds_limits, has_unordered_groups, has_wrong_place,
    has_wrong_range_key, names_unknown_window, repeats_windows,
};

/// The first rule that is broken of those on names, calls, types and groups.
fn first_of_names(scope: &Scope) -> Option<Rule>
    ensures { result ≡ first_on_names scope.now.table.now scope.now.alias.now (scope_columns scope.now)
        (scope_clauses scope.now) (scope_source scope.now) }
{
    if names_unknown_table(scope) {
        return Some(Rule::UnknownTable);
    }
    if names_unknown_column(scope) {
        return Some(Rule::UnknownColumn);
    }
    if names_ambiguously(scope) {
        return Some(Rule::AmbiguousName);
    }
    if calls_wrongly(scope) {
        return Some(Rule::WrongCall);
    }
    if has_wrong_types(scope) {
        return Some(Rule::WrongType);
    }
    if misplaces_window_calls(scope) {
        return Some(Rule::MisplacedWindowCall);
    }
    if misplaces_aggregates(scope) {
        return Some(Rule::MisplacedAggregate);
    }
    if names_ungrouped_column(scope) {
        return Some(Rule::UngroupedColumn);
    }
    if filters_wrongly(scope) {
        return Some(Rule::WrongFilter);
    }
    None
}

/// The first rule that is broken of those on windows, places and limits.
fn first_of_windows(scope: &Scope) -> Option<Rule>
    requires { IsExpanded scope.now }
    ensures { result ≡ first_on_windows (windows_in scope.now.windows) (scope_columns scope.now) (scope_clauses scope.now) }
{
    if names_unknown_window(scope) {
        return Some(Rule::UnknownWindow);
    }
    if repeats_windows(scope) {
        return Some(Rule::RepeatedWindow);
    }
    if copies_wrongly(scope) {
        return Some(Rule::WrongCopy);
    }
    if bounds_wrongly(scope) {
        return Some(Rule::WrongBounds);
    }
    if has_unordered_groups(scope) {
        return Some(Rule::UnorderedGroups);
    }
    if has_wrong_range_key(scope) {
        return Some(Rule::WrongRangeKey);
    }
    if counts_none(scope) {
        return Some(Rule::ZeroCount);
    }
    if has_wrong_place(scope) {
        return Some(Rule::WrongPlace);
    }
    if exceeds_limits(scope) {
        return Some(Rule::OverLimit);
    }
    None
}

/// The least rule that a SELECT breaks, its derived table and the number of its sets aside.
fn least_rule(scope: &Scope) -> Option<Rule>
    requires { IsExpanded scope.now }
    ensures { result ≡ least_broken scope.now.table.now scope.now.alias.now (scope_columns scope.now)
        (scope_clauses scope.now) (scope_source scope.now) }
{
    match first_of_names(scope) {
        Some(rule) => Some(rule),
        None => first_of_windows(scope),
    }
}

fn or_else(rule: Option<Rule>, other: Option<Rule>) -> Option<Rule>
    ensures { result ≡ rule_or rule other }
{
    match rule {
        Some(rule) => Some(rule),
        None => other,
    }
}

/// The rule on the number of sets, where it is broken.
#[tactic(auto, unfolding(wquery::specs::QueryTree::view_query))]
fn sets_rule(query: &Query) -> Option<Rule>
    ensures { result ≡ rule_on_sets (view_query query.now) }
{
    if has_too_many_sets(query.grouping.as_slice()) {
        return Some(Rule::TooManySets);
    }
    None
}

/// The least rule that a SELECT breaks, its derived table aside. The last rule but that on the number of its sets is given,
/// where it is broken.
pub fn broken_rule(scope: &Scope, last: Option<Rule>) -> Option<Rule>
    requires { IsExpanded scope.now }
    ensures { result ≡ rule_or (least_broken scope.now.table.now scope.now.alias.now (scope_columns scope.now)
        (scope_clauses scope.now) (scope_source scope.now)) (rule_or last (rule_on_sets (view_query scope.now.query.now))) }
{
    or_else(least_rule(scope), or_else(last, sets_rule(scope.query)))
}

/// Whether more derived tables than this stand one in another.
#[tactic(auto, unfolding(wquery::specs::QueryTree::view_query, wquery::specs::QueryTree::view_source))]
fn is_deeper(query: &Query, most: u8) -> bool
    ensures { result ≡ nat_lt most (depth (view_query query.now)) }
{
    let Source::Derived { query: inner, .. } = &query.source else {
        return false;
    };
    if most == 0 {
        return true;
    }
    is_deeper(inner, most - 1)
}

/// The rule on derived tables one in another, of the outermost query, where it is broken.
pub fn depth_rule(query: &Query) -> Option<Rule>
    ensures { result ≡ rule_on_depth (view_query query.now) }
{
    if is_deeper(query, 8) {
        return Some(Rule::OverLimit);
    }
    None
}
