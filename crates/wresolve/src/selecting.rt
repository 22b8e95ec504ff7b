//! SELECTs with each name and default resolved.

ghost use Rattle.std.specs.Prelude.{◌≡◌, [], ◌||◌, IfOk, map, length, Some, None, is_some, unwrap_or, if◌then◌else◌};
ghost use Rattle.wquery.specs.GroupElements.{view_element};
ghost use Rattle.wquery.specs.Tree.{view_key, view_optional};
ghost use Rattle.wplan.specs.Formula.{formula};
ghost use Rattle.wplan.specs.Plans.{group_call_plan, grouping_plan, optional_formula, optional_grouping};
ghost use Rattle.wplan.specs.Plans.{output_plan, key_plan, select_plan, window_plan, call_plan};
ghost use Rattle.wscope.specs.Sources.{all_titled, written_out as items_written};
ghost use Rattle.wscope.specs.Earlier.{windows_in};
ghost use Rattle.wscope.specs.Scoped.{IsExpanded, scope_clauses, scope_columns};
ghost use Rattle.wscope.specs.Windows.{expand_all as expanded_entries};
ghost use Rattle.wgroupby.specs.Held.{element_in};
ghost use Rattle.wgroupby.specs.Sets.{query_sets as sets_of};
ghost use Rattle.wdistinct.specs.Calls.{call_trees};
ghost use Rattle.wscope.specs.Clauses.{clauses_in};
ghost use Rattle.wdistinct.specs.Places.{calls_in};
ghost use Rattle.wbinding.specs.Resolving.{layout_of, row_calls, places_of, source_row, resolved_option};
ghost use Rattle.wbinding.specs.Groups.{group_call_made};
ghost use Rattle.wresolve.specs.Shown.{shown_of, shown_item, shown_items};
ghost use Rattle.wnames.specs.Groups.{has_some};
ghost use Rattle.wresolve.specs.Selecting.{output_made, order_made, shown_formula, grouping_over, windows_made, calls_made};
ghost use Rattle.wresolve.specs.Selecting.{is_grouped as is_grouped_query, select_over, select_with, select_made};

use crate::shown::{ShownOutput, ShownValue, key_value, written_out};
use crate::windows::{build_calls, build_entries, push_own_windows, sort_key};
use std::alloc::{AllocError, Global};
use std::rc::RcStr;
use wbinding::{RowCalls, RowLayout, build, build_elements, build_group_call, build_option};
use wdistinct::{group_calls, window_calls};
use wgroupby::{PlacedElement, group_columns, query_sets};
use wplan::{CallOver, Expr, GroupCall, Grouping, Output, ResolvedKey, ResolvedWindow, Selection};
use wquery::{Call, Key, Query};
use wscope::{Scope, SourceColumn, WindowIndex};

fn build_group_calls(
    alloc: Global,
    layout: &RowLayout,
    calls: &[&Call],
) -> Result<Vec<GroupCall>, AllocError>
    ensures { IfOk result (λ made. map group_call_plan made.items ≡ map (group_call_made (layout_of layout.now)) (call_trees calls.now)) }
{
    let mut made = Vec::with_capacity(alloc, calls.len())?;
    'calls: for call in calls {
        let next = build_group_call(alloc, layout, call)?;
        made.push(next)?;
    }
    Ok(made)
}

#[tactic(auto, unfolding(wplan::specs::Formula::formula))]
fn build_shown(alloc: Global, layout: &RowLayout, value: &ShownValue) -> Result<Expr, AllocError>
    ensures { IfOk result (λ x. formula x ≡ shown_formula (layout_of layout.now) (shown_of value.now)) }
{
    match value {
        ShownValue::Column(place) => Ok(Expr::Place(layout.cell(*place))),
        ShownValue::Expression(e) => build(alloc, layout, e),
        ShownValue::Nothing => Ok(Expr::Null),
    }
}

fn build_output(alloc: Global, layout: &RowLayout, item: &ShownOutput) -> Result<Output, AllocError>
    ensures { IfOk result (λ o. output_plan o ≡ output_made (layout_of layout.now) (shown_item item.now)) }
{
    let name = RcStr::from_str(alloc, item.name)?;
    let value = build_shown(alloc, layout, &item.value)?;
    Ok(Output { name, value })
}

fn build_outputs(
    alloc: Global,
    layout: &RowLayout,
    shown: &[ShownOutput],
) -> Result<Vec<Output>, AllocError>
    ensures { IfOk result (λ made. map output_plan made.items ≡ map (output_made (layout_of layout.now)) (shown_items shown.now)) }
{
    let mut made = Vec::with_capacity(alloc, shown.len())?;
    'shown: for item in shown {
        let next = build_output(alloc, layout, item)?;
        made.push(next)?;
    }
    Ok(made)
}

#[tactic(auto, unfolding(wquery::specs::Tree::view_key, wquery::specs::Tree::view))]
fn build_order_key(
    alloc: Global,
    layout: &RowLayout,
    shown: &[ShownOutput],
    key: &Key,
) -> Result<ResolvedKey, AllocError>
    ensures { IfOk result (λ k. key_plan k ≡ order_made (layout_of layout.now) (shown_items shown.now) (view_key key.now)) }
{
    let value = build_shown(alloc, layout, &key_value(shown, &key.expression))?;
    Ok(ResolvedKey {
        value,
        order: sort_key(key.descending, key.nulls),
    })
}

fn build_order(
    alloc: Global,
    layout: &RowLayout,
    shown: &[ShownOutput],
    order: &[Key],
) -> Result<Vec<ResolvedKey>, AllocError>
    ensures { IfOk result (λ made. map key_plan made.items ≡ map (order_made (layout_of layout.now) (shown_items shown.now))
        (map view_key order.now)) }
{
    let mut made = Vec::with_capacity(alloc, order.len())?;
    'keys: for key in order {
        let next = build_order_key(alloc, layout, shown, key)?;
        made.push(next)?;
    }
    Ok(made)
}

fn is_grouped(query: &Query, grouped: &[&Call]) -> bool
    ensures { result ≡ (has_some (map view_element query.now.grouping.items) || (is_some (view_optional query.now.having)
        || has_some (call_trees grouped.now))) }
{
    !query.grouping.is_empty() || (query.having.is_some() || !grouped.is_empty())
}

fn places_if(is_grouped: bool, places: &[usize]) -> Option<&[usize]>
    ensures { places_of result ≡ if is_grouped then Some places.now else None }
{
    if is_grouped { Some(places) } else { None }
}

fn row_layout<'a, 'b, 'c>(
    columns: &'a [SourceColumn],
    grouping: Option<&'a [usize]>,
    calls: &'b RowCalls<'c>,
) -> RowLayout<'a, 'b, 'c>
    ensures { layout_of result ≡ record {
      columns = all_titled columns.now;
      grouping = places_of grouping.entry;
      calls =
          row_calls calls.now;
    } }
{
    RowLayout {
        columns,
        grouping,
        calls,
    }
}

fn source_layout<'a, 'b, 'c>(
    columns: &'a [SourceColumn],
    none: &'b RowCalls<'c>,
) -> RowLayout<'a, 'b, 'c>
    requires { row_calls none.now ≡ [] }
    ensures { layout_of result ≡ source_row (all_titled columns.now) }
{
    row_layout(columns, None, none)
}

fn build_grouping(
    alloc: Global,
    scope: &Scope,
    elements: &[PlacedElement],
    places: &[usize],
    grouped: &[&Call],
    layout: &RowLayout,
) -> Result<Grouping, AllocError>
    ensures { IfOk result (λ g. grouping_plan g ≡ record {
      columns = places.now;
      sets =
          sets_of (map element_in elements.now);
      calls = map (group_call_made (source_row (scope_columns scope.now)))
          (call_trees grouped.now);
      having = resolved_option (layout_of layout.now) (scope_clauses scope.now).having;
    }) }
{
    let none = RowCalls::none(alloc);
    let source = source_layout(scope.columns, &none);
    let calls = build_group_calls(alloc, &source, grouped)?;
    let having = build_option(alloc, layout, &scope.query.having)?;
    let sets = query_sets(alloc, elements)?;
    let columns = places.to_vec(alloc)?;
    Ok(Grouping {
        columns,
        sets,
        calls,
        having,
    })
}

fn build_optional_grouping(
    alloc: Global,
    scope: &Scope,
    elements: &[PlacedElement],
    grouped: &[&Call],
    layout: &RowLayout,
) -> Result<Option<Grouping>, AllocError>
    ensures { IfOk result (λ g. optional_grouping g ≡ grouping_over (scope_columns scope.now) (map element_in elements.now)
        (call_trees grouped.now) (layout_of layout.now) (scope_clauses scope.now) (layout_of layout.now).grouping) }
{
    match layout.grouping {
        None => Ok(None),
        Some(places) => {
            let grouping = build_grouping(alloc, scope, elements, places, grouped, layout)?;
            Ok(Some(grouping))
        }
    }
}

fn build_windows(
    alloc: Global,
    layout: &RowLayout,
    entries: &WindowIndex,
    windowed: &[&Call],
) -> Result<Vec<ResolvedWindow>, AllocError>
    ensures { IfOk result (λ made. map window_plan made.items ≡ windows_made (layout_of layout.now) (windows_in entries.now)
        (call_trees windowed.now)) }
{
    let mut windows = build_entries(alloc, layout, entries.entries.as_slice())?;
    push_own_windows(alloc, layout, entries, &mut windows, windowed)?;
    Ok(windows)
}

fn build_window_calls(
    alloc: Global,
    layout: &RowLayout,
    entries: &WindowIndex,
    windowed: &[&Call],
) -> Result<Vec<CallOver>, AllocError>
    ensures { IfOk result (λ made. map call_plan made.items ≡ calls_made (layout_of layout.now) (windows_in entries.now)
        (length (windows_in entries.now)) (call_trees windowed.now)) }
{
    let first = entries.entries.as_slice().len();
    build_calls(alloc, layout, entries, first, windowed)
}

// The condition of a SELECT, over a row of its source.
fn build_condition(alloc: Global, scope: &Scope) -> Result<Option<Expr>, AllocError>
    ensures { IfOk result (λ made. optional_formula made ≡ resolved_option (source_row (scope_columns scope.now))
        (scope_clauses scope.now).condition) }
{
    let none = RowCalls::none(alloc);
    let source = source_layout(scope.columns, &none);
    let condition = build_option(alloc, &source, &scope.query.condition)?;
    Ok(condition)
}

// The windows of a SELECT, and the calls over them.
fn build_called(
    alloc: Global,
    scope: &Scope,
    layout: &RowLayout,
    windowed: &[&Call],
) -> Result<(Vec<ResolvedWindow>, Vec<CallOver>), AllocError>
    requires { IsExpanded scope.now }
    ensures windows { IfOk result (λ made. map window_plan made.0.items ≡ windows_made (layout_of layout.now)
        (expanded_entries [] (scope_clauses scope.now).windows) (call_trees windowed.now)) }
    ensures calls { IfOk result (λ made. map call_plan made.1.items ≡ calls_made (layout_of layout.now)
        (expanded_entries [] (scope_clauses scope.now).windows)
        (length (expanded_entries [] (scope_clauses scope.now).windows)) (call_trees windowed.now)) }
{
    let windows = build_windows(alloc, layout, &scope.windows, windowed)?;
    let calls = build_window_calls(alloc, layout, &scope.windows, windowed)?;
    Ok((windows, calls))
}

// The items of a SELECT, and the keys of its order.
fn build_items(
    alloc: Global,
    scope: &Scope,
    layout: &RowLayout,
) -> Result<(Vec<Output>, Vec<ResolvedKey>), AllocError>
    ensures items { IfOk result (λ made. map output_plan made.0.items ≡ map (output_made (layout_of layout.now))
        (items_written (scope_columns scope.now) (scope_clauses scope.now).items)) }
    ensures keys { IfOk result (λ made. map key_plan made.1.items
        ≡ map (order_made (layout_of layout.now) (items_written (scope_columns scope.now) (scope_clauses scope.now).items))
        (scope_clauses scope.now).order) }
{
    let query = scope.query;
    let shown = written_out(alloc, scope.columns, query.items.as_slice())?;
    let items = build_outputs(alloc, layout, shown.as_slice())?;
    let keys = build_order(alloc, layout, shown.as_slice(), query.order.as_slice())?;
    Ok((items, keys))
}

fn build_selection(
    alloc: Global,
    scope: &Scope,
    elements: &[PlacedElement],
    grouped: &[&Call],
    windowed: &[&Call],
    layout: &RowLayout,
) -> Result<Selection, AllocError>
    requires { IsExpanded scope.now }
    ensures { IfOk result (λ s. select_plan s ≡ select_over (scope_columns scope.now) (map element_in elements.now)
        (call_trees grouped.now) (call_trees windowed.now) (layout_of layout.now) (scope_clauses scope.now)) }
{
    let condition = build_condition(alloc, scope)?;
    let grouping = build_optional_grouping(alloc, scope, elements, grouped, layout)?;
    let (windows, calls) = build_called(alloc, scope, layout, windowed)?;
    let (items, keys) = build_items(alloc, scope, layout)?;
    Ok(Selection {
        condition,
        grouping,
        windows,
        calls,
        items,
        keys,
        offset: offset_of(scope.query),
        limit: limit_of(scope.query),
    })
}

fn offset_of(query: &Query) -> u128
    ensures { result ≡ unwrap_or (clauses_in query.now).offset 0 }
{
    match &query.offset {
        Some(offset) => offset.get(),
        None => 0,
    }
}

fn limit_of(query: &Query) -> Option<u128>
    ensures { result ≡ (clauses_in query.now).limit }
{
    match &query.limit {
        Some(limit) => Some(limit.get()),
        None => None,
    }
}

// A SELECT over the row of these columns, calls and places of the group's columns, with these elements of GROUP BY.
fn build_over(
    alloc: Global,
    scope: &Scope,
    calls: &RowCalls,
    elements: &[PlacedElement],
    places: &[usize],
) -> Result<Selection, AllocError>
    requires { IsExpanded scope.now }
    ensures { IfOk result (λ s. select_plan s ≡ select_over (scope_columns scope.now) (map element_in elements.now)
        (calls_in calls.now.grouped) (calls_in calls.now.windowed) (record {
          columns = scope_columns scope.now;
          grouping =
              if is_grouped_query (scope_clauses scope.now) (calls_in calls.now.grouped) then Some places.now else None;
          calls = row_calls calls.now;
        }) (scope_clauses scope.now)) }
{
    let grouped = calls.grouped.listed(alloc)?;
    let windowed = calls.windowed.listed(alloc)?;
    let grouping = places_if(is_grouped(scope.query, grouped.as_slice()), places);
    let layout = row_layout(scope.columns, grouping, calls);
    let selection = build_selection(
        alloc,
        scope,
        elements,
        grouped.as_slice(),
        windowed.as_slice(),
        &layout,
    )?;
    Ok(selection)
}

fn build_with(alloc: Global, scope: &Scope, calls: &RowCalls) -> Result<Selection, AllocError>
    requires { IsExpanded scope.now }
    ensures { IfOk result (λ s. select_plan s ≡ select_with (scope_columns scope.now) (scope_clauses scope.now)
        (calls_in calls.now.grouped) (calls_in calls.now.windowed)) }
{
    let elements = build_elements(alloc, scope.columns, scope.query.grouping.as_slice())?;
    let places = group_columns(alloc, elements.as_slice())?;
    let selection = build_over(alloc, scope, calls, elements.as_slice(), places.as_slice())?;
    Ok(selection)
}

/// The SELECT of a scope.
pub(crate) fn build_select(alloc: Global, scope: &Scope) -> Result<Selection, AllocError>
    requires { IsExpanded scope.now }
    ensures { IfOk result (λ s. select_plan s ≡ select_made (scope_columns scope.now) (scope_clauses scope.now)) }
{
    let calls = RowCalls {
        grouped: group_calls(alloc, scope.query)?,
        windowed: window_calls(alloc, scope.query)?,
    };
    let selection = build_with(alloc, scope, &calls)?;
    Ok(selection)
}
