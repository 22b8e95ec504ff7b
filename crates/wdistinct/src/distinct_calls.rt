//! The calls of a SELECT, each once.

ghost use Rattle.std.specs.Prelude.{◌≡◌, ◌∷◌, ◌++◌, [], true, false, OnOk, IfOk, MatchOption, map};
ghost use Rattle.wquery.specs.Tree.{own_window, reach_of, view, view_arguments, view_call, view_key};
ghost use Rattle.wquery.specs.Tree.{view_keys, view_optional, view_optional_over, view_window};
ghost use Rattle.wquery.specs.QueryTree.{view_item, view_entry};
ghost use Rattle.std.specs.Rc.{rc_str_bytes};
ghost use Rattle.wscope.specs.Functions.{function_of as function_named};
ghost use Rattle.wnodes.specs.Children.{found_all, nodes_left};
ghost use Rattle.wscope.specs.Clauses.{clauses_in};
ghost use Rattle.wdistinct.specs.Calls.{group_calls as aggregates_of, window_calls as calls_over_windows, is_kind};
ghost use Rattle.wdistinct.specs.Calls.{is_grouping as has_columns, is_call_of, is_aggregate_function as is_aggregate_of};
ghost use Rattle.wdistinct.specs.Calls.{has_over as has_reach, picking, nodes_in, nodes_below, nodes_in_reach, nodes_in_option};
ghost use Rattle.wdistinct.specs.Calls.{nodes_in_items, nodes_in_entries, nodes_in_order, with_new, call_trees};
ghost use Rattle.wdistinct.specs.Places.{calls_in};
ghost use Rattle.wdistinct.specs.declared.distinct_calls.CallKind.TheVariants.{Grouped, Windowed};

use crate::call_set::CallSet;
use std::alloc::{AllocError, Global};
use wnodes::Children;
use wquery::{Arguments, Call, Expression, Item, Key, Over, Query, Window, WindowEntry};
use wscope::function_of;

/// The calls that are computed apart from the expressions that they stand in.
#[derive(Clone, Copy, Drop)]
pub enum CallKind {
    /// Aggregates without OVER, and GROUPING.
    Grouped,
    /// Calls with OVER.
    Windowed,
}

fn is_aggregate(call: &Call) -> bool
    ensures { result ≡ is_aggregate_of (function_named (rc_str_bytes call.now.name)) }
{
    match function_of(call.name.as_str()) {
        None => false,
        Some(function) => function.is_aggregate(),
    }
}

#[tactic(auto, unfolding(wquery::specs::Tree::view_over, wquery::specs::Tree::view_window))]
fn has_over(over: &Option<Over>) -> bool
    ensures { result ≡ has_reach (reach_of (view_optional_over over.now)) }
{
    match over {
        None => false,
        Some(Over::Named(_)) => true,
        Some(Over::Windowed(_)) => true,
    }
}

#[tactic(auto, unfolding(wquery::specs::Tree::view_arguments, wquery::specs::Tree::view))]
fn is_grouping(arguments: &Arguments) -> bool
    ensures { result ≡ has_columns (view_arguments arguments.now) }
{
    match arguments {
        Arguments::Star => false,
        Arguments::Listed(_) => false,
        Arguments::Columns(_) => true,
    }
}

fn is_of(kind: CallKind, call: &Call) -> bool
    ensures { result ≡ is_kind kind (rc_str_bytes call.now.name) (view_arguments call.now.arguments)
        (reach_of (view_optional_over call.now.over)) }
{
    match kind {
        CallKind::Grouped => {
            !has_over(&call.over) && (is_grouping(&call.arguments) || is_aggregate(call))
        }
        CallKind::Windowed => has_over(&call.over),
    }
}

fn wanted_call<'a>(kind: CallKind, call: &'a Call) -> Option<&'a Call>
    ensures { MatchOption result (is_call_of kind (view_call call.now) ≡ false)
        (λ found. (is_call_of kind (view_call call.now) ≡ true) × (view_call found.now ≡ view_call call.now)) }
{
    if is_of(kind, call) { Some(call) } else { None }
}

fn push_call<'a>(calls: &mut Vec<&'a Call>, call: &'a Call) -> Result<(), AllocError>
    ensures { OnOk result (call_trees calls.new.items ≡ call_trees calls.old.items ++ view_call call.now ∷ []) }
{
    calls.push(call)?;
    Ok(())
}

#[tactic(auto, unfolding(wquery::specs::Tree::view, wquery::specs::Tree::view_call))]
fn wanted<'a>(kind: CallKind, e: &'a Expression) -> Option<&'a Call>
    ensures { MatchOption result (is_call_of kind (view e.now) ≡ false) (λ call. (is_call_of kind (view e.now) ≡ true)
        × (view_call call.now ≡ view e.now)) }
{
    match e {
        Expression::Call(call) => wanted_call(kind, call),
        _ => None,
    }
}

// The calls that are looked for, from the first to the last, behind those so far.
#[cycle(collecting)]
fn collect<'a>(
    kind: CallKind,
    calls: &mut Vec<&'a Call>,
    e: &'a Expression,
) -> Result<(), AllocError>
    ensures { OnOk result (call_trees calls.new.items ≡ call_trees calls.old.items ++ nodes_in (is_call_of kind) (view e.now)) }
{
    match wanted(kind, e) {
        Some(call) => push_call(calls, call),
        None => collect_below(kind, calls, e),
    }
}

#[cycle(collecting)]
fn collect_below<'a>(
    kind: CallKind,
    calls: &mut Vec<&'a Call>,
    e: &'a Expression,
) -> Result<(), AllocError>
    ensures { OnOk result (call_trees calls.new.items ≡ call_trees calls.old.items ++ nodes_below (is_call_of kind) (view e.now)) }
{
    match Children::of(e) {
        None => Ok(()),
        Some(nodes) => collect_beside(kind, calls, nodes),
    }
}

#[cycle(collecting)]
fn collect_beside<'a>(
    kind: CallKind,
    calls: &mut Vec<&'a Call>,
    nodes: Children<'a>,
) -> Result<(), AllocError>
    ensures { OnOk result (call_trees calls.new.items ≡ call_trees calls.old.items ++ found_all (picking (is_call_of kind))
        (nodes_left nodes.entry)) }
{
    let mut rest = nodes;
    'nodes: while let Some(e) = rest.take_first() {
        collect(kind, calls, e)?;
    }
    Ok(())
}

#[tactic(auto, unfolding(wquery::specs::Tree::view_key, wquery::specs::Tree::view))]
fn collect_key<'a>(
    kind: CallKind,
    calls: &mut Vec<&'a Call>,
    key: &'a Key,
) -> Result<(), AllocError>
    ensures { OnOk result (call_trees calls.new.items ≡ call_trees calls.old.items ++ nodes_in (is_call_of kind)
        (view_key key.now).expression) }
{
    collect(kind, calls, &key.expression)
}

fn collect_window<'a>(
    kind: CallKind,
    calls: &mut Vec<&'a Call>,
    window: &'a Window,
) -> Result<(), AllocError>
    ensures { OnOk result (call_trees calls.new.items ≡ call_trees calls.old.items ++ nodes_in_reach (is_call_of kind)
        (own_window (view_window window.now))) }
{
    collect_beside(kind, calls, Children::of_window(window))
}

fn collect_option<'a>(
    kind: CallKind,
    calls: &mut Vec<&'a Call>,
    e: &'a Option<Expression>,
) -> Result<(), AllocError>
    ensures { OnOk result (call_trees calls.new.items ≡ call_trees calls.old.items ++ nodes_in_option (is_call_of kind)
        (view_optional e.now)) }
{
    match e {
        None => Ok(()),
        Some(e) => collect(kind, calls, e),
    }
}

fn collect_item<'a>(
    kind: CallKind,
    calls: &mut Vec<&'a Call>,
    item: &'a Item,
) -> Result<(), AllocError>
    ensures { OnOk result (call_trees calls.new.items ≡ call_trees calls.old.items ++ nodes_in_items (is_call_of kind)
        (view_item item.now ∷ [])) }
{
    match item {
        Item::All => Ok(()),
        Item::Value { expression, .. } => {
            collect(kind, calls, expression)?;
            Ok(())
        }
    }
}

fn collect_items<'a>(
    kind: CallKind,
    calls: &mut Vec<&'a Call>,
    items: &'a [Item],
) -> Result<(), AllocError>
    ensures { OnOk result (call_trees calls.new.items ≡ call_trees calls.old.items ++ nodes_in_items (is_call_of kind)
        (map view_item items.now)) }
{
    'items: for item in items {
        collect_item(kind, calls, item)?;
    }
    Ok(())
}

fn collect_entries<'a>(
    kind: CallKind,
    calls: &mut Vec<&'a Call>,
    entries: &'a [WindowEntry],
) -> Result<(), AllocError>
    ensures { OnOk result (call_trees calls.new.items ≡ call_trees calls.old.items ++ nodes_in_entries (is_call_of kind)
        (map view_entry entries.now)) }
{
    'entries: for entry in entries {
        collect_window(kind, calls, &entry.window)?;
    }
    Ok(())
}

fn collect_order<'a>(
    kind: CallKind,
    calls: &mut Vec<&'a Call>,
    order: &'a [Key],
) -> Result<(), AllocError>
    ensures { OnOk result (call_trees calls.new.items ≡ call_trees calls.old.items ++ nodes_in_order (is_call_of kind)
        (view_keys order.now)) }
{
    'keys: for key in order {
        collect_key(kind, calls, key)?;
    }
    Ok(())
}

fn distinct<'a>(alloc: Global, calls: &[&'a Call]) -> Result<CallSet<'a>, AllocError>
    ensures { IfOk result (λ made. calls_in made ≡ with_new [] (call_trees calls.now)) }
{
    let mut made = CallSet::new(alloc);
    'calls: for call in calls {
        made.add(*call)?;
    }
    Ok(made)
}

fn all_group_calls<'a>(alloc: Global, query: &'a Query) -> Result<Vec<&'a Call>, AllocError>
    ensures { IfOk result (λ calls. call_trees calls.items ≡ nodes_in_items (is_call_of Grouped)
        (clauses_in query.now).items ++ (nodes_in_option (is_call_of Grouped) (clauses_in query.now).having
        ++ (nodes_in_entries (is_call_of Grouped) (clauses_in query.now).windows ++ nodes_in_order (is_call_of Grouped)
        (clauses_in query.now).order))) }
{
    let mut calls = Vec::new(alloc);
    collect_items(CallKind::Grouped, &mut calls, query.items.as_slice())?;
    collect_option(CallKind::Grouped, &mut calls, &query.having)?;
    collect_entries(CallKind::Grouped, &mut calls, query.windows.as_slice())?;
    collect_order(CallKind::Grouped, &mut calls, query.order.as_slice())?;
    Ok(calls)
}

fn all_window_calls<'a>(alloc: Global, query: &'a Query) -> Result<Vec<&'a Call>, AllocError>
    ensures { IfOk result (λ calls. call_trees calls.items ≡ nodes_in_items (is_call_of Windowed)
        (clauses_in query.now).items ++ nodes_in_order (is_call_of Windowed) (clauses_in query.now).order) }
{
    let mut calls = Vec::new(alloc);
    collect_items(CallKind::Windowed, &mut calls, query.items.as_slice())?;
    collect_order(CallKind::Windowed, &mut calls, query.order.as_slice())?;
    Ok(calls)
}

/// The aggregates without OVER, and GROUPING, each once: those of the SELECT list, of HAVING, of the WINDOW entries and of ORDER BY.
pub fn group_calls<'a>(alloc: Global, query: &'a Query) -> Result<CallSet<'a>, AllocError>
    ensures { IfOk result (λ calls. calls_in calls ≡ aggregates_of (clauses_in query.now)) }
{
    let all = all_group_calls(alloc, query)?;
    let calls = distinct(alloc, all.as_slice())?;
    Ok(calls)
}

/// The calls with OVER, each once: those of the SELECT list and of ORDER BY.
pub fn window_calls<'a>(alloc: Global, query: &'a Query) -> Result<CallSet<'a>, AllocError>
    ensures { IfOk result (λ calls. calls_in calls ≡ calls_over_windows (clauses_in query.now)) }
{
    let all = all_window_calls(alloc, query)?;
    let calls = distinct(alloc, all.as_slice())?;
    Ok(calls)
}
