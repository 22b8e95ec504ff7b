//! How often OVER stands with parentheses, counted to one more than the most windows.

ghost use Rattle.std.specs.Prelude.{◌≡◌, ◌+◌, map, [], ◌∷◌};
ghost use Rattle.wquery.specs.Tree.{view, view_call, view_key, view_optional_over, reach_of};
ghost use Rattle.wquery.specs.QueryTree.{view_item};
ghost use Rattle.wnodes.specs.Nodes.{found_below};
ghost use Rattle.wnodes.specs.Children.{found_all, nodes_left};
ghost use Rattle.wwindows.specs.Limits.{count_over as over_in, has_own, with_own, counting, over_items, over_order, counted};

use wnodes::Children;
use wquery::{Call, Expression, Item, Key, Over};

/// Where counts stop: one more than the most windows of a query.
const STOP: u32 = 33;

/// A sum of counts.
pub(crate) fn plus(a: u32, b: u32) -> u32
    ensures { result ≡ counted (a + b) }
{
    if a >= STOP {
        return STOP;
    }
    if b >= STOP {
        return STOP;
    }
    if a + b < STOP { a + b } else { STOP }
}

/// How often OVER stands with parentheses in an expression.
#[cycle(counting)]
fn count_over(e: &Expression) -> u32
    ensures { result ≡ counted (over_in (view e.now)) }
{
    plus(count_own(e), count_below(e))
}

#[cycle(counting)]
fn count_below(e: &Expression) -> u32
    ensures { result ≡ counted (found_below counting (view e.now)) }
{
    match Children::of(e) {
        None => 0,
        Some(nodes) => count_beside(nodes),
    }
}

#[cycle(counting)]
fn count_beside(nodes: Children) -> u32
    ensures { result ≡ counted (found_all counting (nodes_left nodes.entry)) }
{
    let mut rest = nodes;
    let mut count = 0;
    'nodes: while let Some(e) = rest.take_first() {
        count = plus(count, count_over(e));
    }
    count
}

/// One for a call over a window of its own, none for another.
#[tactic(auto, unfolding(wquery::specs::Tree::view_over, wquery::specs::Tree::view_window))]
fn own_of(over: &Option<Over>) -> u32
    ensures { result ≡ has_own (reach_of (view_optional_over over.now)) }
{
    match over {
        None => 0,
        Some(Over::Named(_)) => 0,
        Some(Over::Windowed(_)) => 1,
    }
}

fn own_of_call(call: &Call) -> u32
    ensures { result ≡ with_own (view_call call.now) 0 }
{
    own_of(&call.over)
}

#[tactic(auto, unfolding(wquery::specs::Tree::view, wquery::specs::Tree::view_call))]
fn count_own(e: &Expression) -> u32
    ensures { result ≡ with_own (view e.now) 0 }
{
    match e {
        Expression::Call(call) => own_of_call(call),
        _ => 0,
    }
}

fn count_in_item(item: &Item) -> u32
    ensures { result ≡ counted (over_items (view_item item.now ∷ [])) }
{
    match item {
        Item::All => 0,
        Item::Value { expression, .. } => count_over(expression),
    }
}

/// How often OVER stands with parentheses in the SELECT list.
pub(crate) fn count_in_items(items: &[Item]) -> u32
    ensures { result ≡ counted (over_items (map view_item items.now)) }
{
    let mut count = 0;
    'items: for item in items {
        count = plus(count, count_in_item(item));
    }
    count
}

/// How often OVER stands with parentheses in the query's ORDER BY.
#[tactic(auto, unfolding(wquery::specs::Tree::view_key, wquery::specs::Tree::view))]
pub(crate) fn count_in_order(order: &[Key]) -> u32
    ensures { result ≡ counted (over_order (map view_key order.now)) }
{
    let mut count = 0;
    'keys: for key in order {
        count = plus(count, count_over(&key.expression));
    }
    count
}
