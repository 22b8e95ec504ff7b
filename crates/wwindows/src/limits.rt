//! The rule on limits: Q27.

ghost use Rattle.std.specs.Prelude.{◌≡◌, ◌||◌, ◌+◌, ℕ, map, length, nat_lt};
ghost use Rattle.std.specs.List.{list_any};
ghost use Rattle.wquery.specs.Tree.{trees, views, keys, view_keys, view_window, own_window};
ghost use Rattle.wquery.specs.QueryTree.{view_entry};
ghost use Rattle.wscope.specs.Scoped.{scope_clauses, scope_columns};
ghost use Rattle.wnodes.specs.Nodes.{count_trees, count_keys};
ghost use Rattle.wgroupby.specs.Rules.{breaks_lists};
ghost use Rattle.wwindows.specs.Order.{count_items as number_of_items};
ghost use Rattle.wwindows.specs.Limits.{count_windows as number_of_windows, has_long_list as is_reach_long};
ghost use Rattle.wwindows.specs.Limits.{is_long_entry as is_entry_long, breaks_limits, counted, most_entries, most_items};
ghost use Rattle.wwindows.specs.Limits.{most_windows};

use crate::counting::{count_in_items, count_in_order, plus};
use crate::order::count_items;
use crate::windows::{ReachTest, any_over};
use wgroupby::has_long_list;
use wquery::{Expression, Key, Over, Window, WindowEntry};
use wscope::Scope;

/// The most items, `*` written out.
const MAX_ITEMS: u128 = 64;

/// The most WINDOW entries and windows of calls together.
const MAX_WINDOWS: usize = 32;

/// The most entries in one list of PARTITION BY or ORDER BY.
const MAX_ENTRIES: usize = 16;

fn are_many(list: &[Expression]) -> bool
    ensures { result ≡ nat_lt most_entries (count_trees (trees (views list.now))) }
{
    list.len() > MAX_ENTRIES
}

fn are_many_keys(order: &[Key]) -> bool
    ensures { result ≡ nat_lt most_entries (count_keys (keys (view_keys order.now))) }
{
    order.len() > MAX_ENTRIES
}

#[tactic(auto, unfolding(wquery::specs::Tree::view_window, wquery::specs::Tree::view, wquery::specs::Tree::view_key))]
fn is_window_long(window: &Window) -> bool
    ensures { result ≡ is_reach_long (own_window (view_window window.now)) }
{
    are_many(window.partition.as_slice()) || are_many_keys(window.order.as_slice())
}

/// Too many entries in a list of a call's own window.
#[derive(Drop)]
struct LongList;

impl ReachTest for LongList {
    ghost holds = { λ _. is_reach_long };

    #[tactic(auto, unfolding(wquery::specs::Tree::view_over, wquery::specs::Tree::view_window))]
    fn is_hit(&self, over: &Option<Over>) -> bool {
        match over {
            None => false,
            Some(Over::Named(_)) => false,
            Some(Over::Windowed(window)) => is_window_long(window),
        }
    }
}

fn any_long_entry(entries: &[WindowEntry]) -> bool
    ensures { result ≡ list_any is_entry_long (map view_entry entries.now) }
{
    'entries: for entry in entries {
        if is_window_long(&entry.window) {
            return true;
        }
    }
    false
}

fn exceeds_windows(entries: usize, in_items: u32, in_order: u32) -> bool
    ensures { (items order : ℕ) → in_items ≡ counted items → in_order ≡ counted order
        → result ≡ nat_lt most_windows (entries + (items + order)) }
{
    if entries > MAX_WINDOWS {
        return true;
    }
    entries as u32 + plus(in_items, in_order) > MAX_WINDOWS as u32
}

fn has_many_windows(scope: &Scope) -> bool
    ensures { result ≡ nat_lt most_windows (number_of_windows (scope_clauses scope.now)) }
{
    let query = scope.query;
    exceeds_windows(
        query.windows.len(),
        count_in_items(query.items.as_slice()),
        count_in_order(query.order.as_slice()),
    )
}

fn has_many_items(scope: &Scope) -> bool
    ensures { result ≡ nat_lt most_items (number_of_items (scope_columns scope.now) (scope_clauses scope.now).items) }
{
    count_items(scope.columns, scope.query.items.as_slice()) > MAX_ITEMS
}

fn has_long_clause(scope: &Scope) -> bool
    ensures { result ≡ (breaks_lists (scope_clauses scope.now).grouping || nat_lt most_entries (length (scope_clauses scope.now).order)) }
{
    let query = scope.query;
    if has_long_list(query.grouping.as_slice()) {
        return true;
    }
    query.order.len() > MAX_ENTRIES
}

/// Q27, but for the depth of derived tables.
pub fn exceeds_limits(scope: &Scope) -> bool
    ensures { result ≡ breaks_limits (scope_columns scope.now) (scope_clauses scope.now) }
{
    if has_many_items(scope) {
        return true;
    }
    if has_many_windows(scope) {
        return true;
    }
    if has_long_clause(scope) {
        return true;
    }
    if any_long_entry(scope.query.windows.as_slice()) {
        return true;
    }
    any_over(&LongList, scope)
}
