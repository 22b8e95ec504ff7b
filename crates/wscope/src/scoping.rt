//! Making a scope, and walks over the clauses of its query.

ghost use Rattle.std.specs.Prelude.{◌≡◌, map, [], ◌∷◌, IfOk, Option};
ghost use Rattle.std.specs.List.{list_any};
ghost use Rattle.std.specs.Option.{option_copied};
ghost use Rattle.wquery.specs.GroupElements.{all_columns};
ghost use Rattle.wquery.specs.QueryTree.{view_item, view_entry};
ghost use Rattle.wquery.specs.Tree.{view, view_optional, view_key};
ghost use Rattle.wscope.specs.Scope.{some_item, some_option, some_entry, some_sort, some_shown, some_anywhere};
ghost use Rattle.wscope.specs.Scope.{item_has_name, is_output as stands_for_item};
ghost use Rattle.wscope.specs.Called.{has_unlike, names};
ghost use Rattle.wscope.specs.Outputs.{has_two};
ghost use Rattle.wscope.specs.Scoped.{IsExpanded, scope_clauses, scope_columns};

use crate::called::Called;
use crate::grouping::{column_names, grouped_columns};
use crate::indexing::output_index;
use crate::scope::Scope;
use crate::seeking::{NodeTest, any_in_window, any_node};
use crate::source::SourceColumn;
use crate::window_index::WindowIndex;
use std::alloc::{AllocError, Global};
use wquery::{Expression, Item, Key, Query, WindowEntry};

fn has_two(known: Option<&Called>) -> bool
    ensures { result ≡ has_two (option_copied known.entry) }
{
    match known {
        None => false,
        Some(called) => called.is_ambiguous,
    }
}

impl<'a> Scope<'a> {
    /// A query over the columns of its source, by the declared table's name and the source's alias.
    pub fn new(
        alloc: Global,
        table: &'a str,
        alias: &'a str,
        columns: &'a [SourceColumn],
        query: &'a Query,
    ) -> Result<Scope<'a>, AllocError>
        ensures table { IfOk result (λ made. made.table.now ≡ table.now) }
        ensures alias { IfOk result (λ made. made.alias.now ≡ alias.now) }
        ensures columns { IfOk result (λ made. made.columns.now ≡ columns.now) }
        ensures query { IfOk result (λ made. made.query.now ≡ query.now) }
        ensures expanded { IfOk result IsExpanded }
    {
        let outputs = output_index(alloc, columns, query.items.as_slice())?;
        let grouped = grouped_columns(alloc, query.grouping.as_slice())?;
        let grouping = column_names(alloc, grouped.as_slice())?;
        let windows = WindowIndex::new(alloc, query.windows.as_slice())?;
        Ok(Scope {
            table,
            alias,
            columns,
            query,
            windows,
            outputs,
            grouped,
            grouping,
        })
    }

    // Whether some item has this output name.
    fn has_output(&self, name: &'a str) -> bool
        ensures { result ≡ list_any (item_has_name (scope_columns self.now) name.now) (scope_clauses self.now).items }
    {
        self.outputs.contains_key(&name)
    }

    /// Whether two items have this output name, with two expressions.
    pub fn has_ambiguous_output(&self, name: &'a str) -> bool
        ensures { result ≡ has_unlike (scope_columns self.now) (scope_clauses self.now).items name.now }
    {
        has_two(self.outputs.get(&name))
    }

    /// Whether a column of GROUP BY has this name.
    pub fn groups_by(&self, name: &str) -> bool
        ensures { result ≡ list_any (names name.now) (all_columns (scope_clauses self.now).grouping) }
    {
        self.grouping.contains(name)
    }

    /// Whether a key of the query's ORDER BY stands for an item: it is a number, or an output name alone.
    #[tactic(auto, unfolding(wquery::specs::Tree::view))]
    pub fn is_output(&self, key: &'a Expression) -> bool
        ensures { result ≡ stands_for_item (scope_columns self.now) (scope_clauses self.now).items (view key.now) }
    {
        match key {
            Expression::Number(_) => true,
            Expression::Column(column) => match &column.qualifier {
                Some(_) => false,
                None => self.has_output(column.name.as_str()),
            },
            _ => false,
        }
    }
}

/// Whether some node of the items is found.
fn any_in_items<T: NodeTest>(test: &T, items: &[Item]) -> bool
    ensures { result ≡ some_item (T.sees test.now) (map view_item items.now) }
{
    'items: for item in items {
        if any_in_item(test, item) {
            return true;
        }
    }
    false
}

fn any_in_item<T: NodeTest>(test: &T, item: &Item) -> bool
    ensures { result ≡ some_item (T.sees test.now) (view_item item.now ∷ []) }
{
    match item {
        Item::All => false,
        Item::Value { expression, .. } => any_node(test, expression),
    }
}

/// Whether some node of what WHERE or HAVING says is found.
pub fn any_in_option<T: NodeTest>(test: &T, condition: &Option<Expression>) -> bool
    ensures { result ≡ some_option (T.sees test.now) (view_optional condition.now) }
{
    match condition {
        None => false,
        Some(e) => any_node(test, e),
    }
}

/// Whether some node of the WINDOW entries is found.
pub fn any_in_entries<T: NodeTest>(test: &T, entries: &[WindowEntry]) -> bool
    ensures { result ≡ some_entry (T.sees test.now) (map view_entry entries.now) }
{
    'entries: for entry in entries {
        if any_in_window(test, &entry.window) {
            return true;
        }
    }
    false
}

#[tactic(auto, unfolding(wquery::specs::Tree::view, wquery::specs::Tree::view_key))]
fn any_in_key<'a, T: NodeTest>(test: &T, scope: &Scope<'a>, key: &'a Key) -> bool
    ensures { result ≡ some_sort (scope_columns scope.now) (scope_clauses scope.now).items (T.sees test.now) (view_key key.now ∷ []) }
{
    if !any_node(test, &key.expression) {
        return false;
    }
    !scope.is_output(&key.expression)
}

/// Whether some node of the query's ORDER BY is found, keys that stand for items left out.
fn any_in_order<'a, T: NodeTest>(test: &T, scope: &Scope<'a>, order: &'a [Key]) -> bool
    ensures { result ≡ some_sort (scope_columns scope.now) (scope_clauses scope.now).items (T.sees test.now) (map view_key order.now) }
{
    'keys: for key in order {
        if any_in_key(test, scope, key) {
            return true;
        }
    }
    false
}

/// Whether some node of the SELECT list, WINDOW or ORDER BY is found.
pub fn any_shown<T: NodeTest>(test: &T, scope: &Scope) -> bool
    ensures { result ≡ some_shown (scope_columns scope.now) (scope_clauses scope.now) (T.sees test.now) }
{
    let query = scope.query;
    if any_in_items(test, query.items.as_slice()) {
        return true;
    }
    if any_in_entries(test, query.windows.as_slice()) {
        return true;
    }
    any_in_order(test, scope, query.order.as_slice())
}

/// Whether some node of the query is found.
pub fn any_anywhere<T: NodeTest>(test: &T, scope: &Scope) -> bool
    ensures { result ≡ some_anywhere (scope_columns scope.now) (scope_clauses scope.now) (T.sees test.now) }
{
    if any_shown(test, scope) {
        return true;
    }
    if any_in_option(test, &scope.query.condition) {
        return true;
    }
    any_in_option(test, &scope.query.having)
}
