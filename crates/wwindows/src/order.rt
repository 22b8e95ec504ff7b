//! The rule on numbers and literals in the query's ORDER BY: Q26.

ghost use Rattle.std.specs.Prelude.{◌≡◌, map};
ghost use Rattle.std.specs.List.{list_any};
ghost use Rattle.wquery.specs.Tree.{view, view_key, KeyTree};
ghost use Rattle.wquery.specs.QueryTree.{view_item};
ghost use Rattle.wscope.specs.Scoped.{scope_clauses, scope_columns};
ghost use Rattle.wscope.specs.Sources.{all_titled};
ghost use Rattle.wwindows.specs.Order.{count_items as number_of_items, is_behind_signs, is_bad_place, breaks_places};

use wquery::{Expression, Item, Key};
use wscope::{Scope, SourceColumn};

/// How many items there are when `*` is written out.
pub(crate) fn count_items(columns: &[SourceColumn], items: &[Item]) -> u128
    ensures { result ≡ number_of_items (all_titled columns.now) (map view_item items.now) }
{
    let mut count = 0u128;
    'items: for item in items {
        count += match item {
            Item::All => columns.len() as u128,
            Item::Value { .. } => 1,
        };
    }
    count
}

#[tactic(auto, unfolding(wquery::specs::Tree::view))]
fn behind_signs(e: &Expression) -> bool
    ensures { result ≡ is_behind_signs (view e.now) }
{
    match e {
        Expression::Sign { operand, .. } => behind_signs(operand),
        Expression::Number(_) => true,
        Expression::Text(_) => true,
        Expression::Null => true,
        _ => false,
    }
}

/// Whether a key is a number that is no place from 1 to `count`, another literal, or a literal with signs.
#[tactic(auto, unfolding(wquery::specs::Tree::view))]
fn bad_place(count: u128, e: &Expression) -> bool
    ensures { result ≡ is_bad_place count (view e.now) }
{
    match e {
        Expression::Sign { operand, .. } => behind_signs(operand),
        Expression::Number(n) => n.get() < 1 || count < n.get(),
        Expression::Text(_) => true,
        Expression::Null => true,
        _ => false,
    }
}

#[tactic(auto, unfolding(wquery::specs::Tree::view_key, wquery::specs::Tree::view))]
fn bad_key(count: u128, key: &Key) -> bool
    ensures { result ≡ is_bad_place count (view_key key.now).expression }
{
    bad_place(count, &key.expression)
}

fn any_bad_place(count: u128, order: &[Key]) -> bool
    ensures { result ≡ list_any (λ (k : KeyTree). is_bad_place count k.expression) (map view_key order.now) }
{
    'keys: for key in order {
        if bad_key(count, key) {
            return true;
        }
    }
    false
}

/// Q26.
pub fn has_wrong_place(scope: &Scope) -> bool
    ensures { result ≡ breaks_places (scope_columns scope.now) (scope_clauses scope.now) }
{
    let query = scope.query;
    let count = count_items(scope.columns, query.items.as_slice());
    any_bad_place(count, query.order.as_slice())
}
