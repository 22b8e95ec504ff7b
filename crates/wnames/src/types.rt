//! The rule on types: Q14.

ghost use Rattle.std.specs.Prelude.{◌≡◌, ◌||◌, ◌&&◌, map, [], ◌∷◌};
ghost use Rattle.std.specs.List.{list_all, list_any};
ghost use Rattle.wquery.specs.Tree.{Tree, view, views, trees, keys, view_keys, view_key, view_call};
ghost use Rattle.wquery.specs.Tree.{view_arguments, view_optional, view_optional_over, view_window, filter_of, reach_of, own_window};
ghost use Rattle.wquery.specs.QueryTree.{view_item, view_entry};
ghost use Rattle.wscope.specs.declared.data_type.DataType.TheVariants.{Integer, Text};
ghost use Rattle.wnodes.specs.Children.{children_of, nodes_left};
ghost use Rattle.wscope.specs.Scoped.{scope_clauses, scope_columns};
ghost use Rattle.wscope.specs.Sources.{all_titled};
ghost use Rattle.wscope.specs.Types.{is_truth as is_truth_type, fits_integer as suits_integer, fits_text as suits_text, agree as do_agree};
ghost use Rattle.wscope.specs.Finding.{finds};
ghost use Rattle.wnames.specs.Types.{is_condition as is_truth, is_value as is_no_truth, is_integer as is_of_integers};
ghost use Rattle.wnames.specs.Types.{is_text as is_of_texts, is_of as is_of_type, all_trees, all_keys};
ghost use Rattle.wnames.specs.Types.{is_window_typed as has_typed_window, is_filter_typed as has_typed_filter};
ghost use Rattle.wnames.specs.Types.{has_fit_default as is_default_fit, suits_function as are_suited, are_typed as are_arguments_typed};
ghost use Rattle.wnames.specs.Types.{is_call_typed as has_typed_call, has_fit_operands as are_operands_fit};
ghost use Rattle.wnames.specs.Types.{is_ill_typed as is_wrong, is_no_condition as is_other, is_truth_item as has_truth};
ghost use Rattle.wnames.specs.Types.{is_truth_key as is_key_of_truth, is_truth_entry as is_entry_of_truth, breaks_types};

use wnodes::Children;
use wquery::{Arguments, Call, Expression, Item, Key, Over, Window, WindowEntry};
use wscope::{
    DataType, Function, Look, NodeTest, Scope, SourceColumn, Takes, any_anywhere, found_if,
    function_of, signature_of, type_of,
};

fn fits_integer(data_type: DataType) -> bool
    ensures { result ≡ suits_integer data_type }
{
    matches!(data_type, DataType::Integer | DataType::Null)
}

fn fits_text(data_type: DataType) -> bool
    ensures { result ≡ suits_text data_type }
{
    matches!(data_type, DataType::Text | DataType::Null)
}

fn is_truth_of(data_type: DataType) -> bool
    ensures { result ≡ is_truth_type data_type }
{
    matches!(data_type, DataType::Truth)
}

fn agree_two(a: DataType, b: DataType) -> bool
    ensures { result ≡ do_agree (a ∷ b ∷ []) }
{
    if fits_integer(a) && fits_integer(b) {
        return true;
    }
    fits_text(a) && fits_text(b)
}

fn is_condition(columns: &[SourceColumn], e: &Expression) -> bool
    ensures { result ≡ is_truth (all_titled columns.now) (view e.now) }
{
    is_truth_of(type_of(columns, e))
}

fn is_value(columns: &[SourceColumn], e: &Expression) -> bool
    ensures { result ≡ is_no_truth (all_titled columns.now) (view e.now) }
{
    !is_truth_of(type_of(columns, e))
}

fn is_integer(columns: &[SourceColumn], e: &Expression) -> bool
    ensures { result ≡ is_of_integers (all_titled columns.now) (view e.now) }
{
    fits_integer(type_of(columns, e))
}

fn is_text(columns: &[SourceColumn], e: &Expression) -> bool
    ensures { result ≡ is_of_texts (all_titled columns.now) (view e.now) }
{
    fits_text(type_of(columns, e))
}

fn all_values(columns: &[SourceColumn], list: &[Expression]) -> bool
    ensures { result ≡ all_trees (is_no_truth (all_titled columns.now)) (trees (views list.now)) }
{
    'list: for e in list {
        if !is_value(columns, e) {
            return false;
        }
    }
    true
}

fn all_integers(columns: &[SourceColumn], list: &[Expression]) -> bool
    ensures { result ≡ all_trees (is_of_integers (all_titled columns.now)) (trees (views list.now)) }
{
    'list: for e in list {
        if !is_integer(columns, e) {
            return false;
        }
    }
    true
}

#[tactic(auto, unfolding(wquery::specs::Tree::view_key, wquery::specs::Tree::view))]
fn all_key_values(columns: &[SourceColumn], order: &[Key]) -> bool
    ensures { result ≡ all_keys (is_no_truth (all_titled columns.now)) (keys (view_keys order.now)) }
{
    'keys: for key in order {
        if !is_value(columns, &key.expression) {
            return false;
        }
    }
    true
}

#[tactic(auto, unfolding(wquery::specs::Tree::view_window, wquery::specs::Tree::view, wquery::specs::Tree::view_key))]
fn is_window_typed(columns: &[SourceColumn], window: &Window) -> bool
    ensures { result ≡ has_typed_window (all_titled columns.now) (own_window (view_window window.now)) }
{
    all_values(columns, window.partition.as_slice())
        && all_key_values(columns, window.order.as_slice())
}

#[tactic(auto, unfolding(wquery::specs::Tree::view_over, wquery::specs::Tree::view_window))]
fn is_over_typed(columns: &[SourceColumn], over: &Option<Over>) -> bool
    ensures { result ≡ has_typed_window (all_titled columns.now) (reach_of (view_optional_over over.now)) }
{
    match over {
        None => true,
        Some(Over::Named(_)) => true,
        Some(Over::Windowed(window)) => is_window_typed(columns, window),
    }
}

fn is_filter_typed(columns: &[SourceColumn], filter: &Option<Expression>) -> bool
    ensures { result ≡ has_typed_filter (all_titled columns.now) (filter_of (view_optional filter.now)) }
{
    match filter {
        None => true,
        Some(e) => is_condition(columns, e),
    }
}

fn has_fit_default(columns: &[SourceColumn], list: &[Expression]) -> bool
    ensures { result ≡ is_default_fit (all_titled columns.now) (trees (views list.now)) }
{
    if list.len() < 3 {
        return true;
    }
    agree_two(type_of(columns, &list[0]), type_of(columns, &list[2]))
}

fn suits_function(columns: &[SourceColumn], function: Option<Function>, list: &[Expression]) -> bool
    ensures { result ≡ are_suited (all_titled columns.now) function (trees (views list.now)) }
{
    match function {
        Some(Function::Sum) => all_integers(columns, list),
        Some(Function::Lag) => has_fit_default(columns, list),
        Some(Function::Lead) => has_fit_default(columns, list),
        _ => true,
    }
}

fn is_list_typed(columns: &[SourceColumn], function: Option<Function>, list: &[Expression]) -> bool
    ensures { result ≡ (all_trees (is_no_truth (all_titled columns.now)) (trees (views list.now)) && are_suited
        (all_titled columns.now) function (trees (views list.now))) }
{
    if !all_values(columns, list) {
        return false;
    }
    suits_function(columns, function, list)
}

#[tactic(auto, unfolding(wquery::specs::Tree::view_arguments, wquery::specs::Tree::view))]
fn are_typed(columns: &[SourceColumn], function: Option<Function>, arguments: &Arguments) -> bool
    ensures { result ≡ are_arguments_typed (all_titled columns.now) function (view_arguments arguments.now) }
{
    match arguments {
        Arguments::Star => true,
        Arguments::Listed(list) => is_list_typed(columns, function, list.as_slice()),
        Arguments::Columns(_) => true,
    }
}

fn all_three(a: bool, b: bool, c: bool) -> bool
    ensures { result ≡ (a && (b && c)) }
{
    a && (b && c)
}

fn is_call_typed(columns: &[SourceColumn], call: &Call) -> bool
    ensures { result ≡ has_typed_call (all_titled columns.now) (view_call call.now) }
{
    let function = function_of(call.name.as_str());
    all_three(
        are_typed(columns, function, &call.arguments),
        is_filter_typed(columns, &call.filter),
        is_over_typed(columns, &call.over),
    )
}

#[tactic(auto, unfolding(wquery::specs::Tree::view, wquery::specs::Tree::view_call))]
fn has_typed_arguments(columns: &[SourceColumn], e: &Expression) -> bool
    ensures { result ≡ has_typed_call (all_titled columns.now) (view e.now) }
{
    match e {
        Expression::Call(call) => is_call_typed(columns, call),
        _ => true,
    }
}

fn is_of(columns: &[SourceColumn], asked: DataType, e: &Expression) -> bool
    ensures { result ≡ is_of_type (all_titled columns.now) asked (view e.now) }
{
    match asked {
        DataType::Integer => is_integer(columns, e),
        DataType::Text => is_text(columns, e),
        DataType::Truth => is_condition(columns, e),
        DataType::Null => is_integer(columns, e) && is_text(columns, e),
    }
}

fn all_of(columns: &[SourceColumn], asked: DataType, nodes: Children) -> bool
    ensures { result ≡ list_all (is_of_type (all_titled columns.now) asked) (nodes_left nodes.entry) }
{
    let mut rest = nodes;
    'nodes: while let Some(e) = rest.take_first() {
        if !is_of(columns, asked, e) {
            return false;
        }
    }
    true
}

fn has_operands_of(columns: &[SourceColumn], asked: DataType, e: &Expression) -> bool
    ensures { result ≡ list_all (is_of_type (all_titled columns.now) asked) (children_of (view e.now)) }
{
    match Children::of(e) {
        None => true,
        Some(nodes) => all_of(columns, asked, nodes),
    }
}

fn has_operands_alike(columns: &[SourceColumn], e: &Expression) -> bool
    ensures { result ≡ (list_all (is_of_type (all_titled columns.now) Integer) (children_of (view e.now))
        || list_all (is_of_type (all_titled columns.now) Text) (children_of (view e.now))) }
{
    if has_operands_of(columns, DataType::Integer, e) {
        return true;
    }
    has_operands_of(columns, DataType::Text, e)
}

fn has_fit_operands(columns: &[SourceColumn], takes: Takes, e: &Expression) -> bool
    ensures { result ≡ are_operands_fit (all_titled columns.now) takes (view e.now) }
{
    match takes {
        Takes::Any => true,
        Takes::Truths => has_operands_of(columns, DataType::Truth, e),
        Takes::Integers => has_operands_of(columns, DataType::Integer, e),
        Takes::Alike => has_operands_alike(columns, e),
        Takes::Arguments => has_typed_arguments(columns, e),
    }
}

fn is_ill_typed(columns: &[SourceColumn], e: &Expression) -> bool
    ensures { result ≡ is_wrong (all_titled columns.now) (view e.now) }
{
    !has_fit_operands(columns, signature_of(e).takes, e)
}

/// Operands of another type than their operator or function takes.
#[derive(Drop)]
struct IllTyped<'a> {
    columns: &'a [SourceColumn],
}

impl<'a> NodeTest for IllTyped<'a> {
    ghost sees = { λ t. finds (is_wrong (all_titled t.columns.now)) };

    fn look(&self, node: &Expression) -> Look {
        found_if(is_ill_typed(self.columns, node))
    }
}

fn is_no_condition(columns: &[SourceColumn], condition: &Option<Expression>) -> bool
    ensures { result ≡ is_other (all_titled columns.now) (view_optional condition.now) }
{
    match condition {
        None => false,
        Some(e) => !is_condition(columns, e),
    }
}

fn is_truth_item(columns: &[SourceColumn], item: &Item) -> bool
    ensures { result ≡ has_truth (all_titled columns.now) (view_item item.now) }
{
    match item {
        Item::All => false,
        Item::Value { expression, .. } => !is_value(columns, expression),
    }
}

fn any_truth_item(columns: &[SourceColumn], items: &[Item]) -> bool
    ensures { result ≡ list_any (has_truth (all_titled columns.now)) (map view_item items.now) }
{
    'items: for item in items {
        if is_truth_item(columns, item) {
            return true;
        }
    }
    false
}

fn any_truth_entry(columns: &[SourceColumn], entries: &[WindowEntry]) -> bool
    ensures { result ≡ list_any (is_entry_of_truth (all_titled columns.now)) (map view_entry entries.now) }
{
    'entries: for entry in entries {
        if !is_window_typed(columns, &entry.window) {
            return true;
        }
    }
    false
}

#[tactic(auto, unfolding(wquery::specs::Tree::view_key, wquery::specs::Tree::view))]
fn is_truth_key<'a>(scope: &Scope<'a>, key: &'a Key) -> bool
    ensures { result ≡ is_key_of_truth (scope_columns scope.now) (scope_clauses scope.now).items (view_key key.now) }
{
    if is_value(scope.columns, &key.expression) {
        return false;
    }
    !scope.is_output(&key.expression)
}

fn any_truth_key<'a>(scope: &Scope<'a>, order: &'a [Key]) -> bool
    ensures { result ≡ list_any (is_key_of_truth (scope_columns scope.now) (scope_clauses scope.now).items) (map view_key order.now) }
{
    'keys: for key in order {
        if is_truth_key(scope, key) {
            return true;
        }
    }
    false
}

/// Q14.
pub fn has_wrong_types(scope: &Scope) -> bool
    ensures { result ≡ breaks_types (scope_columns scope.now) (scope_clauses scope.now) }
{
    let columns = scope.columns;
    let query = scope.query;
    if any_anywhere(&IllTyped { columns }, scope) {
        return true;
    }
    if is_no_condition(columns, &query.condition) {
        return true;
    }
    if is_no_condition(columns, &query.having) {
        return true;
    }
    if any_truth_item(columns, query.items.as_slice()) {
        return true;
    }
    if any_truth_entry(columns, query.windows.as_slice()) {
        return true;
    }
    any_truth_key(scope, query.order.as_slice())
}
