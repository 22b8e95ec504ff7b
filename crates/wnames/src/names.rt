//! The rules on names: Q10, Q11 and Q12.

ghost use Rattle.std.specs.Prelude.{◌≡◌, Bool, map};
ghost use Rattle.std.specs.List.{list_any};
ghost use Rattle.wquery.specs.Tree.{KeyTree, Tree, view, view_column, view_key};
ghost use Rattle.wquery.specs.GroupElements.{all_columns};
ghost use Rattle.wquery.specs.QueryTree.{view_source};
ghost use Rattle.wscope.specs.Scoped.{scope_clauses, scope_columns, scope_source};
ghost use Rattle.wscope.specs.Sources.{all_titled, written_out};
ghost use Rattle.wscope.specs.Finding.{finds};
ghost use Rattle.wscope.specs.Groups.{lent_columns};
ghost use Rattle.wnames.specs.Names.{names_other_table as is_other_table, is_misqualified, is_missing, is_ambiguous, count_named};
ghost use Rattle.wnames.specs.Names.{is_ambiguous_key as is_key_ambiguous, breaks_tables, breaks_columns, breaks_ambiguity};

use wquery::{Column, Expression, Key, Source};
use wscope::{Look, NodeTest, Scope, SourceColumn, any_anywhere, found_if, has_column};

/// A test of the columns that a query names.
trait ColumnTest {
    ghost holds: { Self → Tree → Bool };

    /// Whether the rule is broken by this column.
    fn is_hit(&self, column: &Column) -> bool
        ensures { result ≡ holds self.now (view_column column.now) };
}

fn any_hit<T: ColumnTest>(test: &T, columns: &[&Column]) -> bool
    ensures { result ≡ list_any (T.holds test.now) (lent_columns columns.now) }
{
    'columns: for column in columns {
        if test.is_hit(column) {
            return true;
        }
    }
    false
}

/// Whether the rule is broken by some column that GROUP BY names.
fn any_grouping<T: ColumnTest>(test: &T, scope: &Scope) -> bool
    ensures { result ≡ list_any (T.holds test.now) (all_columns (scope_clauses scope.now).grouping) }
{
    any_hit(test, scope.grouped.as_slice())
}

/// A column behind another name than the source's alias.
#[derive(Drop)]
struct Misqualified<'a> {
    alias: &'a str,
}

impl<'a> ColumnTest for Misqualified<'a> {
    ghost holds = { λ m. is_misqualified m.alias.now };

    fn is_hit(&self, column: &Column) -> bool {
        match &column.qualifier {
            None => false,
            Some(qualifier) => qualifier.as_str() != self.alias,
        }
    }
}

impl<'a> NodeTest for Misqualified<'a> {
    ghost sees = { λ m. finds (is_misqualified m.alias.now) };

    #[tactic(auto, unfolding(wquery::specs::Tree::view))]
    fn look(&self, node: &Expression) -> Look {
        match node {
            Expression::Column(column) => found_if(self.is_hit(column)),
            _ => Look::Below,
        }
    }
}

/// A column that the source lacks.
#[derive(Drop)]
struct Missing<'a> {
    columns: &'a [SourceColumn],
}

impl<'a> ColumnTest for Missing<'a> {
    ghost holds = { λ m. is_missing (all_titled m.columns.now) };

    fn is_hit(&self, column: &Column) -> bool {
        !has_column(self.columns, column.name.as_str())
    }
}

impl<'a> NodeTest for Missing<'a> {
    ghost sees = { λ m. finds (is_missing (all_titled m.columns.now)) };

    #[tactic(auto, unfolding(wquery::specs::Tree::view))]
    fn look(&self, node: &Expression) -> Look {
        match node {
            Expression::Column(column) => found_if(self.is_hit(column)),
            _ => Look::Below,
        }
    }
}

/// A column whose name two columns have.
#[derive(Drop)]
struct Ambiguous<'a> {
    columns: &'a [SourceColumn],
}

fn count_of_name(columns: &[SourceColumn], name: &str) -> usize
    ensures { result ≡ count_named name.now (all_titled columns.now) }
{
    let mut count = 0;
    'columns: for column in columns {
        if column.has_name(name) {
            count += 1;
        }
    }
    count
}

impl<'a> ColumnTest for Ambiguous<'a> {
    ghost holds = { λ m. is_ambiguous (all_titled m.columns.now) };

    fn is_hit(&self, column: &Column) -> bool {
        count_of_name(self.columns, column.name.as_str()) > 1
    }
}

impl<'a> NodeTest for Ambiguous<'a> {
    ghost sees = { λ m. finds (is_ambiguous (all_titled m.columns.now)) };

    #[tactic(auto, unfolding(wquery::specs::Tree::view))]
    fn look(&self, node: &Expression) -> Look {
        match node {
            Expression::Column(column) => found_if(self.is_hit(column)),
            _ => Look::Below,
        }
    }
}

#[tactic(auto, unfolding(wquery::specs::QueryTree::view_source))]
fn names_other_table(table: &str, source: &Source) -> bool
    ensures { result ≡ is_other_table table.now (view_source source.now) }
{
    match source {
        Source::Table { name, .. } => name.as_str() != table,
        Source::Derived { .. } => false,
    }
}

/// Q10.
pub fn names_unknown_table(scope: &Scope) -> bool
    ensures { result ≡ breaks_tables scope.now.table.now scope.now.alias.now (scope_columns scope.now)
        (scope_clauses scope.now) (scope_source scope.now) }
{
    if names_other_table(scope.table, &scope.query.source) {
        return true;
    }
    let test = Misqualified { alias: scope.alias };
    if any_anywhere(&test, scope) {
        return true;
    }
    any_grouping(&test, scope)
}

/// Q11.
pub fn names_unknown_column(scope: &Scope) -> bool
    ensures { result ≡ breaks_columns (scope_columns scope.now) (scope_clauses scope.now) }
{
    let test = Missing {
        columns: scope.columns,
    };
    if any_anywhere(&test, scope) {
        return true;
    }
    any_grouping(&test, scope)
}

#[tactic(auto, unfolding(wquery::specs::Tree::view))]
fn is_ambiguous_name<'a>(scope: &Scope<'a>, key: &'a Expression) -> bool
    ensures { result ≡ is_key_ambiguous (scope_columns scope.now) (written_out (scope_columns scope.now)
        (scope_clauses scope.now).items) (view key.now) }
{
    match key {
        Expression::Column(column) => match &column.qualifier {
            Some(_) => false,
            None => scope.has_ambiguous_output(column.name.as_str()),
        },
        _ => false,
    }
}

#[tactic(auto, unfolding(wquery::specs::Tree::view, wquery::specs::Tree::view_key))]
fn is_ambiguous_key<'a>(scope: &Scope<'a>, key: &'a Key) -> bool
    ensures { result ≡ is_key_ambiguous (scope_columns scope.now) (written_out (scope_columns scope.now)
        (scope_clauses scope.now).items) (view_key key.now).expression }
{
    is_ambiguous_name(scope, &key.expression)
}

fn any_ambiguous_key<'a>(scope: &Scope<'a>, order: &'a [Key]) -> bool
    ensures { result ≡ list_any (λ (k : KeyTree). is_key_ambiguous (scope_columns scope.now)
        (written_out (scope_columns scope.now) (scope_clauses scope.now).items) k.expression) (map view_key order.now) }
{
    'keys: for key in order {
        if is_ambiguous_key(scope, key) {
            return true;
        }
    }
    false
}

/// Q12.
pub fn names_ambiguously(scope: &Scope) -> bool
    ensures { result ≡ breaks_ambiguity (scope_columns scope.now) (scope_clauses scope.now) }
{
    let test = Ambiguous {
        columns: scope.columns,
    };
    if any_anywhere(&test, scope) {
        return true;
    }
    if any_grouping(&test, scope) {
        return true;
    }
    let query = scope.query;
    any_ambiguous_key(scope, query.order.as_slice())
}
