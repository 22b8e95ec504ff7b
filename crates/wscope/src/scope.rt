//! What one SELECT is judged and resolved by.

ghost use Rattle.std.specs.Prelude.{◌≡◌, ℕ, Bool, List, is_some};
ghost use Rattle.std.specs.Borrow.{Bor};
ghost use Rattle.std.specs.BTreeMap.{get};
ghost use Rattle.std.specs.BTreeSet.{contains_text};
ghost use Rattle.std.specs.List.{list_any};
ghost use Rattle.wquery.specs.GroupElements.{all_columns};
ghost use Rattle.wscope.specs.Called.{has_unlike, names};
ghost use Rattle.wquery.specs.Tree.{Tree};
ghost use Rattle.wscope.specs.Clauses.{clauses_in};
ghost use Rattle.wscope.specs.Groups.{lent_columns};
ghost use Rattle.wscope.specs.Outputs.{has_two};
ghost use Rattle.wscope.specs.Scope.{item_has_name};
ghost use Rattle.wscope.specs.Sources.{all_titled};
ghost use Rattle.wscope.specs.Texts.{by_text};

use crate::called::Called;
use crate::source::SourceColumn;
use crate::window_index::WindowIndex;
use std::collections::{BTreeMap, BTreeSet};
use wquery::{Column, Query};

/// A SELECT over the columns of its source, with its names and windows found by an index: made once, and lent to each
/// rule and to resolving.
#[derive(Drop)]
pub struct Scope<'a> {
    /// The declared table's name.
    pub table: &'a str,
    /// What the source is called, which a qualifier has to be.
    pub alias: &'a str,
    /// The columns of the source.
    pub columns: &'a [SourceColumn],
    pub query: &'a Query,
    /// The WINDOW entries with what they copy.
    pub windows: WindowIndex<'a>,
    /// The items by their output names, `*` written out.
    pub(crate) outputs: BTreeMap<&'a str, Called<'a>>,
    /// The columns that GROUP BY names, from the first to the last.
    pub grouped: Vec<&'a Column>,
    /// Their names.
    pub(crate) grouping: BTreeSet<String>,
    ghost named: { (q : Bor (List ℕ)) → is_some (get by_text outputs q)
        ≡ list_any (item_has_name (all_titled columns.now) q.now) (clauses_in query.now).items },
    ghost two: { (q : Bor (List ℕ)) → has_two (get by_text outputs q) ≡ has_unlike (all_titled columns.now)
        (clauses_in query.now).items q.now },
    pub ghost listed: { (p : Tree → Bool) → list_any p (lent_columns grouped.items)
        ≡ list_any p (all_columns (clauses_in query.now).grouping) },
    ghost kept: { (q : List ℕ) → contains_text grouping q ≡ list_any (names q) (all_columns (clauses_in query.now).grouping) },
}
