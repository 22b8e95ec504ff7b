//! Whole queries: each SELECT is judged, and resolved where no rule is broken, by one scope, the innermost first.

ghost use Rattle.std.specs.Prelude.{◌≡◌, ◌+◌, ◌-◌, ◌^◌, ◌≤◌, ◌++◌, ◌∷◌, [], List, None, IfOk, OnOk, min};
ghost use Rattle.wsegment.specs.Declaration.{Declaration};
ghost use Rattle.wquery.specs.QueryTree.{view_query, view_source};
ghost use Rattle.wplan.specs.Plans.{SelectPlan, select_plan};
ghost use Rattle.wscope.specs.Clauses.{clauses_in};
ghost use Rattle.wscope.specs.Sources.{all_titled, origin_of, answered};
ghost use Rattle.wrules.specs.Rules.{depth, least_source, source_depth};
ghost use Rattle.wresolve.specs.Judging.{ResolvesOver, ResolvesQuery, ResolvesSource, plans_made};
ghost use Rattle.wresolve.specs.Outcomes.{Resolves};
ghost use Rattle.wresolve.specs.Selecting.{resolved_source};

use crate::made::Made;
use crate::resolve_fault::ResolveFault;
use crate::selecting::build_select;
use std::alloc::{AllocError, Global};
use wplan::{Resolved, Selection};
use wquery::{Query, Source};
use wrules::{Rule, broken_rule, depth_rule};
use wscope::{Scope, SourceColumn, declared_columns, output_columns};
use wsegment::Schema;

// Counts one more SELECT that is judged, as far as numbers go.
fn count(judged: &mut u64)
    ensures { judged.new ≡ min (2 ^ 64 - 1) (judged.old + 1) }
{
    *judged = judged.saturating_add(1);
}

#[tactic(auto, unfolding(wquery::specs::QueryTree::view_source))]
fn alias_of(source: &Source) -> &str
    ensures { (d : Declaration) → result.now ≡ (origin_of d (view_source source.now)).alias }
{
    match source {
        Source::Table { name, alias } => match alias {
            Some(alias) => alias.as_str(),
            None => name.as_str(),
        },
        Source::Derived { alias, .. } => alias.as_str(),
    }
}

// A SELECT over the columns of its source, if it breaks no rule. Its scope is made once, and let go here.
fn select(
    alloc: Global,
    schema: &Schema,
    columns: &[SourceColumn],
    query: &Query,
    last: Option<Rule>,
) -> Result<Selection, ResolveFault>
    ensures { ResolvesOver schema.now last (all_titled columns.now) query.now result }
{
    let scope = Scope::new(
        alloc,
        schema.table(),
        alias_of(&query.source),
        columns,
        query,
    )?;
    match broken_rule(&scope, last) {
        Some(rule) => Err(ResolveFault::Broken(rule)),
        None => {
            let selection = build_select(alloc, &scope)?;
            Ok(selection)
        }
    }
}

// A SELECT behind those so far, and the columns of its answer.
fn push_select(
    alloc: Global,
    made: &mut Made,
    selection: Selection,
    columns: &[SourceColumn],
    query: &Query,
) -> Result<Vec<SourceColumn>, AllocError>
    ensures judged { made.new.judged ≡ made.old.judged }
    ensures selections { OnOk result (plans_made made.new ≡ plans_made made.old ++ select_plan selection ∷ []) }
    ensures columns { IfOk result (λ answer. all_titled answer.items ≡ answered (all_titled columns.now) (clauses_in query.now).items) }
{
    made.selections.push(selection)?;
    output_columns(alloc, columns, query.items.as_slice())
}

fn push_over(
    alloc: Global,
    schema: &Schema,
    made: &mut Made,
    columns: &[SourceColumn],
    query: &Query,
    last: Option<Rule>,
) -> Result<Vec<SourceColumn>, ResolveFault>
    ensures counted { made.new.judged ≡ min (2 ^ 64 - 1) (made.old.judged + 1) }
    ensures answer { (before : List SelectPlan) → least_source schema.now (view_source query.now.source) ≡ None
        → all_titled columns.now ≡ (origin_of schema.now (view_source query.now.source)).columns
        → plans_made made.old ≡ before ++ resolved_source schema.now (view_source query.now.source)
        → ResolvesQuery schema.now last (view_query query.now) before (plans_made made.new) result }
{
    count(&mut made.judged);
    match select(alloc, schema, columns, query, last) {
        Err(fault) => Err(fault),
        Ok(selection) => {
            let answer = push_select(alloc, made, selection, columns, query)?;
            Ok(answer)
        }
    }
}

// The columns of a query's answer; its SELECTs, the innermost first, go behind those so far, each judged once. The last
// rule but that on the number of its sets is given, where it is broken.
#[cycle(querying)]
#[tactic(auto, unfolding(wquery::specs::QueryTree::view_query, wquery::specs::QueryTree::view_source))]
fn push_query(
    alloc: Global,
    schema: &Schema,
    made: &mut Made,
    query: &Query,
    last: Option<Rule>,
) -> Result<Vec<SourceColumn>, ResolveFault>
    ensures once { made.new.judged ≤ made.old.judged + (1 + depth (view_query query.now)) }
    ensures answer { ResolvesQuery schema.now last (view_query query.now) (plans_made made.old) (plans_made made.new) result }
{
    match push_source(alloc, schema, made, &query.source) {
        Err(fault) => Err(fault),
        Ok(columns) => push_over(alloc, schema, made, columns.as_slice(), query, last),
    }
}

// The columns of a source; the SELECTs of a derived table go behind those so far.
#[cycle(querying)]
#[tactic(auto, unfolding(wquery::specs::QueryTree::view_query, wquery::specs::QueryTree::view_source))]
fn push_source(
    alloc: Global,
    schema: &Schema,
    made: &mut Made,
    source: &Source,
) -> Result<Vec<SourceColumn>, ResolveFault>
    ensures once { made.new.judged ≤ made.old.judged + source_depth (view_source source.now) }
    ensures answer { ResolvesSource schema.now (view_source source.now) (plans_made made.old) (plans_made made.new) result }
{
    match source {
        Source::Table { .. } => {
            let columns = declared_columns(alloc, schema)?;
            Ok(columns)
        }
        Source::Derived { query, .. } => push_query(alloc, schema, made, query, None),
    }
}

/// The query that is lent, with each name and default resolved; or the least of the rules Q10 to Q28 that it breaks.
///
/// Nothing is asked of the query. `NoMemory` is answered only where memory was refused.
pub fn resolve(alloc: Global, schema: &Schema, query: &Query) -> Result<Resolved, ResolveFault>
    ensures { Resolves schema.now (view_query query.now) result }
{
    let mut made = Made {
        selections: Vec::new(alloc),
        judged: 0,
    };
    match push_query(alloc, schema, &mut made, query, depth_rule(query)) {
        Err(fault) => Err(fault),
        Ok(_columns) => {
            let Made { selections, .. } = made;
            Ok(Resolved { selections })
        }
    }
}
