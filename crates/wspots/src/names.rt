//! Where in a query the name stands that breaks a rule.

ghost use Rattle.std.specs.Prelude.{◌≡◌, ◌++◌, IfOk, OnOk, option_map};
ghost use Rattle.wspots.specs.Scene.{tokens_of};
ghost use Rattle.wscope.specs.Sources.{all_titled, declared_columns as columns_of_table};
ghost use Rattle.wspots.specs.Breaches.{IsAmong, IsSpot, earlier_of};
ghost use Rattle.wspots.specs.Made.{IsTold};
ghost use Rattle.wspots.specs.Selects.{IsToldFrom, IsToldIn, queries_in, selects_of};
ghost use Rattle.wspots.specs.Names.{ambiguous_name, breach_at, breach_at_token, entry_before, first_name, first_token};
ghost use Rattle.wspots.specs.Names.{missing_column, named_from, other_source, other_table, repeated_window, unknown_window};
ghost use Rattle.wspots.specs.Names.{first_told, told_at, windows_told, wrong_place};

use crate::calls::{
    long_grouping, misplaced_aggregate, misplaced_function, misplaced_grouping, wrong_call,
    wrong_filter,
};
use crate::groups::{ungrouped_column, ungrouped_star};
use crate::notes::{Breach, Told, push_told};
use crate::outputs::count_items;
use crate::scene::{Scene, Written, is_wrong_key};
use std::alloc::{AllocError, Global};
use wclauses::{Clauses, name_at};
use wgrammar::{Role, follow};
use wlexer::Token;
use wquery::{Query, Source};
use wrules::Rule;
use wscope::{SourceColumn, declared_columns, has_column, output_columns, place_named};
use wsegment::Schema;

/// The most items of a SELECT that breaks no rule.
const MOST_ITEMS: usize = 64;

/// The token of a name, by its number, and what is told of it.
#[derive(Drop)]
pub(crate) struct Spot {
    pub(crate) token: usize,
    pub(crate) note: String,
}

// A table that is not the declared one.
#[tactic(auto, using(crate::proofs::Within::name_within))]
fn other_table(scene: &Scene<'_>, number: usize) -> Option<Breach>
    ensures breach { result ≡ other_table scene.now number }
    ensures among { IsAmong (tokens_of scene.now) result }
{
    let mark = scene.mark_of(number, Role::Table)?;
    let name = name_at(scene.written.tokens, mark.token)?;
    if name == scene.written.schema.table() {
        return None;
    }
    Some(Breach::at(mark.token, Told::Table))
}

// What stands before a dot, and is not the name of the source.
#[tactic(auto, using(crate::proofs::Within::source_within))]
fn other_source(scene: &Scene<'_>, number: usize) -> Option<Breach>
    ensures breach { result ≡ other_source scene.now number }
    ensures among { IsAmong (tokens_of scene.now) result }
{
    let mark = scene.mark_of(number, Role::Identifier)?;
    let qualifier = scene.column(number)?.qualifier?;
    if qualifier == scene.alias() {
        return None;
    }
    Some(Breach::at(mark.token, Told::Source))
}

// A column that the source lacks.
fn missing_column(scene: &Scene<'_>, number: usize) -> Option<Breach>
    ensures breach { result ≡ missing_column scene.now number }
    ensures among { IsAmong (tokens_of scene.now) result }
{
    let named = scene.column(number)?;
    if has_column(scene.columns, named.name) || scene.is_output(number, &named) {
        return None;
    }
    Some(Breach::at(named.token, Told::Columns))
}

// The place of the second column of a name.
fn second_named(columns: &[SourceColumn], name: &str, first: usize) -> Option<usize>
    ensures { result ≡ named_from name.now first 0 (all_titled columns.now) }
{
    'columns: for (place, column) in columns.iter().enumerate() {
        if place > first && column.has_name(name) {
            return Some(place);
        }
    }
    None
}

// A name that two columns have, or two items.
fn ambiguous_name(scene: &Scene<'_>, number: usize) -> Option<Breach>
    ensures breach { result ≡ ambiguous_name scene.now number }
    ensures among { IsAmong (tokens_of scene.now) result }
{
    let named = scene.column(number)?;
    if scene.is_output(number, &named) {
        let (one, other) = scene.outputs.two_called(named.name)?;
        return Some(Breach::at(named.token, Told::TwoItems(one, other)));
    }
    let first = place_named(scene.columns, named.name);
    let second = second_named(scene.columns, named.name, first)?;
    Some(Breach::at(named.token, Told::TwoColumns(first, second)))
}

// Whether the mark before one is the WINDOW entry that it belongs to.
fn entry_before(scene: &Scene<'_>, number: usize) -> Option<usize>
    ensures { result ≡ entry_before scene.now number }
{
    let before = number.checked_sub(1)?;
    scene.mark_of(before, Role::Entry)?;
    Some(before)
}

// What is told of a window, copied by the entry at a mark, if one does.
fn windows_told(copier: Option<usize>) -> Told
    ensures { result ≡ windows_told copier }
{
    match copier {
        Some(entry) => Told::WindowsBefore(entry),
        None => Told::Windows,
    }
}

// The window that is used or copied at a mark, which no entry defines that may be meant.
#[tactic(auto, using(crate::proofs::Within::name_within))]
fn unknown_window(scene: &Scene<'_>, number: usize) -> Option<Breach>
    ensures breach { result ≡ unknown_window scene.now number }
    ensures among { IsAmong (tokens_of scene.now) result }
{
    let mark = scene.mark(number)?;
    if mark.role != Role::Use && mark.role != Role::Copy {
        return None;
    }
    let copier = match mark.role {
        Role::Copy => entry_before(scene, number),
        _ => None,
    };
    let name = name_at(scene.written.tokens, mark.token)?;
    match scene.entries.get(name) {
        Some(entry) if *entry < copier.unwrap_or(scene.written.marks.len()) => None,
        _ => Some(Breach::at(mark.token, windows_told(copier))),
    }
}

// A WINDOW entry whose name an earlier one has.
#[tactic(auto, using(crate::proofs::Within::name_within))]
fn repeated_window(scene: &Scene<'_>, number: usize) -> Option<Breach>
    ensures breach { result ≡ repeated_window scene.now number }
    ensures among { IsAmong (tokens_of scene.now) result }
{
    let mark = scene.mark_of(number, Role::Entry)?;
    let name = name_at(scene.written.tokens, mark.token)?;
    let first = scene.entries.get(name)?;
    if *first == number {
        return None;
    }
    Some(Breach::at(mark.token, Told::Nothing))
}

// A literal in ORDER BY that is no place of an item.
#[tactic(auto, using(crate::proofs::Within::wrong_within))]
fn wrong_place(scene: &Scene<'_>, number: usize) -> Option<Breach>
    ensures breach { result ≡ wrong_place scene.now number }
    ensures among { IsAmong (tokens_of scene.now) result }
{
    let begin = scene.mark_of(number, Role::KeyBegin)?;
    let end = scene.mark_of(number.saturating_add(1), Role::KeyEnd)?;
    let key = scene.written.tokens.get(begin.token..end.token)?;
    if !is_wrong_key(key, scene.outputs.len()) {
        return None;
    }
    Some(Breach::at(begin.token, Told::Items))
}

// What breaks a rule at the mark of this number.
fn breach_at(scene: &Scene<'_>, number: usize, rule: Rule) -> Option<Breach>
    ensures breach { result ≡ breach_at scene.now number rule }
    ensures among { IsAmong (tokens_of scene.now) result }
{
    match rule {
        Rule::UnknownTable => match other_table(scene, number) {
            Some(breach) => Some(breach),
            None => other_source(scene, number),
        },
        Rule::UnknownColumn => missing_column(scene, number),
        Rule::AmbiguousName => ambiguous_name(scene, number),
        Rule::WrongCall => wrong_call(scene, number),
        Rule::MisplacedWindowCall => misplaced_function(scene, number),
        Rule::MisplacedAggregate => misplaced_aggregate(scene, number),
        Rule::UngroupedColumn => ungrouped_column(scene, number),
        Rule::WrongFilter => wrong_filter(scene, number),
        Rule::UnknownWindow => unknown_window(scene, number),
        Rule::RepeatedWindow => repeated_window(scene, number),
        Rule::WrongPlace => wrong_place(scene, number),
        _ => None,
    }
}

// What breaks a rule at the token of this number, which is no name.
fn breach_at_token(scene: &Scene<'_>, number: usize, rule: Rule) -> Option<Breach>
    ensures breach { result ≡ breach_at_token scene.now number rule }
    ensures among { IsAmong (tokens_of scene.now) result }
{
    match rule {
        Rule::WrongCall => long_grouping(scene, number),
        Rule::MisplacedAggregate => misplaced_grouping(scene, number),
        Rule::UngroupedColumn => ungrouped_star(scene, number),
        _ => None,
    }
}

// The first name of a SELECT that breaks a rule.
fn first_name(scene: &Scene<'_>, rule: Rule) -> Option<Breach>
    ensures breach { result ≡ first_name scene.now rule }
    ensures among { IsAmong (tokens_of scene.now) result }
{
    for number in 0..scene.written.marks.len() {
        let breach = breach_at(scene, number, rule);
        if breach.is_some() {
            return breach;
        }
    }
    None
}

// The first other token of a SELECT that breaks a rule.
fn first_token(scene: &Scene<'_>, rule: Rule) -> Option<Breach>
    ensures breach { result ≡ first_token scene.now rule }
    ensures among { IsAmong (tokens_of scene.now) result }
{
    for number in 0..scene.written.tokens.len() {
        let breach = breach_at_token(scene, number, rule);
        if breach.is_some() {
            return breach;
        }
    }
    None
}

// The one of two that stands before the other.
fn earlier(one: Option<Breach>, other: Option<Breach>) -> Option<Breach>
    ensures { result ≡ earlier_of one other }
{
    match (one, other) {
        (Some(one), Some(other)) if other.token < one.token => Some(other),
        (Some(one), _) => Some(one),
        (None, other) => other,
    }
}

// The first place in a SELECT where a rule is broken, and what is told of it.
fn find_in(alloc: Global, scene: &Scene<'_>, rule: Rule) -> Result<Option<Spot>, AllocError>
    ensures first { IfOk result (λ found. option_map told_at found ≡ first_told scene.now rule) }
    ensures among { IfOk result (λ found. IsSpot (tokens_of scene.now) found) }
{
    let Some(breach) = earlier(first_name(scene, rule), first_token(scene, rule)) else {
        return Ok(None);
    };
    let mut note = String::new(alloc);
    push_told(alloc, &mut note, scene, breach.told)?;
    Ok(Some(Spot {
        token: breach.token,
        note,
    }))
}

// Adds the SELECTs of a query, the innermost first.
fn push_selects<'a>(selects: &mut Vec<&'a Query>, query: &'a Query) -> Result<(), AllocError>
    ensures { OnOk result (queries_in selects.new ≡ queries_in selects.old ++ selects_of query.now) }
{
    if let Source::Derived { query: inner, .. } = &query.source {
        push_selects(selects, inner)?;
    }
    let pushed = selects.push(query)?;
    Ok(pushed)
}

// The first name of a SELECT over these columns that breaks a rule.
fn find_over(
    alloc: Global,
    written: Written<'_>,
    columns: &[SourceColumn],
    select: &Query,
    level: usize,
    rule: Rule,
) -> Result<Option<Spot>, AllocError>
    ensures told { IfOk result (λ found. IsTold written.entry columns.now select.now level rule found) }
    ensures among { IfOk result (λ found. IsSpot written.entry.tokens.now found) }
{
    let scene = Scene::new(alloc, written, columns, select, level)?;
    find_in(alloc, &scene, rule)
}

// The first place where a rule is broken, in the innermost SELECT that has one. Around a SELECT of too many items none is judged.
fn find_written(
    alloc: Global,
    written: Written<'_>,
    query: &Query,
    rule: Rule,
) -> Result<Option<Spot>, AllocError>
    ensures told { IfOk result (λ found. IsToldFrom written.entry rule (columns_of_table written.entry.schema.now.columns)
        (selects_of query.now) found) }
    ensures among { IfOk result (λ found. IsSpot written.entry.tokens.now found) }
{
    let mut selects = Vec::new(alloc);
    push_selects(&mut selects, query)?;
    let mut columns = declared_columns(alloc, written.schema)?;
    'selects: for (place, select) in selects.iter().enumerate() {
        let level = selects.len() - 1 - place;
        let found = find_over(alloc, written, columns.as_slice(), select, level, rule)?;
        if found.is_some() {
            return Ok(found);
        }
        if count_items(columns.len(), select.items.as_slice()) > MOST_ITEMS {
            return Ok(None);
        }
        let items = output_columns(alloc, columns.as_slice(), select.items.as_slice())?;
        columns = items;
    }
    Ok(None)
}

/// The first place where a rule is broken, in the innermost SELECT that has one, which is the one that is judged first.
pub(crate) fn find_name(
    alloc: Global,
    schema: &Schema,
    tokens: &[Token],
    query: &Query,
    rule: Rule,
) -> Result<Option<Spot>, AllocError>
    ensures told { IfOk result (λ found. IsToldIn schema.now tokens.now query.now rule found) }
    ensures among { IfOk result (λ found. IsSpot tokens.now found) }
{
    let followed = follow(alloc, tokens)?;
    let clauses = Clauses::new(alloc, tokens)?;
    let written = Written {
        schema,
        tokens,
        marks: followed.marks.as_slice(),
        clauses: &clauses,
    };
    find_written(alloc, written, query, rule)
}
