//! A SELECT in its text, and the names in it.

ghost use Rattle.std.specs.Prelude.{◌≡◌, ◌<◌, ◌&&◌, length, None, IfOk, IfSome, if◌then◌else◌, is_none, option_map};
ghost use Rattle.std.specs.List.{list_all};
ghost use Rattle.wlexer.specs.Token.{lexeme_meaning};
ghost use Rattle.wquery.specs.QueryTree.{view_source};
ghost use Rattle.wclauses.specs.Pairs.{arguments, has_filter, has_over, is_group_call};
ghost use Rattle.wspots.specs.Scene.{spelled, column_at, tokens_of, pairs_of, source_name, mark_at, mark_of, column, function};
ghost use Rattle.wspots.specs.Scene.{is_key, has_token};
ghost use Rattle.wspots.specs.Items.{has_item};
ghost use Rattle.wspots.specs.Scene.{first_ungrouped, has_group_call, is_grouped};
ghost use Rattle.wspots.specs.Names.{groups_by, holds};
ghost use Rattle.wspots.specs.Made.{HasEntries, HasNames, IsSceneOf, entry_name, grouped_name};
ghost use Rattle.wspots.specs.Keys.{is_parenthesis, is_place, is_wrong_key, says_sign, wrong_literal};

use crate::outputs::Outputs;
use std::alloc::{AllocError, Global};
use std::collections::{BTreeMap, BTreeSet};
use wclauses::{Arguments, Clause, Clauses, is_called, is_parenthesis, is_symbol, name_at};
use wgrammar::{Mark, Role};
use wlexer::{Keyword, Lexeme, Symbol, Token};
use wquery::{Query, Source};
use wscope::SourceColumn;
use wsegment::Schema;

/// The text of a query with its names.
#[derive(Clone, Copy)]
pub(crate) struct Written<'a> {
    pub(crate) schema: &'a Schema,
    pub(crate) tokens: &'a [Token],
    pub(crate) marks: &'a [Mark],
    /// Where the tokens stand.
    pub(crate) clauses: &'a Clauses,
}

/// One SELECT of a query.
#[derive(Drop)]
pub(crate) struct Scene<'a> {
    /// The whole text.
    pub(crate) written: Written<'a>,
    pub(crate) query: &'a Query,
    /// The columns of its source.
    pub(crate) columns: &'a [SourceColumn],
    /// Its items.
    pub(crate) outputs: Outputs<'a>,
    /// Its WINDOW entries by their names, each the number of its first mark.
    pub(crate) entries: BTreeMap<&'a str, usize>,
    /// Whether it is grouped.
    pub(crate) is_grouped: bool,
    /// The names of the columns in its GROUP BY.
    grouped: BTreeSet<&'a str>,
    /// Where it is grouped, the place of the first column of its source that is not in GROUP BY, from 0.
    pub(crate) ungrouped: Option<usize>,
    /// How many SELECTs stand around it.
    pub(crate) level: usize,
}

/// The name of a column, as it is written.
#[derive(Clone, Copy)]
pub(crate) struct Named<'a> {
    /// What stands before the dot.
    pub(crate) qualifier: Option<&'a str>,
    pub(crate) name: &'a str,
    /// The number of the name's token.
    pub(crate) token: usize,
}

/// The column that is named at a token, if it is none of a function.
#[tactic(auto, using(crate::proofs::Within::name_within))]
pub(crate) fn column_at(tokens: &[Token], number: usize) -> Option<Named<'_>>
    ensures column { option_map spelled result ≡ column_at tokens.now number }
    ensures among { IfSome result (λ named. named.token < length tokens.now) }
{
    if is_called(tokens, number) {
        return None;
    }
    let first = name_at(tokens, number)?;
    if !is_symbol(tokens, number.saturating_add(1), Symbol::Dot) {
        return Some(Named {
            qualifier: None,
            name: first,
            token: number,
        });
    }
    let token = number.saturating_add(2);
    Some(Named {
        qualifier: Some(first),
        name: name_at(tokens, token)?,
        token,
    })
}

// The name of the WINDOW entry of a level at a mark, without bytes where none is told.
fn entry_name<'a>(tokens: &'a [Token], level: usize, mark: &Mark) -> Option<&'a str>
    ensures { option_map (λ name. name.now) result ≡ entry_name tokens.entry.now level mark.now }
{
    if mark.level != level || mark.role != Role::Entry {
        return None;
    }
    Some(name_at(tokens, mark.token).unwrap_or(""))
}

// The WINDOW entries of a SELECT by their names, each the number of its first mark.
fn entries_of<'a>(
    alloc: Global,
    tokens: &'a [Token],
    marks: &[Mark],
    level: usize,
) -> Result<BTreeMap<&'a str, usize>, AllocError>
    ensures { IfOk result (λ entries. HasEntries tokens.entry.now level marks.now entries) }
{
    let mut entries = BTreeMap::new(alloc);
    'marks: for (number, mark) in marks.iter().enumerate() {
        let Some(name) = entry_name(tokens, level, mark) else {
            continue;
        };
        if entries.contains_key(name) {
            continue;
        }
        entries.insert(name, number)?;
    }
    Ok(entries)
}

// The name of the column of a level at a mark that stands in GROUP BY.
fn grouped_name<'a>(written: Written<'a>, level: usize, mark: &Mark) -> Option<&'a str>
    ensures { option_map (λ name. name.now) result ≡ grouped_name written.entry level mark.now }
{
    if mark.level != level || mark.role != Role::Identifier {
        return None;
    }
    if !written.clauses.is_in(mark.token, Clause::Grouping) {
        return None;
    }
    let named = column_at(written.tokens, mark.token)?;
    Some(named.name)
}

// The names of the columns in the GROUP BY of a SELECT.
fn grouped_of<'a>(
    alloc: Global,
    written: Written<'a>,
    level: usize,
) -> Result<BTreeSet<&'a str>, AllocError>
    ensures { IfOk result (λ names. HasNames written.entry level names) }
{
    let mut names = BTreeSet::new(alloc);
    'marks: for mark in written.marks {
        let Some(name) = grouped_name(written, level, mark) else {
            continue;
        };
        names.insert(name)?;
    }
    Ok(names)
}

// Whether a SELECT has an aggregate without OVER, those of its derived table aside.
fn has_group_call(written: Written<'_>, level: usize) -> bool
    ensures { result ≡ has_group_call written.entry level }
{
    'marks: for mark in written.marks {
        if mark.level != level
            || mark.role != Role::Identifier
            || !is_called(written.tokens, mark.token)
        {
            continue;
        }
        if written
            .clauses
            .pairs
            .is_group_call(written.tokens, mark.token)
        {
            return true;
        }
    }
    false
}

// Whether a SELECT is grouped.
fn is_grouped(written: Written<'_>, query: &Query, level: usize) -> bool
    ensures { result ≡ is_grouped written.entry query.now level }
{
    if !query.grouping.is_empty() || query.having.is_some() {
        return true;
    }
    has_group_call(written, level)
}

// The place of the first column that is none of these names.
fn first_ungrouped(columns: &[SourceColumn], grouped: &BTreeSet<&str>) -> Option<usize>
    ensures { result ≡ first_ungrouped (holds grouped.now) 0 columns.now }
{
    'columns: for (place, column) in columns.iter().enumerate() {
        if !grouped.contains(column.name.as_str()) {
            return Some(place);
        }
    }
    None
}

// The name of a source, as its columns are written behind it.
#[tactic(auto, unfolding(wquery::specs::QueryTree::view_source))]
fn alias_of(source: &Source) -> &str
    ensures { result.now ≡ source_name (view_source source.now) }
{
    match source {
        Source::Table { name, alias } => match alias {
            Some(alias) => alias.as_str(),
            None => name.as_str(),
        },
        Source::Derived { alias, .. } => alias.as_str(),
    }
}

impl<'a> Scene<'a> {
    /// The SELECT of a level over the columns of its source.
    pub(crate) fn new(
        alloc: Global,
        written: Written<'a>,
        columns: &'a [SourceColumn],
        query: &'a Query,
        level: usize,
    ) -> Result<Scene<'a>, AllocError>
        ensures { IfOk result (λ scene. IsSceneOf written.entry columns.now query.now level scene) }
    {
        let outputs = Outputs::new(alloc, columns, query.items.as_slice())?;
        let entries = entries_of(alloc, written.tokens, written.marks, level)?;
        let grouped = grouped_of(alloc, written, level)?;
        let is_grouped = is_grouped(written, query, level);
        let ungrouped = if is_grouped {
            first_ungrouped(columns, &grouped)
        } else {
            None
        };
        Ok(Scene {
            written,
            is_grouped,
            ungrouped,
            query,
            columns,
            outputs,
            entries,
            grouped,
            level,
        })
    }

    /// The name of the source, as its columns are written behind it.
    pub(crate) fn alias(&self) -> &'a str
        ensures { result.now ≡ source_name (view_source self.now.query.now.source) }
    {
        alias_of(&self.query.source)
    }

    /// The mark of this number, if it is of this SELECT.
    pub(crate) fn mark(&self, number: usize) -> Option<Mark>
        ensures { result ≡ mark_at self.now number }
    {
        match self.written.marks.get(number) {
            Some(mark) if mark.level == self.level => Some(*mark),
            _ => None,
        }
    }

    /// The mark of this number, if it is one of this role in this SELECT.
    pub(crate) fn mark_of(&self, number: usize, role: Role) -> Option<Mark>
        ensures { result ≡ mark_of self.now number role }
    {
        match self.mark(number) {
            Some(mark) if mark.role == role => Some(mark),
            _ => None,
        }
    }

    /// The column that the mark of this number names.
    pub(crate) fn column(&self, number: usize) -> Option<Named<'a>>
        ensures column { option_map spelled result ≡ column self.now number }
        ensures among { IfSome result (λ named. named.token < length (tokens_of self.now)) }
    {
        let mark = self.mark_of(number, Role::Identifier)?;
        column_at(self.written.tokens, mark.token)
    }

    /// The token of the function that the mark of this number names.
    #[tactic(auto, using(crate::proofs::Within::called_within))]
    pub(crate) fn function(&self, number: usize) -> Option<usize>
        ensures function { result ≡ function self.now number }
        ensures among { IfSome result (λ token. token < length (tokens_of self.now)) }
    {
        let mark = self.mark_of(number, Role::Identifier)?;
        if is_called(self.written.tokens, mark.token) {
            return Some(mark.token);
        }
        None
    }

    /// Whether the mark of this number is a key of ORDER BY by itself, in parentheses or not.
    pub(crate) fn is_key(&self, number: usize) -> bool
        ensures { result ≡ is_key self.now number }
    {
        let Some(begin) = self.mark_of(number.saturating_sub(1), Role::KeyBegin) else {
            return false;
        };
        let Some(end) = self.mark_of(number.saturating_add(1), Role::KeyEnd) else {
            return false;
        };
        match self.written.tokens.get(begin.token..end.token) {
            Some(key) => key.iter().filter(|token| !is_parenthesis(token)).count() == 1,
            None => false,
        }
    }

    /// Whether a column stands for an item of its name: it is a key of ORDER BY by itself.
    pub(crate) fn is_output(&self, number: usize, named: &Named<'_>) -> bool
        ensures { result ≡ (is_none named.now.qualifier && (has_item self.now.outputs named.now.name.now && is_key self.now number)) }
    {
        named.qualifier.is_none() && self.outputs.has(named.name) && self.is_key(number)
    }

    /// Whether a column of this name is in GROUP BY. Where no name means two columns, one name is one column.
    pub(crate) fn groups_by(&self, name: &str) -> bool
        ensures { result ≡ groups_by self.now name.now }
    {
        self.grouped.contains(name)
    }

    /// The arguments of the function at a token, or of GROUPING.
    pub(crate) fn arguments(&self, token: usize) -> Arguments
        ensures { result ≡ arguments (pairs_of self.now) (tokens_of self.now) token }
    {
        self.written
            .clauses
            .pairs
            .arguments(self.written.tokens, token)
    }

    /// Whether the function at a token has FILTER.
    pub(crate) fn has_filter(&self, token: usize) -> bool
        ensures { result ≡ has_filter (pairs_of self.now) (tokens_of self.now) token }
    {
        self.written
            .clauses
            .pairs
            .has_filter(self.written.tokens, token)
    }

    /// Whether the function at a token has OVER.
    pub(crate) fn has_over(&self, token: usize) -> bool
        ensures { result ≡ has_over (pairs_of self.now) (tokens_of self.now) token }
    {
        self.written
            .clauses
            .pairs
            .has_over(self.written.tokens, token)
    }

    /// Whether the function at a token is an aggregate without OVER.
    pub(crate) fn is_group_call(&self, token: usize) -> bool
        ensures { result ≡ is_group_call (pairs_of self.now) (tokens_of self.now) token }
    {
        self.written
            .clauses
            .pairs
            .is_group_call(self.written.tokens, token)
    }

    /// Whether a token is of this SELECT, and of none in it or around it.
    pub(crate) fn has_token(&self, token: usize) -> bool
        ensures { result ≡ has_token self.now token }
    {
        match self.written.clauses.standing(token) {
            Some(standing) => standing.level == self.level,
            None => false,
        }
    }
}

// Whether a number is the place of one of so many items.
fn is_place(number: u128, items: usize) -> bool
    ensures { result ≡ is_place number items }
{
    number >= 1 && number <= items as u128
}

// Whether a literal behind signs or none is no place of so many items. `None` at what is no literal.
fn is_wrong_literal(lexeme: &Lexeme, has_sign: bool, items: usize) -> Option<bool>
    ensures { result ≡ wrong_literal has_sign items (lexeme_meaning lexeme.now) }
{
    match lexeme {
        Lexeme::Number(number) => Some(has_sign || !is_place(number.get(), items)),
        Lexeme::Text(_) => Some(true),
        Lexeme::Keyword(Keyword::Null) => Some(true),
        _ => None,
    }
}

fn is_sign(lexeme: &Lexeme) -> bool
    ensures { result ≡ says_sign (lexeme_meaning lexeme.now) }
{
    matches!(lexeme, Lexeme::Symbol(Symbol::Plus | Symbol::Minus))
}

// Whether all of these are parentheses.
fn are_parentheses(tokens: &[Token]) -> bool
    ensures { result ≡ list_all is_parenthesis tokens.now }
{
    'tokens: for token in tokens {
        if !is_parenthesis(token) {
            return false;
        }
    }
    true
}

/// Whether a key of ORDER BY is a literal that is no place of so many items: a number that is none, another literal, or
/// one behind signs.
pub(crate) fn is_wrong_key(key: &[Token], items: usize) -> bool
    ensures { result ≡ is_wrong_key key.now items }
{
    let mut has_sign = false;
    let mut rest = key;
    'parts: while let Some((part, behind)) = rest.split_first() {
        rest = behind;
        if is_parenthesis(part) {
            continue;
        }
        if !is_sign(&part.lexeme) {
            let is_wrong = is_wrong_literal(&part.lexeme, has_sign, items).unwrap_or(false);
            return is_wrong && are_parentheses(behind);
        }
        has_sign = true;
    }
    false
}
