//! What is told of a place in a query beside the sentence.

ghost use Rattle.std.specs.Prelude.{◌≡◌, ◌++◌, [], IfOk, OnOk, option_map, slice_get, string_bytes};
ghost use Rattle.std.specs.Rc.{rc_str_bytes};
ghost use Rattle.wshown.specs.Shown.{shown_text};
ghost use Rattle.wspots.specs.Notes.{columns_listed, columns_told, told_or, entry_at, listed, listed_if};
ghost use Rattle.wspots.specs.Notes.{windows_before, windows_told, windows_before_told, two_told};
ghost use Rattle.wspots.specs.Notes.{table_told, taken_by, taken_told, star_told, words_told, told_text};

use crate::scene::Scene;
use std::alloc::{AllocError, Global};
use wclauses::name_at;
use wgrammar::Role;
use wscope::{Function, SourceColumn};
use wsegment::Schema;
use wshown::{push_number, push_text};

/// The functions of the language, as they are told.
const FUNCTIONS: &str =
    "the functions are count, sum, min, max, row_number, rank, dense_rank, ntile, lag, lead, \
    first_value, last_value, nth_value";

/// What is told of a place beside the sentence.
#[derive(Clone, Copy)]
pub(crate) enum Told {
    /// The name of the table.
    Table,
    /// The name of the source.
    Source,
    /// The columns of the source.
    Columns,
    /// The places of two columns, from 0.
    TwoColumns(usize, usize),
    /// The places of two items, from 0.
    TwoItems(usize, usize),
    /// The functions of the language.
    Functions,
    /// How many arguments the function at a token takes.
    Takes(usize, Function),
    /// That `*` is an argument of one function alone.
    Star,
    /// How many columns GROUPING takes.
    LongGrouping,
    /// That WHERE has no aggregates.
    Condition,
    /// That a column is not in GROUP BY.
    Ungrouped,
    /// That `*` stands for a column that is not in GROUP BY, by its place from 0.
    UngroupedStar(usize),
    /// The windows.
    Windows,
    /// The windows before the entry that the mark of this number names.
    WindowsBefore(usize),
    /// The number of items.
    Items,
    Nothing,
}

/// Where a rule is broken.
#[derive(Clone, Copy)]
pub(crate) struct Breach {
    /// The number of the token.
    pub(crate) token: usize,
    /// What is told of it.
    pub(crate) told: Told,
}

impl Breach {
    /// At the token of this number, of which this is told.
    pub(crate) fn at(token: usize, told: Told) -> Breach
        ensures token { result.token ≡ token }
        ensures told { result.told ≡ told }
    {
        Breach { token, told }
    }
}

// Adds a name behind those that are listed.
fn push_name(names: &mut String, name: &str) -> Result<(), AllocError>
    ensures { OnOk result (string_bytes names.new ≡ listed (string_bytes names.old) name.now) }
{
    if !names.is_empty() {
        names.push_str(", ")?;
    }
    names.push_str(name)
}

// The names of some columns.
fn names_of(alloc: Global, columns: &[SourceColumn]) -> Result<String, AllocError>
    ensures { IfOk result (λ names. string_bytes names ≡ columns_listed [] columns.now) }
{
    let mut names = String::new(alloc);
    'columns: for column in columns {
        push_name(&mut names, column.name.as_str())?;
    }
    Ok(names)
}

// Adds the name of the source and its columns.
fn push_columns(alloc: Global, text: &mut String, scene: &Scene<'_>) -> Result<(), AllocError>
    ensures { OnOk result (string_bytes text.new ≡ string_bytes text.old ++ columns_told scene.now) }
{
    push_text(text, scene.alias())?;
    text.push_str(" has ")?;
    let names = names_of(alloc, scene.columns)?;
    push_text(text, names.as_str())
}

// The name of the WINDOW entry at the mark of this number, if it is the first of its name.
fn entry_at<'a>(scene: &Scene<'a>, number: usize) -> Option<&'a str>
    ensures { option_map (λ name. name.now) result ≡ entry_at scene.now number }
{
    let mark = scene.mark_of(number, Role::Entry)?;
    let name = name_at(scene.written.tokens, mark.token)?;
    match scene.entries.get(name) {
        Some(first) if *first == number => Some(name),
        _ => None,
    }
}

// Adds the name of an entry, if there is one.
fn push_entry(names: &mut String, entry: Option<&str>) -> Result<(), AllocError>
    ensures { OnOk result (string_bytes names.new
        ≡ listed_if (string_bytes names.old) (option_map (λ name. name.now) entry.entry)) }
{
    match entry {
        Some(name) => push_name(names, name),
        None => Ok(()),
    }
}

// The names of the windows before the mark of this number.
fn windows_before(alloc: Global, scene: &Scene<'_>, number: usize) -> Result<String, AllocError>
    ensures { IfOk result (λ names. string_bytes names ≡ windows_before scene.now number) }
{
    let mut names = String::new(alloc);
    'marks: for before in 0..number {
        push_entry(&mut names, entry_at(scene, before))?;
    }
    Ok(names)
}

// Adds names behind what leads to them, or that there are none.
fn push_listed(text: &mut String, none: &str, some: &str, names: &str) -> Result<(), AllocError>
    ensures { OnOk result (string_bytes text.new ≡ string_bytes text.old ++ told_or none.now some.now names.now) }
{
    if names.is_empty() {
        return text.push_str(none);
    }
    text.push_str(some)?;
    push_text(text, names)
}

// Adds the windows.
fn push_windows(alloc: Global, text: &mut String, scene: &Scene<'_>) -> Result<(), AllocError>
    ensures { OnOk result (string_bytes text.new ≡ string_bytes text.old ++ windows_told scene.now) }
{
    let names = windows_before(alloc, scene, scene.written.marks.len())?;
    push_listed(
        text,
        "there is no WINDOW",
        "the windows are ",
        names.as_str(),
    )
}

// Adds the windows before the entry that the mark of this number names.
fn push_windows_before(
    alloc: Global,
    text: &mut String,
    scene: &Scene<'_>,
    number: usize,
) -> Result<(), AllocError>
    ensures { OnOk result (string_bytes text.new ≡ string_bytes text.old ++ windows_before_told scene.now number) }
{
    let names = windows_before(alloc, scene, number)?;
    push_listed(
        text,
        "there is no window before it",
        "the windows before it are ",
        names.as_str(),
    )
}

// Adds two places, counted from 1.
fn push_two(
    text: &mut String,
    what: &str,
    one: usize,
    other: usize,
    behind: &str,
) -> Result<(), AllocError>
    ensures { OnOk result (string_bytes text.new ≡ string_bytes text.old ++ two_told what.now one other behind.now) }
{
    text.push_str(what)?;
    text.push(' ')?;
    push_number(text, (one as u64).saturating_add(1))?;
    text.push_str(" and ")?;
    push_number(text, (other as u64).saturating_add(1))?;
    text.push_str(behind)
}

// How many arguments a function takes.
fn taken_by(function: Function) -> &'static str
    ensures { result.now ≡ taken_by function }
{
    match function {
        Function::RowNumber => "none",
        Function::Rank => "none",
        Function::DenseRank => "none",
        Function::Lag => "one to three",
        Function::Lead => "one to three",
        Function::NthValue => "two arguments",
        Function::Count => "one argument, or *",
        Function::Ntile => "one argument",
        Function::FirstValue => "one argument",
        Function::LastValue => "one argument",
        Function::Sum => "one argument",
        Function::Min => "one argument",
        Function::Max => "one argument",
    }
}

// Adds how many arguments the function at a token takes.
fn push_taken(
    text: &mut String,
    scene: &Scene<'_>,
    token: usize,
    function: Function,
) -> Result<(), AllocError>
    ensures { OnOk result (string_bytes text.new ≡ string_bytes text.old ++ taken_told scene.now token function) }
{
    push_text(text, name_at(scene.written.tokens, token).unwrap_or(""))?;
    text.push_str(" takes ")?;
    text.push_str(taken_by(function))
}

// Adds the name of a column between two texts.
fn push_between(
    text: &mut String,
    before: &str,
    column: &SourceColumn,
    behind: &str,
) -> Result<(), AllocError>
    ensures { OnOk result (string_bytes text.new ≡ string_bytes text.old
        ++ (before.now ++ (shown_text (rc_str_bytes column.now.name) ++ behind.now))) }
{
    text.push_str(before)?;
    push_text(text, column.name.as_str())?;
    text.push_str(behind)
}

// Adds that `*` stands for a column that is not in GROUP BY, if there is one at the place.
fn push_star(text: &mut String, scene: &Scene<'_>, place: usize) -> Result<(), AllocError>
    ensures { OnOk result (string_bytes text.new ≡ string_bytes text.old ++ star_told (slice_get scene.now.columns.now place)) }
{
    match scene.columns.get(place) {
        Some(column) => push_between(text, "* stands for ", column, ", not in GROUP BY"),
        None => Ok(()),
    }
}

// Adds a name behind what leads to it.
fn push_named(text: &mut String, what: &str, name: &str) -> Result<(), AllocError>
    ensures { OnOk result (string_bytes text.new ≡ string_bytes text.old ++ (what.now ++ shown_text name.now)) }
{
    text.push_str(what)?;
    push_text(text, name)
}

// Adds the name of the table.
fn push_table(text: &mut String, schema: &Schema) -> Result<(), AllocError>
    ensures { OnOk result (string_bytes text.new ≡ string_bytes text.old ++ table_told schema.now) }
{
    push_named(text, "the table is ", schema.table())
}

// Adds what is told where it is the same everywhere.
fn push_words(text: &mut String, told: Told) -> Result<(), AllocError>
    ensures { OnOk result (string_bytes text.new ≡ string_bytes text.old ++ words_told told) }
{
    match told {
        Told::Functions => text.push_str(FUNCTIONS),
        Told::Star => text.push_str("only count takes *"),
        Told::LongGrouping => text.push_str("GROUPING takes at most 31 columns"),
        Told::Condition => text.push_str("in WHERE: HAVING judges groups"),
        Told::Ungrouped => text.push_str("not in GROUP BY"),
        _ => Ok(()),
    }
}

/// Adds what is told of a place.
pub(crate) fn push_told(
    alloc: Global,
    text: &mut String,
    scene: &Scene<'_>,
    told: Told,
) -> Result<(), AllocError>
    ensures { OnOk result (string_bytes text.new ≡ string_bytes text.old ++ told_text scene.now told) }
{
    match told {
        Told::Table => push_table(text, scene.written.schema),
        Told::Source => push_named(text, "the source is ", scene.alias()),
        Told::Columns => push_columns(alloc, text, scene),
        Told::TwoColumns(one, other) => {
            push_two(text, "columns", one, other, " of ")?;
            push_text(text, scene.alias())
        }
        Told::TwoItems(one, other) => push_two(text, "items", one, other, ""),
        Told::Takes(token, function) => push_taken(text, scene, token, function),
        Told::UngroupedStar(place) => push_star(text, scene, place),
        Told::Windows => push_windows(alloc, text, scene),
        Told::WindowsBefore(entry) => push_windows_before(alloc, text, scene, entry),
        Told::Items => {
            push_number(text, scene.outputs.len() as u64)?;
            text.push_str(" items")
        }
        _ => push_words(text, told),
    }
}
