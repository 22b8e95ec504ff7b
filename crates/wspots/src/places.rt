//! Where in a query's text something is wrong.
ghost use Rattle.std.specs.Prelude.{OnOk, Some, string_bytes};
ghost use Rattle.wshown.specs.Shown.{MayPoint};
ghost use Rattle.wspots.specs.Selects.{PointsAtSpot, TellsBreach};

use crate::names::{Spot, find_name};
use std::alloc::{AllocError, Global};
use wgrammar::{Stop, follow};
use wlexer::{Keyword, Lexeme, Token};
use wparser::{ParseFault, parse};
use wrules::Rule;
use wsegment::Schema;
use wshown::push_place;

// Whether no query has this keyword, as what it stands for elsewhere in SQL is no part of the language.
fn is_unused(keyword: Keyword) -> bool {
    matches!(
        keyword,
        Keyword::All
            | Keyword::Case
            | Keyword::Cast
            | Keyword::Cross
            | Keyword::Distinct
            | Keyword::Except
            | Keyword::Exists
            | Keyword::False
            | Keyword::Fetch
            | Keyword::For
            | Keyword::Full
            | Keyword::Inner
            | Keyword::Intersect
            | Keyword::Join
            | Keyword::Left
            | Keyword::Like
            | Keyword::Natural
            | Keyword::On
            | Keyword::Outer
            | Keyword::Right
            | Keyword::True
            | Keyword::Union
            | Keyword::Using
            | Keyword::With
    )
}

// What is told of a token that cannot stand where it does.
fn note_of(token: &Token) -> &'static str {
    match &token.lexeme {
        Lexeme::Keyword(keyword) if is_unused(*keyword) => {
            "no query has this word: as a name it stands in double quotes"
        }
        Lexeme::Keyword(_) => "a keyword: as a name it stands in double quotes",
        _ => "",
    }
}

// Where the last token ends.
fn end_of(tokens: &[Token]) -> usize {
    match tokens.last() {
        Some(token) => token.to,
        None => 0,
    }
}

// Adds the place of a token, or the end.
fn push_token(
    alloc: Global,
    text: &mut String,
    query: &[u8],
    tokens: &[Token],
    number: usize,
) -> Result<(), AllocError>
    ensures { OnOk result (MayPoint query.now (string_bytes text.old) (string_bytes text.new)) }
{
    match tokens.get(number) {
        Some(token) => push_place(alloc, text, query, token.from, note_of(token)),
        None => push_place(alloc, text, query, end_of(tokens), "the query ends here"),
    }
}

/// Adds the first token of a query behind which no query goes on, if there is one: its line with a caret below it.
pub fn push_stop(
    alloc: Global,
    text: &mut String,
    query: &[u8],
    tokens: &[Token],
) -> Result<(), AllocError>
    ensures { OnOk result (MayPoint query.now (string_bytes text.old) (string_bytes text.new)) }
{
    let followed = follow(alloc, tokens)?;
    match followed.stop {
        Stop::Nowhere => Ok(()),
        Stop::At(number) => push_token(alloc, text, query, tokens, number),
        Stop::TooDeep(number) => match tokens.get(number) {
            Some(token) => push_place(alloc, text, query, token.from, "nested over 64 deep"),
            None => Ok(()),
        },
    }
}

// Adds the place of a name that breaks a rule.
fn push_spot(
    alloc: Global,
    text: &mut String,
    query: &[u8],
    tokens: &[Token],
    spot: &Spot,
) -> Result<(), AllocError>
    ensures { OnOk result (PointsAtSpot query.now tokens.now (Some spot.now) (string_bytes text.old) (string_bytes text.new)) }
{
    match tokens.get(spot.token) {
        Some(token) => push_place(alloc, text, query, token.from, spot.note.as_str()),
        None => Ok(()),
    }
}

// Adds the place that is found in a query, if one is.
fn push_found(
    alloc: Global,
    text: &mut String,
    query: &[u8],
    tokens: &[Token],
    found: &Option<Spot>,
) -> Result<(), AllocError>
    ensures { OnOk result (PointsAtSpot query.now tokens.now found.now (string_bytes text.old) (string_bytes text.new)) }
{
    match found {
        Some(spot) => push_spot(alloc, text, query, tokens, spot),
        None => Ok(()),
    }
}

/// Adds where a query breaks this rule, where a name tells it: its line with a caret below the name, and what is meant there.
pub fn push_breach(
    alloc: Global,
    text: &mut String,
    schema: &Schema,
    query: &[u8],
    tokens: &[Token],
    rule: Rule,
) -> Result<(), AllocError>
    ensures place { OnOk result (MayPoint query.now (string_bytes text.old) (string_bytes text.new)) }
    ensures told { OnOk result (TellsBreach schema.now query.now tokens.now rule (string_bytes text.old) (string_bytes text.new)) }
{
    let parsed = match parse(alloc, tokens) {
        Ok(parsed) => parsed,
        Err(ParseFault::Syntax) => return Ok(()),
        Err(ParseFault::NoMemory) => return Err(AllocError),
    };
    let found = find_name(alloc, schema, tokens, &parsed, rule)?;
    push_found(alloc, text, query, tokens, &found)
}
