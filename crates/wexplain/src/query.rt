//! What is wrong in a query.
ghost use Rattle.std.specs.Prelude.{IfOk, string_bytes};
ghost use Rattle.wshown.specs.Shown.{BeginsWith};
ghost use Rattle.wsentences.specs.Labels.{query_label};

use std::alloc::{AllocError, Global};
use wlexer::lex;
use wplanner::AskFault;
use wsegment::Schema;
use wsentences::{explained, push_length, query_sentence};
use wshown::{push_number, push_place};
use wspots::{push_breach, push_stop};

// Adds where the tokens of a query have this fault.
fn push_in_tokens(
    alloc: Global,
    text: &mut String,
    schema: &Schema,
    query: &[u8],
    fault: AskFault,
) -> Result<(), AllocError> {
    let Ok(tokens) = lex(alloc, query) else {
        return Ok(());
    };
    match fault {
        AskFault::Syntax => push_stop(alloc, text, query, tokens.as_slice()),
        AskFault::Broken(rule) => push_breach(alloc, text, schema, query, tokens.as_slice(), rule),
        _ => Ok(()),
    }
}

// Adds the length of a query.
fn push_query_length(text: &mut String, query: &[u8]) -> Result<(), AllocError> {
    push_length(text, query)?;
    text.push('\n')
}

// Adds the first byte that is not UTF-8.
fn push_first_wrong_byte(text: &mut String, query: &[u8]) -> Result<(), AllocError> {
    let Err(error) = str::from_utf8(query) else {
        return Ok(());
    };
    text.push_str("at byte ")?;
    push_number(text, error.valid_up_to() as u64)?;
    text.push('\n')
}

// What a token has to be that begins with this byte, and is none.
fn token_note(first: u8) -> &'static str {
    match first {
        b'\'' => "the text has no end",
        b'"' => "a name in quotes has 1 to 63 bytes and an end",
        b'0'..=b'9' => "a number is digits alone, below 2^95",
        b'a'..=b'z' | b'A'..=b'Z' | b'_' => "a name has at most 63 bytes",
        0x80.. => "a character beyond ASCII stands in quotes",
        _ => "",
    }
}

// Adds the place at which a query has no token, and why it has none.
fn push_no_token(
    alloc: Global,
    text: &mut String,
    query: &[u8],
    place: usize,
) -> Result<(), AllocError> {
    let note = match query.get(place) {
        Some(first) => token_note(*first),
        None => "",
    };
    push_place(alloc, text, query, place, note)
}

// Adds where a query has this fault.
fn push_query_place(
    alloc: Global,
    text: &mut String,
    schema: &Schema,
    query: &[u8],
    fault: AskFault,
) -> Result<(), AllocError> {
    match fault {
        AskFault::TooLong => push_query_length(text, query),
        AskFault::NotUtf8 => push_first_wrong_byte(text, query),
        AskFault::At { place } => push_no_token(alloc, text, query, place),
        _ => push_in_tokens(alloc, text, schema, query, fault),
    }
}

/// Why a query is refused by the table: the sentence of the fault, and where it has a place, the line of the query and a
/// caret below it.
pub(crate) fn explain_query(
    alloc: Global,
    schema: &Schema,
    query: &[u8],
    fault: AskFault,
) -> Result<String, AllocError>
    ensures { IfOk result (λ text. BeginsWith (query_label fault) (string_bytes text)) }
{
    let mut below = String::new(alloc);
    push_query_place(alloc, &mut below, schema, query, fault)?;
    explained(alloc, query_sentence(fault), below.as_str())
}
