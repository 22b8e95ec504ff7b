//! What is wrong in a declaration, and in a name.
ghost use Rattle.std.specs.Prelude.{IfOk, string_bytes};
ghost use Rattle.wshown.specs.Shown.{BeginsWith};
ghost use Rattle.wsentences.specs.Labels.{name_label, table_label};

use crate::lines::{explained, push_file};
use crate::sentences::{name_sentence, table_sentence};
use std::alloc::{AllocError, Global};
use std::collections::BTreeSet;
use wlines::split_word;
use wsegment::SchemaFault;
use wshown::{push_number, push_value};
use wvalues::NameFault;

/// The most bytes of a declaration.
const MOST_BYTES: usize = 65_536;

/// The most bytes of a name.
const LONGEST_NAME: usize = 63;

fn is_name_byte(byte: u8) -> bool {
    byte.is_ascii_lowercase() || byte.is_ascii_digit() || byte == b'_'
}

// Whether a word is the name of a table or a column.
fn is_name(word: &[u8]) -> bool {
    word.first().is_some_and(|first| !first.is_ascii_digit())
        && word.len() <= LONGEST_NAME
        && word.iter().all(|byte| is_name_byte(*byte))
}

// Whether a line declares the table.
fn is_table_line(line: &[u8]) -> bool {
    match line.strip_prefix(b"table ") {
        Some(name) => is_name(name),
        None => false,
    }
}

// Whether a word says what a column holds.
fn is_kind(word: &[u8]) -> bool {
    matches!(word, b"integer" | b"text")
}

// Whether a line declares a column.
fn is_column_line(line: &[u8]) -> bool {
    match split_word(line) {
        Some((name, kind)) => is_name(name) && is_kind(kind),
        None => false,
    }
}

// Whether the line of this number, from 1, is one that may stand there.
fn is_right(number: u64, line: &[u8]) -> bool {
    if number == 1 {
        return is_table_line(line);
    }
    is_column_line(line)
}

// Adds a line of a declaration.
fn push_numbered(
    alloc: Global,
    text: &mut String,
    number: u64,
    line: &[u8],
) -> Result<(), AllocError> {
    text.push_str("line ")?;
    push_number(text, number)?;
    text.push_str(" is ")?;
    push_value(alloc, text, line)
}

// Adds the first line that is none of a declaration.
fn push_wrong_line(alloc: Global, text: &mut String, bytes: &[u8]) -> Result<(), AllocError> {
    let mut number = 0u64;
    for line in bytes.split(|byte| *byte == b'\n') {
        number = number.saturating_add(1);
        if !is_right(number, line) {
            return push_numbered(alloc, text, number, line);
        }
    }
    text.push_str("the last line has no line end")
}

// Adds why the form of a declaration is another one.
fn push_form(alloc: Global, text: &mut String, bytes: &[u8]) -> Result<(), AllocError> {
    if bytes.len() > MOST_BYTES {
        return text.push_str("it has more than 65536 bytes");
    }
    push_wrong_line(alloc, text, bytes)
}

// The name of the column that a line declares.
fn column_of(line: &[u8]) -> &[u8] {
    match split_word(line) {
        Some((name, _)) => name,
        None => line,
    }
}

// Adds the first line whose column has the name of one before it.
fn push_repeated(alloc: Global, text: &mut String, bytes: &[u8]) -> Result<(), AllocError> {
    let mut names = BTreeSet::new(alloc);
    let mut number = 1u64;
    for line in bytes.split(|byte| *byte == b'\n').skip(1) {
        number = number.saturating_add(1);
        if !names.insert(column_of(line))? {
            return push_numbered(alloc, text, number, line);
        }
    }
    Ok(())
}

// Adds how many columns are declared.
fn push_count(text: &mut String, bytes: &[u8]) -> Result<(), AllocError> {
    let lines = bytes.iter().filter(|byte| **byte == b'\n').count();
    text.push_str("it has ")?;
    push_number(text, lines.saturating_sub(1) as u64)?;
    text.push_str(" columns")
}

// Adds where a declaration has this fault, and what stands there.
fn push_declaration_place(
    alloc: Global,
    text: &mut String,
    bytes: &[u8],
    fault: SchemaFault,
) -> Result<(), AllocError> {
    match fault {
        SchemaFault::Syntax => push_form(alloc, text, bytes),
        SchemaFault::RepeatedColumn => push_repeated(alloc, text, bytes),
        SchemaFault::ColumnCount => push_count(text, bytes),
        SchemaFault::NoMemory => Ok(()),
    }
}

/// Why a declaration is refused: the sentence of the fault, and a line with what the bytes are called and the line that is
/// wrong.
pub fn explain_declaration(
    alloc: Global,
    file: &str,
    bytes: &[u8],
    fault: SchemaFault,
) -> Result<String, AllocError>
    ensures { IfOk result (λ text. BeginsWith (table_label fault) (string_bytes text)) }
{
    let mut place = String::new(alloc);
    push_declaration_place(alloc, &mut place, bytes, fault)?;
    let mut below = String::new(alloc);
    push_file(&mut below, file, place.as_str())?;
    explained(alloc, table_sentence(fault), below.as_str())
}

/// Why two words are no name: the sentence of the fault, and the word.
pub fn explain_name(
    alloc: Global,
    origin: &[u8],
    number: &[u8],
    fault: NameFault,
) -> Result<String, AllocError>
    ensures { IfOk result (λ text. BeginsWith (name_label fault) (string_bytes text)) }
{
    let mut below = String::new(alloc);
    match fault {
        NameFault::BadOrigin => push_value(alloc, &mut below, origin)?,
        NameFault::BadNumber => push_value(alloc, &mut below, number)?,
    }
    below.push('\n')?;
    explained(alloc, name_sentence(fault), below.as_str())
}
