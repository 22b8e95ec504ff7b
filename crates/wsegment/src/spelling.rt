//! The spelling of a declaration, read piece by piece.
ghost use Rattle.std.specs.Prelude.{◌≡◌, ◌<◌, ◌≤◌, ◌++◌, ℕ, List, length, true, false, IfNone, IfOk, IfSome, MatchOption};
ghost use Rattle.std.specs.List.{AllByRecursion, flat_map, list_all, prefix_len};
ghost use Rattle.std.specs.String.{string_bytes};
ghost use Rattle.wsegment.specs.Declaration.{Described, column_text, is_name, is_name_byte, kind_text, table_text};
ghost use Rattle.wsegment.specs.Spelling.{HasName, repeats_name};
ghost use Rattle.wsegment.specs.declared.kind.Kind.{Kind};

use crate::column::Column;
use crate::kind::Kind;
use std::alloc::{AllocError, Global};
use std::collections::BTreeSet;
use std::str;

/// The most bytes of a name.
const LONGEST_NAME: usize = 63;

fn name_byte(byte: u8) -> bool
    ensures { result ≡ is_name_byte byte }
{
    byte.is_ascii_lowercase() || byte.is_ascii_digit() || byte == b'_'
}

fn are_name_bytes(bytes: &[u8]) -> bool
    ensures { result ≡ list_all is_name_byte bytes.now }
{
    bytes.iter().all(|byte| name_byte(*byte))
}

fn is_too_long(bytes: &[u8]) -> bool
    ensures long { result ≡ true → 63 < length bytes.now }
    ensures short { result ≡ false → length bytes.now ≤ 63 }
{
    bytes.len() > LONGEST_NAME
}

fn is_name_text(bytes: &[u8]) -> bool
    ensures { result ≡ is_name bytes.now }
{
    if bytes.is_empty() {
        return false;
    }
    if is_too_long(bytes) {
        return false;
    }
    if bytes[0].is_ascii_digit() {
        return false;
    }
    are_name_bytes(bytes)
}

// What stands behind a front.
fn behind<'a>(bytes: &'a [u8], front: &[u8]) -> Option<&'a [u8]>
    ensures { MatchOption result ((rest : List ℕ) → bytes.now ≡ front.now ++ rest → ⊥) (λ rest. bytes.now ≡ front.now ++ rest.now) }
{
    bytes.strip_prefix(front)
}

// How many bytes of a name stand at the front.
fn word_len(bytes: &[u8]) -> usize
    ensures { result ≡ prefix_len is_name_byte bytes.now }
{
    bytes.iter().take_while(|byte| name_byte(**byte)).count()
}

// The kind at the front, and what stands behind it.
fn kind_at(bytes: &[u8]) -> Option<(Kind, &[u8])>
    ensures { MatchOption result ((kind : Kind) (rest : List ℕ) → bytes.now ≡ kind_text kind ++ rest
        → ⊥) (λ found. bytes.now ≡ kind_text found.0 ++ found.1.now) }
{
    if let Some(rest) = bytes.strip_prefix(b" integer\n") {
        return Some((Kind::Integer, rest));
    }
    match bytes.strip_prefix(b" text\n") {
        Some(rest) => Some((Kind::Text, rest)),
        None => None,
    }
}

// The name at the front, and what stands behind it, which is no byte of a name.
fn name_at(alloc: Global, bytes: &[u8]) -> Result<Option<(String, &[u8])>, AllocError>
    ensures none { IfOk result (λ o. IfNone o ((name rest : List ℕ) → is_name name ≡ true → prefix_len is_name_byte rest ≡ 0
        → bytes.now ≡ name ++ rest → ⊥)) }
    ensures found { IfOk result (λ o. IfSome o (λ found. (is_name (string_bytes found.0) ≡ true)
        × (prefix_len is_name_byte found.1.now ≡ 0) × (bytes.now ≡ string_bytes found.0 ++ found.1.now))) }
{
    let (word, rest) = bytes.split_at(word_len(bytes));
    if !is_name_text(word) {
        return Ok(None);
    }
    let Ok(text) = str::from_utf8(word) else {
        unreachable!()
    };
    let name = String::from_str(alloc, text)?;
    Ok(Some((name, rest)))
}

// The column at the front, and what stands behind it.
fn column_at(alloc: Global, bytes: &[u8]) -> Result<Option<(Column, &[u8])>, AllocError>
    ensures none { IfOk result (λ o. IfNone o ((column : Described) (rest : List ℕ) → HasName column
        → bytes.now ≡ column_text column ++ rest → ⊥)) }
    ensures found { IfOk result (λ o. IfSome o (λ found. HasName found.0 × (bytes.now ≡ column_text found.0 ++ found.1.now))) }
{
    let Some((name, rest)) = name_at(alloc, bytes)? else {
        return Ok(None);
    };
    let Some((kind, rest)) = kind_at(rest) else {
        return Ok(None);
    };
    Ok(Some((Column::new(name, kind), rest)))
}

/// The line of the table at the front, and what stands behind it.
pub(crate) fn table_at(alloc: Global, bytes: &[u8]) -> Result<Option<(String, &[u8])>, AllocError>
    ensures none { IfOk result (λ o. IfNone o ((table rest : List ℕ) → is_name table ≡ true → bytes.now ≡ table_text table ++ rest → ⊥)) }
    ensures found { IfOk result (λ o. IfSome o (λ found. (is_name (string_bytes found.0) ≡ true)
        × (bytes.now ≡ table_text (string_bytes found.0) ++ found.1.now))) }
{
    let Some(line) = behind(bytes, b"table ") else {
        return Ok(None);
    };
    let Some((table, end)) = name_at(alloc, line)? else {
        return Ok(None);
    };
    match behind(end, b"\n") {
        Some(rest) => Ok(Some((table, rest))),
        None => Ok(None),
    }
}

/// The columns that all these bytes spell.
pub(crate) fn columns_of(alloc: Global, bytes: &[u8]) -> Result<Option<Vec<Column>>, AllocError>
    ensures none { IfOk result (λ o. IfNone o ((columns : List Described) → AllByRecursion HasName columns
        → bytes.now ≡ flat_map column_text columns → ⊥)) }
    ensures found { IfOk result (λ o. IfSome o (λ v. AllByRecursion HasName v.items × (bytes.now ≡ flat_map column_text v.items))) }
{
    let mut columns = Vec::new(alloc);
    let mut rest = bytes;
    while !rest.is_empty() {
        let Some((column, after)) = column_at(alloc, rest)? else {
            return Ok(None);
        };
        columns.push(column)?;
        rest = after;
    }
    Ok(Some(columns))
}

/// Whether two columns have one name.
pub(crate) fn has_repeated(alloc: Global, columns: &[Column]) -> Result<bool, AllocError>
    ensures { IfOk result (λ repeated. repeated ≡ repeats_name columns.now) }
{
    let mut names = BTreeSet::new(alloc);
    for column in columns {
        if !names.insert(column.name())? {
            return Ok(true);
        }
    }
    Ok(false)
}
