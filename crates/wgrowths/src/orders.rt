//! The rows of a set in order, by one list of keys after another.

use crate::failure::Failure;
use std::alloc::{AllocError, Global};
use wreplies::Text;
use wruns::RowRef;
use wset::SegmentSet;
use wvalues::SortKey;

// The key that a word spells: the number of a column from 0, behind `-` where values fall and nulls stand first.
fn key_of(word: &str) -> Result<SortKey, Failure> {
    let falling = word.strip_prefix("-");
    let Ok(col) = falling.unwrap_or(word).parse::<usize>() else {
        return Err(Failure::Case);
    };
    Ok(SortKey {
        col,
        desc: falling.is_some(),
        nulls_first: falling.is_some(),
    })
}

// The keys that a line spells.
fn line_keys(alloc: Global, line: &str) -> Result<Vec<SortKey>, Failure> {
    let mut keys = Vec::new(alloc);
    for word in line.split_whitespace() {
        keys.push(key_of(word)?)?;
    }
    Ok(keys)
}

/// The lists of keys that a text spells, one a line.
pub fn lists_of(alloc: Global, text: &str) -> Result<Vec<Vec<SortKey>>, Failure> {
    let mut lists = Vec::new(alloc);
    for line in text.lines() {
        lists.push(line_keys(alloc, line)?)?;
    }
    Ok(lists)
}

// Adds a row on a line: the number of its segment, and its place there.
fn push_row(alloc: Global, text: &mut Vec<u8>, row: RowRef) -> Result<(), AllocError> {
    let line = format!(in alloc; "{} {}\n", row.segment, row.row)?;
    text.extend_from_slice(line.as_bytes())
}

// Adds each row on a line.
fn push_rows(alloc: Global, text: &mut Vec<u8>, rows: &[RowRef]) -> Result<(), AllocError> {
    for row in rows {
        push_row(alloc, text, *row)?;
    }
    Ok(())
}

// Adds the rows of a set in the order of these keys.
fn push_order(
    alloc: Global,
    text: &mut Vec<u8>,
    set: &mut SegmentSet,
    keys: &[SortKey],
) -> Result<(), AllocError> {
    let rows = set.ordered(keys)?;
    push_rows(alloc, text, &rows)
}

/// The rows of a set in the order of each list of keys, of which the first meets no run that is kept, and the fifth the runs of
/// four others.
pub fn orders_text(
    alloc: Global,
    set: &mut SegmentSet,
    lists: &[Vec<SortKey>],
) -> Result<Text, AllocError> {
    let mut text = Vec::new(alloc);
    for keys in lists {
        push_order(alloc, &mut text, set, keys)?;
    }
    Ok(Text::Made(text))
}
