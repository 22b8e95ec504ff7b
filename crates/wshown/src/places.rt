//! A place in a query, below its line.
ghost use Rattle.std.specs.Prelude.{◌≡◌, ◌≤◌, ◌++◌, OnOk, chars, drop, length, replicate, string_bytes, take};
ghost use Rattle.std.specs.List.{before_first, position};
ghost use Rattle.wshown.specs.Shown.{PointsAt, PointsInto, caret_line, is_line_end, line_character, line_characters};
ghost use Rattle.wshown.specs.Shown.{line_start, shown_line};

use crate::values::{MOST_SHOWN, push_character};
use std::alloc::{AllocError, Global};

/// The most characters of a line that stand before a caret.
const SHOWN_BEFORE: usize = 30;

// Whether a byte ends a line.
fn is_line_end(byte: u8) -> bool
    ensures { result ≡ is_line_end byte }
{
    byte == b'\n' || byte == b'\r'
}

// Where the line of a place begins.
fn line_start(query: &[u8], place: usize) -> usize
    ensures bound { result ≤ length query.now }
    ensures start { result ≡ line_start (take place query.now) }
{
    let mut start = place.min(query.len());
    'bytes: while start > 0 {
        if is_line_end(query[start - 1]) {
            return start;
        }
        start -= 1;
    }
    0
}

// The place of the first byte that ends a line.
fn line_end(bytes: &[u8]) -> Option<usize>
    ensures { result ≡ position is_line_end bytes.now }
{
    bytes.iter().position(|byte| is_line_end(*byte))
}

// The bytes up to the first that ends a line.
fn to_line_end(bytes: &[u8]) -> &[u8]
    ensures { result.now ≡ before_first is_line_end bytes.now }
{
    match line_end(bytes) {
        Some(end) => &bytes[..end],
        None => bytes,
    }
}

// Adds a character of a query's line: a blank is a space.
fn push_of_line(text: &mut String, c: char) -> Result<(), AllocError>
    ensures { OnOk result (string_bytes text.new ≡ string_bytes text.old ++ line_character c) }
{
    if c == '\t' || c == '\u{c}' {
        return text.push(' ');
    }
    push_character(text, c)
}

// How many characters begin before a byte of a line.
fn characters_before(line: &str, byte: usize) -> usize {
    let mut count = 0;
    'characters: for (i, _) in line.char_indices() {
        if i >= byte {
            return count;
        }
        count = count.saturating_add(1);
    }
    count
}

// Adds the characters of a line from one on, as many as are shown.
fn push_characters(text: &mut String, line: &str, left_out: usize) -> Result<(), AllocError>
    ensures { OnOk result (string_bytes text.new ≡ string_bytes text.old ++ line_characters 60 (drop left_out (chars line.now))) }
{
    let mut before = left_out;
    let mut left = MOST_SHOWN;
    'characters: for c in line.chars() {
        if before > 0 {
            before -= 1;
            continue;
        }
        if left == 0 {
            return text.push_str("..");
        }
        push_of_line(text, c)?;
        left -= 1;
    }
    Ok(())
}

// Adds a line without its first characters.
fn push_window(text: &mut String, line: &str, left_out: usize) -> Result<(), AllocError>
    ensures { OnOk result (string_bytes text.new ≡ string_bytes text.old ++ shown_line left_out line.now) }
{
    if left_out == 0 {
        return push_characters(text, line, 0);
    }
    text.push_str("..")?;
    push_characters(text, line, left_out)
}

// How wide the characters of a line are from one on and before another, as they are shown.
fn width_between(
    alloc: Global,
    line: &str,
    left_out: usize,
    before: usize,
) -> Result<usize, AllocError> {
    let mut shown = String::new(alloc);
    let count = before.saturating_sub(left_out);
    'characters: for c in line.chars().skip(left_out).take(count) {
        push_of_line(&mut shown, c)?;
    }
    let width = shown.as_str().chars().count();
    if left_out > 0 {
        return Ok(width.saturating_add(2));
    }
    Ok(width)
}

// Adds spaces.
fn push_spaces(text: &mut String, count: usize) -> Result<(), AllocError>
    ensures { OnOk result (string_bytes text.new ≡ string_bytes text.old ++ replicate count 32) }
{
    'spaces: for _ in 0..count {
        text.push(' ')?;
    }
    Ok(())
}

// Adds a caret, with a note behind it.
fn push_caret(text: &mut String, note: &str) -> Result<(), AllocError>
    ensures { OnOk result (string_bytes text.new ≡ string_bytes text.old ++ caret_line note.now) }
{
    if note.is_empty() {
        return text.push_str("^\n");
    }
    text.push_str("^ ")?;
    text.push_str(note)?;
    text.push('\n')
}

// Adds a line, and below it a caret at one of its bytes, with a note behind.
fn push_line(
    alloc: Global,
    text: &mut String,
    line: &str,
    byte: usize,
    note: &str,
) -> Result<(), AllocError>
    ensures { OnOk result (PointsInto line.now note.now (string_bytes text.old) (string_bytes text.new)) }
{
    let before = characters_before(line, byte);
    let left_out = before.saturating_sub(SHOWN_BEFORE);
    push_window(text, line, left_out)?;
    text.push('\n')?;
    let width = width_between(alloc, line, left_out, before)?;
    push_spaces(text, width)?;
    push_caret(text, note)
}

/// Adds the line of a query in which a place stands, and below it a caret with a note behind. A place counts bytes from 0.
pub fn push_place(
    alloc: Global,
    text: &mut String,
    query: &[u8],
    place: usize,
    note: &str,
) -> Result<(), AllocError>
    ensures { OnOk result (PointsAt query.now place note.now (string_bytes text.old) (string_bytes text.new)) }
{
    let start = line_start(query, place);
    match str::from_utf8(to_line_end(&query[start..])) {
        Ok(line) => push_line(alloc, text, line, place.saturating_sub(start), note),
        Err(_) => Ok(()),
    }
}
