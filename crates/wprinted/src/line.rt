//! Lines that are written from their last byte to their first, in room that is there already.
ghost use Rattle.std.specs.Prelude.{◌≡◌, ◌⊎◌, ◌≤◌, ◌^◌, ◌++◌, ◌∷◌, IfNone, IfSome, drop, if◌then◌else◌, length, map, unsigned_abs};
ghost use Rattle.std.specs.Fmt.{decimal, signed_decimal};
ghost use Rattle.wvalues.specs.Meaning.{Null, meaning};
ghost use Rattle.wcolumns.specs.Columns.{field_seen};
ghost use Rattle.wprinted.specs.Beside.{values_of};
ghost use Rattle.wprinted.specs.Printing.{comma, doubled, field_text, line_text, quoted, text_field, values_at};

use crate::field::needs_quotes;
use crate::row::{Row, field_at};
use itoa::write_digits;
use wcolumns::Field;
use wvalues::Value;

/// The most digits of a number of 64 bits.
const DIGITS: usize = 20;

// Writes a number so that it ends before a place, and answers where it begins. None where at most 20 bytes are before the place,
// however few it takes, or it has more than 64 bits, and nowhere else.
#[inline(always)]
fn write_number(number: i128, line: &mut [u8], end: usize) -> Option<usize>
    requires { end ≤ length line.old }
    ensures none { IfNone result ((end ≤ 20) ⊎ (2 ^ 64 ≤ unsigned_abs number)) }
    ensures written { IfSome result (λ start. drop start line.new ≡ signed_decimal number ++ drop end line.old) }
    ensures within { IfSome result (λ start. start ≤ end) }
    ensures room { length line.new ≡ length line.old }
    ensures kept { IfNone result (drop end line.new ≡ drop end line.old) }
{
    let size = number.unsigned_abs();
    if end <= DIGITS || size > u64::MAX as u128 {
        return None;
    }
    let start = write_digits(size as u64, line, end);
    if number >= 0 {
        return Some(start);
    }
    line[start - 1] = b'-';
    Some(start - 1)
}

// Writes a count so that it ends before a place, and answers where it begins. None only where at most 20 bytes are before the place.
#[inline(always)]
fn write_count(count: u32, line: &mut [u8], end: usize) -> Option<usize>
    requires { end ≤ length line.old }
    ensures none { IfNone result (end ≤ 20) }
    ensures written { IfSome result (λ start. drop start line.new ≡ decimal count ++ drop end line.old) }
    ensures within { IfSome result (λ start. start ≤ end) }
    ensures room { length line.new ≡ length line.old }
    ensures kept { IfNone result (drop end line.new ≡ drop end line.old) }
{
    if end <= DIGITS {
        return None;
    }
    Some(write_digits(count as u64, line, end))
}

// Writes a byte before a place, and answers where it stands. None only where nothing is before the place.
#[inline(always)]
fn write_byte(byte: u8, line: &mut [u8], end: usize) -> Option<usize>
    requires { end ≤ length line.old }
    ensures none { IfNone result (end ≡ 0) }
    ensures written { IfSome result (λ start. drop start line.new ≡ byte ∷ drop end line.old) }
    ensures within { IfSome result (λ start. start ≤ end) }
    ensures room { length line.new ≡ length line.old }
    ensures kept { IfNone result (drop end line.new ≡ drop end line.old) }
{
    if end == 0 {
        return None;
    }
    line[end - 1] = byte;
    Some(end - 1)
}

// Writes a byte of a text in quotes before a place, twice where it is a quote, and answers where it begins, if it can.
fn write_doubled(byte: u8, line: &mut [u8], end: usize) -> Option<usize>
    requires { end ≤ length line.old }
    ensures written { IfSome result (λ start. drop start line.new ≡ doubled byte ++ drop end line.old) }
    ensures within { IfSome result (λ start. start ≤ end) }
    ensures room { length line.new ≡ length line.old }
    ensures kept { IfNone result (drop end line.new ≡ drop end line.old) }
{
    let start = write_byte(byte, line, end)?;
    if byte == b'"' {
        return write_byte(byte, line, start);
    }
    Some(start)
}

// Writes a text in quotes so that it ends before a place, and answers where it begins, if it can.
fn write_quoted(text: &[u8], line: &mut [u8], end: usize) -> Option<usize>
    requires { end ≤ length line.old }
    ensures written { IfSome result (λ start. drop start line.new ≡ quoted text.now ++ drop end line.old) }
    ensures within { IfSome result (λ start. start ≤ end) }
    ensures room { length line.new ≡ length line.old }
    ensures kept { IfNone result (drop end line.new ≡ drop end line.old) }
{
    let mut at = write_byte(b'"', line, end)?;
    let mut left = text.len();
    while left > 0 {
        left -= 1;
        at = write_doubled(text[left], line, at)?;
    }
    write_byte(b'"', line, at)
}

// Writes a text so that it ends before a place, and answers where it begins, if it can.
#[inline(always)]
fn write_text(text: &[u8], line: &mut [u8], end: usize) -> Option<usize>
    requires { end ≤ length line.old }
    ensures written { IfSome result (λ start. drop start line.new ≡ text_field text.now ++ drop end line.old) }
    ensures within { IfSome result (λ start. start ≤ end) }
    ensures room { length line.new ≡ length line.old }
    ensures kept { IfNone result (drop end line.new ≡ drop end line.old) }
{
    if needs_quotes(text) {
        return write_quoted(text, line, end);
    }
    if text.len() > end {
        return None;
    }
    let start = end - text.len();
    line[start..end].copy_from_slice(text);
    Some(start)
}

// Writes a value so that it ends before a place, and answers where it begins, if it can.
#[inline(always)]
fn write_value(value: &Value, line: &mut [u8], end: usize) -> Option<usize>
    requires { end ≤ length line.old }
    ensures written { IfSome result (λ start. drop start line.new ≡ field_text (meaning value.now) ++ drop end line.old) }
    ensures within { IfSome result (λ start. start ≤ end) }
    ensures room { length line.new ≡ length line.old }
    ensures kept { IfNone result (drop end line.new ≡ drop end line.old) }
{
    match value {
        Value::Null => Some(end),
        Value::Int(number) => write_number(number.get(), line, end),
        Value::Short(text) => write_text(text.as_str().as_bytes(), line, end),
        Value::Shared(text) => write_text(text.as_str().as_bytes(), line, end),
    }
}

// Writes the text of a field so that it ends before a place, and answers where it begins, if it can.
#[inline(always)]
fn write_field_text(field: Field<'_>, line: &mut [u8], end: usize) -> Option<usize>
    requires { end ≤ length line.old }
    ensures written { IfSome result (λ start. drop start line.new ≡ field_text (field_seen field.entry) ++ drop end line.old) }
    ensures within { IfSome result (λ start. start ≤ end) }
    ensures room { length line.new ≡ length line.old }
    ensures kept { IfNone result (drop end line.new ≡ drop end line.old) }
{
    match field {
        Field::Value(value) => write_value(value, line, end),
        Field::Count(count) => write_count(count, line, end),
    }
}

// Writes the comma behind a field before a place, where the field is not the last one, and answers where it stands, if it can.
#[inline(always)]
fn write_comma(is_last: bool, line: &mut [u8], end: usize) -> Option<usize>
    requires { end ≤ length line.old }
    ensures written { IfSome result (λ start. drop start line.new
        ≡ (if is_last then drop end line.old else (comma ∷ drop end line.old))) }
    ensures within { IfSome result (λ start. start ≤ end) }
    ensures room { length line.new ≡ length line.old }
    ensures kept { IfNone result (drop end line.new ≡ drop end line.old) }
{
    if is_last {
        return Some(end);
    }
    write_byte(b',', line, end)
}

// Writes a field before a line that begins at a place, with a comma between where the line has a field already.
#[inline(always)]
fn write_field(field: Field<'_>, is_last: bool, line: &mut [u8], end: usize) -> Option<usize>
    requires { end ≤ length line.old }
    ensures written { IfSome result (λ start. drop start line.new ≡ field_text (field_seen field.entry)
        ++ (if is_last then drop end line.old else (comma ∷ drop end line.old))) }
    ensures within { IfSome result (λ start. start ≤ end) }
    ensures room { length line.new ≡ length line.old }
    ensures kept { IfNone result (drop end line.new ≡ drop end line.old) }
{
    let behind = write_comma(is_last, line, end)?;
    write_field_text(field, line, behind)
}

/// Writes the line of a row's values at some places before a place, and answers where it begins. None where it has no room, or has
/// a number of more than 64 bits; what stands behind the place is kept then.
#[inline(always)]
pub(crate) fn write_line(
    row: &Row,
    null: &Value,
    places: &[usize],
    line: &mut [u8],
    end: usize,
) -> Option<usize>
    requires null { meaning null.now ≡ Null }
    requires within { end ≤ length line.old }
    ensures written { IfSome result (λ start. drop start line.new
        ≡ line_text (map field_text (values_at places.now (values_of row.now))) ++ drop end line.old) }
    ensures within { IfSome result (λ start. start ≤ end) }
    ensures room { length line.new ≡ length line.old }
    ensures kept { IfNone result (drop end line.new ≡ drop end line.old) }
{
    let mut at = write_byte(b'\n', line, end)?;
    let mut left = places.len();
    while left > 0 {
        let is_last = left == places.len();
        left -= 1;
        at = write_field(field_at(&*row, null, places[left]), is_last, line, at)?;
    }
    Some(at)
}
