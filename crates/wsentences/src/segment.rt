//! What is wrong in a segment.
ghost use Rattle.std.specs.Prelude.{◌≡◌, ◌++◌, Contains, IfOk, IfSome, OnOk, string_bytes};
ghost use Rattle.wshown.specs.Shown.{BeginsWith};
ghost use Rattle.wsentences.specs.Explanations.{AddsHeaderField, AddsLengths, AddsMissing, AddsRow, AddsSegmentPlace, length_text};
ghost use Rattle.wsentences.specs.Labels.{segment_label};

use crate::lines::{explained, push_file};
use crate::sentences::segment_sentence;
use csv::{ByteRecord, Reader, ReaderBuilder};
use std::alloc::{AllocError, Global};
use wsegment::{Column, Kind, Schema, SegmentFault};
use wshown::{push_bytes, push_number, push_value};

// Takes the next record, and says whether there was one.
fn take_record(reader: &mut Reader<&[u8]>, record: &mut ByteRecord) -> bool {
    match reader.read_byte_record(record) {
        Ok(found) => found,
        Err(_) => false,
    }
}

// Takes a row below the header, by its number from 1.
fn take_row(reader: &mut Reader<&[u8]>, record: &mut ByteRecord, row: u32) -> bool {
    for _ in 0..row {
        if !take_record(reader, record) {
            return false;
        }
    }
    true
}

// Whether a field of the header stands in it before.
fn is_repeated(header: &ByteRecord, place: usize) -> bool {
    let Some(field) = header.get(place) else {
        return false;
    };
    (0..place).any(|earlier| header.get(earlier) == Some(field))
}

// Whether the table has a column that a field names.
fn is_column(schema: &Schema, field: &[u8]) -> bool {
    match str::from_utf8(field) {
        Ok(name) => schema.find(name).is_some(),
        Err(_) => true,
    }
}

// Whether a field of the header is the one of a fault.
fn is_wrong_name(schema: &Schema, header: &ByteRecord, place: usize, fault: SegmentFault) -> bool {
    let Some(field) = header.get(place) else {
        return false;
    };
    match fault {
        SegmentFault::HeaderNotUtf8 => str::from_utf8(field).is_err(),
        SegmentFault::UnknownColumn => !is_column(schema, field),
        SegmentFault::RepeatedColumn => is_repeated(header, place),
        _ => false,
    }
}

// The header of a segment, if it has one.
fn find_header(alloc: Global, bytes: &[u8]) -> Option<ByteRecord> {
    let mut reader = reader_of(alloc, bytes);
    let mut header = ByteRecord::new(alloc);
    if !take_record(&mut reader, &mut header) {
        return None;
    }
    Some(header)
}

// The place of the field of a header that is the one of a fault.
fn wrong_name(schema: &Schema, header: &ByteRecord, fault: SegmentFault) -> Option<usize> {
    for place in 0..header.len() {
        if is_wrong_name(schema, header, place, fault) {
            return Some(place);
        }
    }
    None
}

// Adds the field of the header that is the one of a fault.
fn push_header_field(
    alloc: Global,
    text: &mut String,
    schema: &Schema,
    bytes: &[u8],
    fault: SegmentFault,
) -> Result<(), AllocError>
    ensures { OnOk result (AddsHeaderField (string_bytes text.old) (string_bytes text.new)) }
{
    let Some(header) = find_header(alloc, bytes) else {
        return Ok(());
    };
    let Some(place) = wrong_name(schema, &header, fault) else {
        return Ok(());
    };
    text.push_str("field ")?;
    push_number(text, (place as u64).saturating_add(1))?;
    text.push_str(" of the header is ")?;
    push_value(alloc, text, field_at(&header, place))
}

// Whether the header names a column.
fn is_named(header: &ByteRecord, name: &str) -> bool {
    (0..header.len()).any(|place| header.get(place) == Some(name.as_bytes()))
}

// The first column that a header lacks.
fn missing_column<'s>(schema: &'s Schema, header: &ByteRecord) -> Option<&'s Column>
    ensures { IfSome result (λ column. Contains schema.now.columns column.now) }
{
    for column in schema.columns() {
        if !is_named(header, column.name()) {
            return Some(column);
        }
    }
    None
}

// Adds the first column that the header lacks.
fn push_missing(
    alloc: Global,
    text: &mut String,
    schema: &Schema,
    bytes: &[u8],
) -> Result<(), AllocError>
    ensures { OnOk result (AddsMissing schema.now.columns (string_bytes text.old) (string_bytes text.new)) }
{
    let Some(header) = find_header(alloc, bytes) else {
        return Ok(());
    };
    let Some(column) = missing_column(schema, &header) else {
        return Ok(());
    };
    text.push_str("there is no column ")?;
    text.push_str(column.name())
}

// Whether a column that the header names holds integers.
fn holds_integers(schema: &Schema, name: &[u8]) -> bool {
    let Ok(name) = str::from_utf8(name) else {
        return false;
    };
    for column in schema.columns() {
        if column.name() == name {
            return column.kind() == Kind::Integer;
        }
    }
    false
}

// Whether a field is an integer of 64 bits, or null.
fn is_integer(field: &[u8]) -> bool {
    match str::from_utf8(field) {
        Ok(text) => text.is_empty() || text.parse::<i64>().is_ok(),
        Err(_) => false,
    }
}

// Whether a field under a name of the header is the one of a fault.
fn is_wrong_field(schema: &Schema, name: &[u8], field: &[u8], fault: SegmentFault) -> bool {
    match fault {
        SegmentFault::RowNotUtf8 { .. } => str::from_utf8(field).is_err(),
        SegmentFault::NotInteger { .. } => holds_integers(schema, name) && !is_integer(field),
        _ => false,
    }
}

// The field of a record at a place, empty where there is none.
fn field_at(record: &ByteRecord, place: usize) -> &[u8] {
    match record.get(place) {
        Some(field) => field,
        None => b"",
    }
}

// A row below the header, and the header.
#[derive(Drop)]
struct Row {
    header: ByteRecord,
    record: ByteRecord,
}

// The row of a number from 1, if there is one.
fn find_row(alloc: Global, bytes: &[u8], row: u32) -> Option<Row> {
    let mut reader = reader_of(alloc, bytes);
    let mut header = ByteRecord::new(alloc);
    let mut record = ByteRecord::new(alloc);
    let is_there = take_record(&mut reader, &mut header);
    if !is_there || !take_row(&mut reader, &mut record, row) {
        return None;
    }
    Some(Row { header, record })
}

// The place of the field of a row that is the one of a fault.
fn wrong_place(schema: &Schema, row: &Row, fault: SegmentFault) -> Option<usize> {
    for place in 0..row.record.len() {
        let name = field_at(&row.header, place);
        let field = field_at(&row.record, place);
        if is_wrong_field(schema, name, field, fault) {
            return Some(place);
        }
    }
    None
}

// Adds a row, and the field of it that is the one of a fault.
fn push_row(
    alloc: Global,
    text: &mut String,
    schema: &Schema,
    bytes: &[u8],
    number: u32,
    fault: SegmentFault,
) -> Result<(), AllocError>
    ensures { OnOk result (AddsRow number (string_bytes text.old) (string_bytes text.new)) }
{
    let Some(row) = find_row(alloc, bytes, number) else {
        return Ok(());
    };
    text.push_str("row ")?;
    push_number(text, u64::from(number))?;
    let Some(place) = wrong_place(schema, &row, fault) else {
        return Ok(());
    };
    text.push_str(", column ")?;
    push_bytes(alloc, text, field_at(&row.header, place))?;
    text.push_str(": ")?;
    push_value(alloc, text, field_at(&row.record, place))
}

// Adds how many fields a row has, and how many the header.
fn push_lengths(
    alloc: Global,
    text: &mut String,
    bytes: &[u8],
    number: u32,
) -> Result<(), AllocError>
    ensures { OnOk result (AddsLengths number (string_bytes text.old) (string_bytes text.new)) }
{
    let Some(row) = find_row(alloc, bytes, number) else {
        return Ok(());
    };
    text.push_str("row ")?;
    push_number(text, u64::from(number))?;
    text.push_str(" has ")?;
    push_number(text, row.record.len() as u64)?;
    text.push_str(" fields, the header ")?;
    push_number(text, row.header.len() as u64)
}

// A reader of records of any lengths.
fn reader_of<'a>(alloc: Global, bytes: &'a [u8]) -> Reader<&'a [u8]> {
    ReaderBuilder::new()
        .has_headers(false)
        .flexible(true)
        .from_reader(alloc, bytes)
}

/// Adds where a segment has this fault, and what stands there, if that is found.
pub fn push_segment_place(
    alloc: Global,
    text: &mut String,
    schema: &Schema,
    bytes: &[u8],
    fault: SegmentFault,
) -> Result<(), AllocError>
    ensures { OnOk result (AddsSegmentPlace schema.now.columns fault (string_bytes text.old) (string_bytes text.new)) }
{
    match fault {
        SegmentFault::TooLong => Ok(()),
        SegmentFault::NoHeader => Ok(()),
        SegmentFault::TooManyRows => Ok(()),
        SegmentFault::NoMemory => Ok(()),
        SegmentFault::RowNotUtf8 { row } => push_row(alloc, text, schema, bytes, row, fault),
        SegmentFault::RowLength { row } => push_lengths(alloc, text, bytes, row),
        SegmentFault::NotInteger { row } => push_row(alloc, text, schema, bytes, row, fault),
        SegmentFault::MissingColumn => push_missing(alloc, text, schema, bytes),
        SegmentFault::HeaderNotUtf8 => push_header_field(alloc, text, schema, bytes, fault),
        SegmentFault::UnknownColumn => push_header_field(alloc, text, schema, bytes, fault),
        SegmentFault::RepeatedColumn => push_header_field(alloc, text, schema, bytes, fault),
    }
}

/// Adds how many bytes there are.
pub fn push_length(text: &mut String, bytes: &[u8]) -> Result<(), AllocError>
    ensures { OnOk result (string_bytes text.new ≡ string_bytes text.old ++ length_text bytes.now) }
{
    text.push_str("it has ")?;
    push_number(text, bytes.len() as u64)?;
    text.push_str(" bytes")
}

/// Why a segment of a table is refused: the sentence of the fault, and a line with what the bytes are called, the row, the
/// field and the value.
pub fn explain_segment(
    alloc: Global,
    file: &str,
    schema: &Schema,
    bytes: &[u8],
    fault: SegmentFault,
) -> Result<String, AllocError>
    ensures { IfOk result (λ text. BeginsWith (segment_label fault) (string_bytes text)) }
{
    let mut place = String::new(alloc);
    push_segment_place(alloc, &mut place, schema, bytes, fault)?;
    let mut below = String::new(alloc);
    push_file(&mut below, file, place.as_str())?;
    explained(alloc, segment_sentence(fault), below.as_str())
}
