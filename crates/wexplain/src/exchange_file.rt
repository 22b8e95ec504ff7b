//! What is wrong in an exchange file.
ghost use Rattle.std.specs.Prelude.{◌≡◌, ◌==◌, ◌++◌, ◌-◌, IfOk, OnOk, length, string_bytes};
ghost use Rattle.std.specs.List.{before_first, position};
ghost use Rattle.wshown.specs.Shown.{BeginsWith};
ghost use Rattle.wsentences.specs.Labels.{file_label};
ghost use Rattle.wexplain.specs.Places.{offset_text, name_text};

use crate::items::{Item, cut_item};
use std::alloc::{AllocError, Global};
use wexchange::FileFault;
use wrecords::Form;
use wsegment::{Schema, Segment};
use wsentences::{
    explained, file_sentence, push_file, push_length, push_segment_place, push_sentence,
    segment_sentence,
};
use wshown::{push_bytes, push_number, push_value};
use wvalues::Name;

/// The first line of version 1.
const OLD_HEAD: &[u8] = b"WSX1\n";

/// The first line of version 2.
const HEAD: &[u8] = b"WSX2\n";

// What stands behind the first line, which tells the version.
fn behind_head(bytes: &[u8]) -> Option<&[u8]> {
    if let Some(rest) = bytes.strip_prefix(HEAD) {
        return Some(rest);
    }
    bytes.strip_prefix(OLD_HEAD)
}

/// Adds a name.
pub(crate) fn push_name(alloc: Global, text: &mut String, name: &Name) -> Result<(), AllocError>
    ensures { OnOk result (string_bytes text.new ≡ string_bytes text.old ++ name_text name.now) }
{
    push_bytes(alloc, text, name.origin())?;
    text.push(' ')?;
    push_number(text, u64::from(name.number()))
}

// The place of the first line feed.
fn line_feed(bytes: &[u8]) -> Option<usize>
    ensures { result ≡ position (λ b. b == 10) bytes.now }
{
    bytes.iter().position(|byte| *byte == b'\n')
}

// The bytes up to the line feed.
fn first_line(bytes: &[u8]) -> &[u8]
    ensures { result.now ≡ before_first (λ b. b == 10) bytes.now }
{
    match line_feed(bytes) {
        Some(end) => &bytes[..end],
        None => bytes,
    }
}

/// Adds the offset `before` and the first line of `rest`, which stands there.
pub(crate) fn push_offset(
    alloc: Global,
    text: &mut String,
    before: u64,
    rest: &[u8],
) -> Result<(), AllocError>
    ensures { OnOk result (string_bytes text.new ≡ string_bytes text.old ++ offset_text before rest.now) }
{
    text.push_str("at byte ")?;
    push_number(text, before)?;
    text.push_str(" stands ")?;
    push_value(alloc, text, first_line(rest))
}

// Adds where the rest of some bytes begins, and the line there.
fn push_at(alloc: Global, text: &mut String, bytes: &[u8], rest: &[u8]) -> Result<(), AllocError>
    ensures { OnOk result (string_bytes text.new ≡ string_bytes text.old ++ offset_text (length bytes.now - length rest.now) rest.now) }
{
    let before = bytes.len().saturating_sub(rest.len());
    push_offset(alloc, text, before as u64, rest)
}

// Adds the first line of the declaration in a file that the table's own has not.
fn push_other_line(
    alloc: Global,
    text: &mut String,
    declared: &[u8],
    own: &[u8],
) -> Result<(), AllocError> {
    let mut lines = own.split(|byte| *byte == b'\n');
    for line in declared.split(|byte| *byte == b'\n') {
        let wanted = lines.next().unwrap_or(b"");
        if line != wanted {
            text.push_str("it declares ")?;
            push_value(alloc, text, line)?;
            text.push_str(" where the table has ")?;
            return push_value(alloc, text, wanted);
        }
    }
    Ok(())
}

// Adds how the declaration in a file differs from the table's own.
fn push_other_table(
    alloc: Global,
    text: &mut String,
    schema: &Schema,
    bytes: &[u8],
) -> Result<(), AllocError> {
    let Some(rest) = behind_head(bytes) else {
        return Ok(());
    };
    match cut_item(rest) {
        Ok(item) if matches!(item.form, Form::Table(_)) => {
            push_other_line(alloc, text, item.body, schema.text())
        }
        _ => Ok(()),
    }
}

// Whether a record has a name that does not rise.
fn is_behind(item: &Item<'_>, last: &Option<Name>) -> bool {
    let Some(last) = last else {
        return false;
    };
    match &item.form {
        Form::Content(name, _) => name <= last,
        Form::Dispute(name) => name <= last,
        Form::Retirement(name) => name <= last,
        Form::Floor(name) => name.origin().cmp(last.origin()).is_le(),
        _ => false,
    }
}

// Whether a record has a segment that is refused.
fn is_refused(alloc: Global, schema: &Schema, item: &Item<'_>) -> bool {
    match &item.form {
        Form::Content(_, _) => Segment::read(alloc, schema, item.body).is_err(),
        _ => false,
    }
}

// Whether a record is the one of a fault.
fn is_wrong(
    alloc: Global,
    schema: &Schema,
    item: &Item<'_>,
    last: &Option<Name>,
    fault: FileFault,
) -> bool {
    match fault {
        FileFault::NotRising => is_behind(item, last),
        FileFault::Segment(_) => is_refused(alloc, schema, item),
        _ => false,
    }
}

// Adds what is wrong in a record.
fn push_record(
    alloc: Global,
    text: &mut String,
    schema: &Schema,
    item: &Item<'_>,
    name: &Name,
    last: &Option<Name>,
    fault: FileFault,
) -> Result<(), AllocError> {
    push_name(alloc, text, name)?;
    match (fault, last) {
        (FileFault::Segment(refused), _) => {
            text.push_str(", ")?;
            push_segment_place(alloc, text, schema, item.body, refused)
        }
        (_, Some(last)) => {
            text.push_str(" stands behind ")?;
            push_name(alloc, text, last)
        }
        _ => Ok(()),
    }
}

// What stands behind the line of the digest, or where there is none.
fn behind_digest(rest: &[u8]) -> &[u8] {
    match line_feed(rest) {
        Some(end) if rest.starts_with(b"H ") => &rest[end + 1..],
        _ => rest,
    }
}

// Adds what is wrong at the end or behind it.
fn push_end(
    alloc: Global,
    text: &mut String,
    bytes: &[u8],
    item: &Item<'_>,
    counted: u32,
    fault: FileFault,
) -> Result<(), AllocError> {
    match (fault, &item.form) {
        (FileFault::OtherCount, Form::End(count)) => {
            text.push_str("E counts ")?;
            push_number(text, u64::from(*count))?;
            text.push_str(", and there are ")?;
            push_number(text, u64::from(counted))
        }
        (FileFault::Trailing, _) => push_at(alloc, text, bytes, behind_digest(item.rest)),
        _ => push_at(alloc, text, bytes, item.rest),
    }
}

// The name of a record.
fn record_name(form: &Form) -> Option<&Name> {
    match form {
        Form::Content(name, _) => Some(name),
        Form::Dispute(name) => Some(name),
        Form::Retirement(name) => Some(name),
        Form::Floor(name) => Some(name),
        _ => None,
    }
}

// Whether a line may not stand behind the declaration of a version.
fn is_misplaced(bytes: &[u8], form: &Form) -> bool {
    match form {
        Form::Table(_) => true,
        Form::Floor(_) => bytes.starts_with(OLD_HEAD),
        Form::Digest(_) => true,
        _ => false,
    }
}

// Adds which record is the one of a fault, or what is wrong behind the last.
fn push_behind_table(
    alloc: Global,
    text: &mut String,
    schema: &Schema,
    bytes: &[u8],
    records: &[u8],
    fault: FileFault,
) -> Result<(), AllocError> {
    let mut last = None;
    let mut count = 0u32;
    let mut rest = records;
    'records: for _ in 0..records.len() {
        let item = match cut_item(rest) {
            Ok(item) if !is_misplaced(bytes, &item.form) => item,
            _ => break 'records,
        };
        let Some(name) = record_name(&item.form) else {
            return push_end(alloc, text, bytes, &item, count, fault);
        };
        if is_wrong(alloc, schema, &item, &last, fault) {
            return push_record(alloc, text, schema, &item, name, &last, fault);
        }
        last = Some(*name);
        count = count.saturating_add(1);
        rest = item.rest;
    }
    push_stop(alloc, text, bytes, rest)
}

// Adds where nothing more can be read.
fn push_stop(
    alloc: Global,
    text: &mut String,
    bytes: &[u8],
    rest: &[u8],
) -> Result<(), AllocError> {
    match cut_item(rest) {
        Ok(_) => push_at(alloc, text, bytes, rest),
        Err(place) => push_at(alloc, text, bytes, place),
    }
}

// Adds where a file can be read no more, or which record is the one of a fault.
fn push_read(
    alloc: Global,
    text: &mut String,
    schema: &Schema,
    bytes: &[u8],
    fault: FileFault,
) -> Result<(), AllocError> {
    let Some(rest) = behind_head(bytes) else {
        return push_at(alloc, text, bytes, bytes);
    };
    match cut_item(rest) {
        Ok(item) if matches!(item.form, Form::Table(_)) => {
            push_behind_table(alloc, text, schema, bytes, item.rest, fault)
        }
        _ => push_stop(alloc, text, bytes, rest),
    }
}

// Adds where a file has this fault, and what stands there.
fn push_file_place(
    alloc: Global,
    text: &mut String,
    schema: &Schema,
    bytes: &[u8],
    fault: FileFault,
) -> Result<(), AllocError> {
    match fault {
        FileFault::Truncated => push_length(text, bytes),
        FileFault::OtherSchema => push_other_table(alloc, text, schema, bytes),
        FileFault::OtherDigest => push_length(text, bytes),
        FileFault::NoMemory => Ok(()),
        _ => push_read(alloc, text, schema, bytes, fault),
    }
}

/// Why an exchange file is refused by the table: the sentence of the fault, of a refused segment then that of its own, and a
/// line with what the bytes are called and the place in them.
pub(crate) fn explain_file(
    alloc: Global,
    file: &str,
    schema: &Schema,
    bytes: &[u8],
    fault: FileFault,
) -> Result<String, AllocError>
    ensures { IfOk result (λ text. BeginsWith (file_label fault) (string_bytes text)) }
{
    let mut place = String::new(alloc);
    push_file_place(alloc, &mut place, schema, bytes, fault)?;
    let mut below = String::new(alloc);
    if let FileFault::Segment(refused) = fault {
        push_sentence(&mut below, segment_sentence(refused))?;
    }
    push_file(&mut below, file, place.as_str())?;
    explained(alloc, file_sentence(fault), below.as_str())
}
