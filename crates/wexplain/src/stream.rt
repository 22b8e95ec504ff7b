//! What is wrong in a delivery stream.
ghost use Rattle.std.specs.Prelude.{IfOk, codes, string_bytes};
ghost use Rattle.wshown.specs.Shown.{BeginsWith};
ghost use Rattle.wsentences.specs.Labels.{segment_label};

use crate::exchange_file::{push_name, push_offset};
use crate::items::{LONGEST_LINE, cut_item, cut_short};
use std::alloc::{AllocError, Global};
use wbatch::{Place, Stands};
use wrecords::cut_line;
use wsegment::{Schema, SegmentFault};
use wsentences::{STREAM, explained, push_file, push_segment_place, segment_sentence};
use wshown::push_number;
use wvalues::{Name, NameFault};

// Adds which message of a stream it is, from 1.
fn push_message(text: &mut String, place: &Place<'_>) -> Result<(), AllocError> {
    text.push_str("message ")?;
    push_number(text, (place.messages as u64).saturating_add(1))?;
    text.push_str(", ")
}

// Adds a name, and where its segment has this fault.
fn push_named(
    alloc: Global,
    text: &mut String,
    schema: &Schema,
    name: &Name,
    bytes: &[u8],
    fault: SegmentFault,
) -> Result<(), AllocError> {
    push_name(alloc, text, name)?;
    let mut place = String::new(alloc);
    push_segment_place(alloc, &mut place, schema, bytes, fault)?;
    if !place.is_empty() {
        text.push_str(", ")?;
        text.push_str(place.as_str())?;
    }
    Ok(())
}

// Adds which message has a segment with this fault, and where in it.
fn push_refused(
    alloc: Global,
    text: &mut String,
    schema: &Schema,
    place: &Place<'_>,
    fault: SegmentFault,
) -> Result<(), AllocError> {
    match place.stands {
        Stands::Segment(name, bytes) => {
            push_message(text, place)?;
            push_named(alloc, text, schema, name, bytes, fault)
        }
        Stands::Rest(_) => Ok(()),
    }
}

// Which word of the name in a line is refused, and how, where a name is to stand behind its first word.
fn name_note(line: &str) -> &'static str {
    let mut words = line.split(' ');
    if !matches!(words.next(), Some("S" | "R" | "U")) {
        return "";
    }
    let (Some(origin), Some(number)) = (words.next(), words.next()) else {
        return "";
    };
    match Name::read(origin.as_bytes(), number.as_bytes()) {
        Ok(_) => "",
        Err(NameFault::BadOrigin) => ": its origin is refused N1",
        Err(NameFault::BadNumber) => ": its number is refused N2",
    }
}

// What is wrong with the line in front of what is left of a stream, if that is known: its name is refused, or the stream ends behind it.
fn line_note(rest: &[u8]) -> &'static str {
    let Some((line, _)) = cut_line(rest) else {
        return if rest.len() > LONGEST_LINE {
            ""
        } else {
            ": no line feed ends it"
        };
    };
    match str::from_utf8(line) {
        Ok(line) => name_note(line),
        Err(_) => "",
    }
}

// Adds where the rest of a stream, behind so many bytes, can be read no more.
fn push_stop(alloc: Global, text: &mut String, before: u64, rest: &[u8]) -> Result<(), AllocError> {
    if let Some(name) = cut_short(rest) {
        push_name(alloc, text, &name)?;
        return text.push_str(": the stream ends inside it");
    }
    match cut_item(rest) {
        Ok(_) => push_offset(alloc, text, before, rest),
        Err(place) => {
            let read = rest.len().saturating_sub(place.len()) as u64;
            push_offset(alloc, text, before.saturating_add(read), place)?;
            // behind its line a message has no words
            let note = if read == 0 { line_note(rest) } else { "" };
            text.push_str(note)
        }
    }
}

// Adds which message is none, and where.
fn push_bad(alloc: Global, text: &mut String, place: &Place<'_>) -> Result<(), AllocError> {
    match place.stands {
        Stands::Rest(rest) if !rest.is_empty() => {
            push_message(text, place)?;
            push_stop(alloc, text, place.bytes, rest)
        }
        _ => Ok(()),
    }
}

/// Why a segment of a delivery stream is refused: the sentence of the fault, and a line with what the bytes are called, the
/// number of the message from 1, its name, the row, the field and the value.
pub(crate) fn explain_delivery(
    alloc: Global,
    file: &str,
    schema: &Schema,
    place: &Place<'_>,
    fault: SegmentFault,
) -> Result<String, AllocError>
    ensures { IfOk result (λ text. BeginsWith (segment_label fault) (string_bytes text)) }
{
    let mut told = String::new(alloc);
    push_refused(alloc, &mut told, schema, place, fault)?;
    let mut below = String::new(alloc);
    push_file(&mut below, file, told.as_str())?;
    explained(alloc, segment_sentence(fault), below.as_str())
}

/// Why a delivery stream is bad: the sentence, and a line with what the bytes are called, the number from 1 of the message
/// that is none, its name where the stream ends inside it, and else what stands where nothing more can be read.
pub(crate) fn explain_stream(
    alloc: Global,
    file: &str,
    place: &Place<'_>,
) -> Result<String, AllocError>
    ensures { IfOk result (λ text. BeginsWith (codes "B1") (string_bytes text)) }
{
    let mut told = String::new(alloc);
    push_bad(alloc, &mut told, place)?;
    let mut below = String::new(alloc);
    push_file(&mut below, file, told.as_str())?;
    explained(alloc, STREAM, below.as_str())
}
