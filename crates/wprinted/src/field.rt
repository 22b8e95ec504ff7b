//! What stands between two commas.
ghost use Rattle.std.specs.Prelude.{◌≡◌, ◌++◌, OnOk};
ghost use Rattle.std.specs.List.{list_any};
ghost use Rattle.wvalues.specs.Meaning.{meaning};
ghost use Rattle.wcolumns.specs.Columns.{field_seen};
ghost use Rattle.wprinted.specs.Printing.{field_text, is_quoted, is_special, quoted, text_field};

use itoa::Buffer;
use std::alloc::AllocError;
use wcolumns::Field;
use wvalues::Value;

// Whether a byte stands in quotes alone.
fn is_special_byte(byte: u8) -> bool
    ensures { result ≡ is_special byte }
{
    matches!(byte, b',' | b'"' | b'\r' | b'\n')
}

// Whether a text holds such a byte.
fn holds_special_byte(text: &[u8]) -> bool
    ensures { result ≡ list_any is_special text.now }
{
    text.iter().any(|&byte| is_special_byte(byte))
}

/// Whether a text is printed in quotes. An empty one is, for a null is an empty field.
pub(crate) fn needs_quotes(text: &[u8]) -> bool
    ensures { result ≡ is_quoted text.now }
{
    text.is_empty() || holds_special_byte(text)
}

// Adds a text in quotes.
fn push_quoted(bytes: &mut Vec<u8>, text: &[u8]) -> Result<(), AllocError>
    ensures { OnOk result (bytes.new.items ≡ bytes.old.items ++ quoted text.now) }
{
    bytes.push(b'"')?;
    for &byte in text {
        if byte == b'"' {
            bytes.push(b'"')?;
        }
        bytes.push(byte)?;
    }
    bytes.push(b'"')?;
    Ok(())
}

/// Adds a text.
pub(crate) fn push_text(bytes: &mut Vec<u8>, text: &[u8]) -> Result<(), AllocError>
    ensures { OnOk result (bytes.new.items ≡ bytes.old.items ++ text_field text.now) }
{
    if needs_quotes(text) {
        push_quoted(bytes, text)
    } else {
        bytes.extend_from_slice(text)
    }
}

// Adds a value.
fn push_value(bytes: &mut Vec<u8>, value: &Value) -> Result<(), AllocError>
    ensures { OnOk result (bytes.new.items ≡ bytes.old.items ++ field_text (meaning value.now)) }
{
    match value {
        Value::Null => Ok(()),
        Value::Int(number) => {
            let mut buffer = Buffer::new();
            bytes.extend_from_slice(buffer.format(number.get()).as_bytes())
        }
        Value::Short(text) => push_text(bytes, text.as_str().as_bytes()),
        Value::Shared(text) => push_text(bytes, text.as_str().as_bytes()),
    }
}

/// Adds what a row has at a place.
pub(crate) fn push_field(bytes: &mut Vec<u8>, field: Field<'_>) -> Result<(), AllocError>
    ensures { OnOk result (bytes.new.items ≡ bytes.old.items ++ field_text (field_seen field.entry)) }
{
    match field {
        Field::Value(value) => push_value(bytes, value),
        Field::Count(count) => {
            let mut buffer = Buffer::new();
            bytes.extend_from_slice(buffer.format(count).as_bytes())
        }
    }
}
