//! The header: the column of each field, and the field of each column.
ghost use Rattle.std.specs.Prelude.{◌≡◌, ◌<◌, [], All, Ok, Some, IfOk, length, map, option_map};
ghost use Rattle.std.specs.Prelude.{is_some, position, MatchResult, true, false, ◌⊎◌};
ghost use Rattle.std.specs.List.{find, list_any};
ghost use Rattle.std.specs.Str.{bytes_eq};
ghost use Rattle.csv.specs.Records.{fields_of};
ghost use Rattle.wsegment.specs.Header.{all_now, column_named, field_of, is_complete, named, named_each};
ghost use Rattle.wsegment.specs.Outcome.{Gives};
ghost use Rattle.wsegment.specs.declared.fault.SegmentFault.TheVariants.{MissingColumn, NoMemory};

use crate::column::Column;
use crate::fault::SegmentFault;
use csv::ByteRecord;
use std::alloc::Global;
use std::str;

// The column of a name.
fn column_named<'a>(columns: &'a [Column], name: &str) -> Option<&'a Column>
    ensures { option_map (λ c. c.now) result ≡ column_named name.now columns.now }
{
    columns.iter().find(|column| column.name() == name)
}

fn is_named(header: &[&Column], name: &str) -> bool
    ensures { result ≡ list_any (λ other. bytes_eq other.now.name name.now) header.now }
{
    header.iter().any(|other| other.name() == name)
}

// The column that a field names, behind those of earlier fields.
fn named<'a>(
    columns: &'a [Column],
    earlier: &[&Column],
    field: &[u8],
) -> Result<&'a Column, SegmentFault>
    ensures { Gives (λ c. c.now) result (named columns.now (all_now earlier.now) field.now) }
{
    let Ok(name) = str::from_utf8(field) else {
        return Err(SegmentFault::HeaderNotUtf8);
    };
    let Some(column) = column_named(columns, name) else {
        return Err(SegmentFault::UnknownColumn);
    };
    if is_named(earlier, column.name()) {
        return Err(SegmentFault::RepeatedColumn);
    }
    Ok(column)
}

/// The column that each field of a header names, or the first fault. A field is judged as it comes, so no more
/// of them are kept than the table has columns.
pub(crate) fn header_columns<'a>(
    alloc: Global,
    columns: &'a [Column],
    header: &ByteRecord,
) -> Result<Vec<&'a Column>, SegmentFault>
    ensures { Gives (λ found. all_now found.items) result (named_each columns.now [] (fields_of header.now)) }
{
    let mut found = Vec::new(alloc);
    for i in 0..header.len() {
        let Some(field) = header.get(i) else {
            unreachable!()
        };
        let column = named(columns, &found, field)?;
        found.push(column)?;
    }
    Ok(found)
}

fn field_of(header: &[&Column], column: &Column) -> Option<usize>
    ensures { result ≡ position (λ other. bytes_eq other.now.name column.now.name) header.now }
{
    header
        .iter()
        .position(|other| other.name() == column.name())
}

/// The field of each column, or the fault that there is none.
pub(crate) fn column_fields(
    alloc: Global,
    columns: &[Column],
    header: &[&Column],
) -> Result<Vec<usize>, SegmentFault>
    ensures gives { MatchResult result
        (λ fields. (is_complete columns.now (all_now header.now) ≡ true)
        × (map Some fields.items ≡ map (field_of (all_now header.now)) columns.now))
        (λ fault. (fault ≡ NoMemory) ⊎ ((fault ≡ MissingColumn) × (is_complete columns.now (all_now header.now) ≡ false))) }
    ensures within { IfOk result (λ fields. All (λ field. field < length header.now) fields.items) }
{
    let mut fields = Vec::new(alloc);
    for column in columns {
        let Some(field) = field_of(header, column) else {
            return Err(SegmentFault::MissingColumn);
        };
        fields.push(field)?;
    }
    Ok(fields)
}

// Whether a column has a field.
fn has_field(header: &[&Column], column: &Column) -> bool
    ensures { result ≡ is_some (field_of (all_now header.now) column.now) }
{
    field_of(header, column).is_some()
}

/// Whether each column has a field.
pub(crate) fn is_complete(columns: &[Column], header: &[&Column]) -> bool
    ensures { result ≡ is_complete columns.now (all_now header.now) }
{
    columns.iter().all(|column| has_field(header, column))
}
