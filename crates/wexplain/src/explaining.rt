//! Why a subcommand was refused.
ghost use Rattle.std.specs.Prelude.{◌≡◌, ◌≢◌, true, false, IfOk, IfSome, IsSome, codes, option_map, string_bytes};
ghost use Rattle.wshown.specs.Shown.{BeginsWith};
ghost use Rattle.wsentences.specs.Labels.{file_label, name_label, segment_label, table_label};
ghost use Rattle.wvalues.specs.declared.name.NameFault.{NameFault};
ghost use Rattle.wsegment.specs.declared.schema_fault.SchemaFault.{SchemaFault};
ghost use Rattle.wexplain.specs.Refusals.{BeginsWithLabel, Explains, IsDeclared, IsOfQuery, IsOfWords, RefusesQuery, refusal_line};
ghost use Rattle.wexplain.specs.Stores.{IsAtFault, IsWhole};

use crate::exchange_file::explain_file;
use crate::query::explain_query;
use crate::reply::{Refusal, refusal_of};
use crate::stream::{explain_delivery, explain_stream};
use std::alloc::{AllocError, Global};
use wbatch::Place;
use wexchange::{FileFault, read};
use wsegment::{Schema, SchemaFault, SegmentFault};
use wsentences::{explain_declaration, explain_name, explain_segment};

/// A file, as it was read, and what it is called.
#[derive(Clone, Copy)]
pub struct Input<'p, 'b> {
    pub path: &'p str,
    pub bytes: &'b [u8],
}

/// A delivery stream: what it is called, and where in it something is refused.
#[derive(Clone, Copy)]
pub struct Stream<'p, 'b> {
    pub path: &'p str,
    pub place: Place<'b>,
}

/// The words of a name, as they were written.
#[derive(Clone, Copy)]
pub struct NameWords<'w> {
    pub origin: &'w str,
    pub number: &'w str,
}

/// What a subcommand was given. Its paths and words, the bytes of the table, of the store and of the input are lent from different
/// places, for as long as each of these has them.
#[derive(Clone, Copy)]
pub struct Given<'p, 't, 's, 'w, 'o> {
    /// The declaration of the table.
    pub table: Input<'p, 't>,
    /// The store, if there was one.
    pub store: Option<Input<'p, 's>>,
    /// The segment.
    pub segment: Option<Input<'w, 'o>>,
    /// The delivery stream.
    pub stream: Option<Stream<'w, 'o>>,
    /// The other store.
    pub other: Option<Input<'w, 'o>>,
    /// The words of the name, if there was one.
    pub name: Option<NameWords<'w>>,
    /// The text of the query, if there was one.
    pub query: Option<&'w str>,
}

// Whether a store can be read, if there is one.
fn is_whole(
    alloc: Global,
    schema: &Schema,
    store: &Option<Input<'_, '_>>,
) -> Result<bool, AllocError>
    ensures whole { IfOk result (λ whole. whole ≡ true → IsWhole schema.now (option_map (λ input. input.bytes.now) store.now)) }
    ensures fault { IfOk result (λ whole. whole ≡ false → IsAtFault schema.now (option_map (λ input. input.bytes.now) store.now)) }
{
    let Some(store) = store else {
        return Ok(true);
    };
    let Err(fault) = read(alloc, schema, store.bytes) else {
        return Ok(true);
    };
    if fault == FileFault::NoMemory {
        return Err(AllocError);
    }
    Ok(false)
}

// Explains the fault of a store, which is judged first, or of the other one.
fn told_file(
    alloc: Global,
    schema: &Schema,
    given: &Given<'_, '_, '_, '_, '_>,
    fault: FileFault,
) -> Result<Option<String>, AllocError>
    ensures { IfOk result (λ answer. IfSome answer (λ text. BeginsWith (file_label fault) (string_bytes text))) }
{
    if let Some(other) = given.other
        && is_whole(alloc, schema, &given.store)?
    {
        let text = explain_file(alloc, other.path, schema, other.bytes, fault)?;
        return Ok(Some(text));
    }
    let Some(store) = given.store else {
        return Ok(None);
    };
    let text = explain_file(alloc, store.path, schema, store.bytes, fault)?;
    Ok(Some(text))
}

// Explains the fault of a segment, or of the first segment of a stream that has one.
fn told_segment(
    alloc: Global,
    schema: &Schema,
    given: &Given<'_, '_, '_, '_, '_>,
    fault: SegmentFault,
) -> Result<Option<String>, AllocError>
    ensures { IfOk result (λ answer. IfSome answer (λ text. BeginsWith (segment_label fault) (string_bytes text))) }
{
    if let Some(stream) = given.stream {
        let text = explain_delivery(alloc, stream.path, schema, &stream.place, fault)?;
        return Ok(Some(text));
    }
    let Some(segment) = given.segment else {
        return Ok(None);
    };
    let text = explain_segment(alloc, segment.path, schema, segment.bytes, fault)?;
    Ok(Some(text))
}

// Explains what is wrong in a stream.
fn told_stream(
    alloc: Global,
    given: &Given<'_, '_, '_, '_, '_>,
) -> Result<Option<String>, AllocError>
    ensures { IfOk result (λ answer. IfSome answer (λ text. BeginsWith (codes "B1") (string_bytes text))) }
{
    let Some(stream) = given.stream else {
        return Ok(None);
    };
    let text = explain_stream(alloc, stream.path, &stream.place)?;
    Ok(Some(text))
}

// Explains a refusal below a declaration that was read.
fn told_by(
    alloc: Global,
    schema: &Schema,
    given: &Given<'_, '_, '_, '_, '_>,
    refusal: Refusal,
) -> Result<Option<String>, AllocError>
    ensures query { IsOfQuery refusal → IfOk result (λ answer. IsSome answer) }
    ensures begins { IfOk result (λ answer. IfSome answer (λ text. BeginsWithLabel refusal (string_bytes text))) }
{
    match refusal {
        Refusal::Segment(fault) => told_segment(alloc, schema, given, fault),
        Refusal::File(fault) => told_file(alloc, schema, given, fault),
        Refusal::Query(fault) => {
            let query = given.query.unwrap_or("");
            let text = explain_query(alloc, schema, query.as_bytes(), fault)?;
            Ok(Some(text))
        }
        Refusal::Stream => told_stream(alloc, given),
        _ => Ok(None),
    }
}

// Explains a refusal of what a declaration is asked for.
fn told_below(
    alloc: Global,
    given: &Given<'_, '_, '_, '_, '_>,
    refusal: Refusal,
) -> Result<Option<String>, AllocError>
    ensures query { IsDeclared given.now.table.bytes.now → IsOfQuery refusal → IfOk result (λ answer. IsSome answer) }
    ensures begins { IfOk result (λ answer. IfSome answer (λ text. BeginsWithLabel refusal (string_bytes text))) }
{
    match Schema::read(alloc, given.table.bytes) {
        Ok(schema) => told_by(alloc, &schema, given, refusal),
        Err(SchemaFault::NoMemory) => Err(AllocError),
        Err(_) => Ok(None),
    }
}

// The words of the name, which are empty where there was none.
fn name_words<'w>(given: &Given<'_, '_, '_, 'w, '_>) -> NameWords<'w> {
    match given.name {
        Some(words) => words,
        None => NameWords {
            origin: "",
            number: "",
        },
    }
}

// Explains a refusal.
fn told(
    alloc: Global,
    refusal: Refusal,
    given: &Given<'_, '_, '_, '_, '_>,
) -> Result<Option<String>, AllocError>
    ensures words { IsOfWords refusal → IfOk result (λ answer. IsSome answer) }
    ensures query { IsDeclared given.now.table.bytes.now → IsOfQuery refusal → IfOk result (λ answer. IsSome answer) }
    ensures begins { IfOk result (λ answer. IfSome answer (λ text. BeginsWithLabel refusal (string_bytes text))) }
{
    match refusal {
        Refusal::Declaration(fault) => {
            let table = given.table;
            let text = explain_declaration(alloc, table.path, table.bytes, fault)?;
            Ok(Some(text))
        }
        Refusal::Name(fault) => {
            let words = name_words(given);
            let origin = words.origin.as_bytes();
            let text = explain_name(alloc, origin, words.number.as_bytes(), fault)?;
            Ok(Some(text))
        }
        _ => told_below(alloc, given, refusal),
    }
}

/// Why a subcommand was refused that was given this and printed that. Nothing where it was not refused.
pub fn explain(
    alloc: Global,
    reply: &[u8],
    given: &Given<'_, '_, '_, '_, '_>,
) -> Result<Option<String>, AllocError>
    ensures explains { IfOk result (λ answer. IfSome answer (λ text. Explains reply.now (string_bytes text))) }
    ensures name { (fault : NameFault) → reply.now ≡ refusal_line (name_label fault) → IfOk result (λ answer. IsSome answer) }
    ensures table { (fault : SchemaFault) → fault ≢ SchemaFault.NoMemory → reply.now ≡ refusal_line (table_label fault)
        → IfOk result (λ answer. IsSome answer) }
    ensures query { IsDeclared given.now.table.bytes.now → RefusesQuery reply.now → IfOk result (λ answer. IsSome answer) }
{
    match refusal_of(reply) {
        Some(refusal) => told(alloc, refusal, given),
        None => Ok(None),
    }
}
