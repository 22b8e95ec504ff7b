//! From what a refused subcommand has printed to what is wrong.
ghost use Rattle.std.specs.Prelude.{◌≡◌, ◌≢◌, [], IfSome, IsSome, IsSomeAnd, codes};
ghost use Rattle.std.specs.List.{position};
ghost use Rattle.wsentences.specs.Labels.{file_label, name_label, query_label, segment_label, table_label};
ghost use Rattle.wvalues.specs.declared.name.NameFault.{NameFault};
ghost use Rattle.wsegment.specs.declared.schema_fault.SchemaFault.{SchemaFault};
ghost use Rattle.wrules.specs.declared.rule.Rule.{Rule};
ghost use Rattle.wrules.specs.Rules.{number_of};
ghost use Rattle.wplanner.specs.declared.fault.AskFault.{AskFault};
ghost use Rattle.wexplain.specs.Refusals.{IsCalled, IsOfQuery, Refuses, RefusesQuery, ends_label, label_in, refusal_line};

use wexchange::FileFault;
use wlines::split_word;
use wplanner::AskFault;
use wrules::Rule;
use wsegment::{SchemaFault, SegmentFault};
use wvalues::{NameFault, number_word};

/// A refusal, as it was printed.
#[derive(Clone, Copy)]
pub(crate) enum Refusal {
    Declaration(SchemaFault),
    Name(NameFault),
    Segment(SegmentFault),
    File(FileFault),
    Query(AskFault),
    Stream,
}

// Where the label of a refusal ends.
fn label_end(line: &[u8]) -> Option<usize>
    ensures { result ≡ position ends_label line.now }
{
    line.iter().position(|byte| *byte == b' ' || *byte == b'\n')
}

// The label of a refusal.
fn label_of(line: &[u8]) -> &[u8]
    ensures { result.now ≡ label_in line.now }
{
    match label_end(line) {
        Some(end) => &line[..end],
        None => line,
    }
}

// What stands behind the first space of a line, if it has one.
fn behind_word(line: &[u8]) -> &[u8] {
    match split_word(line) {
        Some((_, rest)) => rest,
        None => b"",
    }
}

// The number that stands behind a label and a word, 0 where there is none.
fn number_behind(line: &[u8]) -> u32 {
    let rest = behind_word(behind_word(line));
    let number = match rest.strip_suffix(b"\n") {
        Some(number) => number,
        None => rest,
    };
    number_word(number).unwrap_or(0)
}

// A fault of a field that is not UTF-8: in a row from 1, or in the header.
fn not_utf8(row: u32) -> SegmentFault
    ensures { segment_label result ≡ codes "S3" }
{
    if row == 0 {
        return SegmentFault::HeaderNotUtf8;
    }
    SegmentFault::RowNotUtf8 { row }
}

// The fault of a segment.
fn segment_fault(label: &[u8], row: u32) -> Option<SegmentFault>
    ensures { IfSome result (λ fault. label.now ≡ segment_label fault) }
{
    match label {
        b"S1" => Some(SegmentFault::TooLong),
        b"S2" => Some(SegmentFault::NoHeader),
        b"S3" => Some(not_utf8(row)),
        b"S4" => Some(SegmentFault::UnknownColumn),
        b"S5" => Some(SegmentFault::RepeatedColumn),
        b"S6" => Some(SegmentFault::MissingColumn),
        b"S7" => Some(SegmentFault::RowLength { row }),
        b"S8" => Some(SegmentFault::NotInteger { row }),
        b"S9" => Some(SegmentFault::TooManyRows),
        _ => None,
    }
}

// The fault of a file whose segment has the fault of a line.
fn content_fault(line: &[u8]) -> Option<FileFault>
    ensures { IfSome result (λ fault. file_label fault ≡ codes "X6") }
{
    match segment_fault(label_of(line), number_behind(line)) {
        Some(fault) => Some(FileFault::Segment(fault)),
        None => None,
    }
}

// The fault of an exchange file, in which that of a segment stands behind the label.
fn file_fault(label: &[u8], behind: &[u8]) -> Option<FileFault>
    ensures { IfSome result (λ fault. label.now ≡ file_label fault) }
{
    match label {
        b"X1" => Some(FileFault::OtherFormat),
        b"X2" => Some(FileFault::Truncated),
        b"X3" => Some(FileFault::NotRising),
        b"X4" => Some(FileFault::OtherCount),
        b"X5" => Some(FileFault::OtherSchema),
        b"X6" => content_fault(behind),
        b"X7" => Some(FileFault::Trailing),
        b"X8" => Some(FileFault::OtherDigest),
        _ => None,
    }
}

// The rule of a number.
fn rule_of(number: u32) -> Option<Rule>
    ensures found { IfSome result (λ rule. number ≡ number_of rule) }
    ensures only { (rule : Rule) → number ≡ number_of rule → IsSome result }
{
    match number {
        10 => Some(Rule::UnknownTable),
        11 => Some(Rule::UnknownColumn),
        12 => Some(Rule::AmbiguousName),
        13 => Some(Rule::WrongCall),
        14 => Some(Rule::WrongType),
        15 => Some(Rule::MisplacedWindowCall),
        16 => Some(Rule::MisplacedAggregate),
        17 => Some(Rule::UngroupedColumn),
        18 => Some(Rule::WrongFilter),
        19 => Some(Rule::UnknownWindow),
        20 => Some(Rule::RepeatedWindow),
        21 => Some(Rule::WrongCopy),
        22 => Some(Rule::WrongBounds),
        23 => Some(Rule::UnorderedGroups),
        24 => Some(Rule::WrongRangeKey),
        25 => Some(Rule::ZeroCount),
        26 => Some(Rule::WrongPlace),
        27 => Some(Rule::OverLimit),
        28 => Some(Rule::TooManySets),
        _ => None,
    }
}

// The fault of a query that breaks the rule of a label.
fn rule_fault(label: &[u8]) -> Option<AskFault>
    ensures only { (rule : Rule) → label.now ≡ query_label (AskFault.Broken rule) → IsSome result }
    ensures found { IfSome result (λ fault. label.now ≡ query_label fault) }
{
    let rule = rule_of(number_word(label.strip_prefix(b"Q")?)?)?;
    Some(AskFault::Broken(rule))
}

// The fault of a query.
fn query_fault(label: &[u8], place: u32) -> Option<AskFault>
    ensures only { (fault : AskFault) → fault ≢ AskFault.NoMemory → label.now ≡ query_label fault → IsSome result }
    ensures found { IfSome result (λ fault. label.now ≡ query_label fault) }
{
    match label {
        b"Q1" => Some(AskFault::TooLong),
        b"Q2" => Some(AskFault::NotUtf8),
        b"Q3" => Some(AskFault::At {
            place: place as usize,
        }),
        b"Q4" => Some(AskFault::Syntax),
        b"Q40" => Some(AskFault::OutOfRange),
        b"Q41" => Some(AskFault::TooManyRows),
        _ => rule_fault(label),
    }
}

// The fault of a declaration.
fn table_fault(label: &[u8]) -> Option<SchemaFault>
    ensures found { IfSome result (λ fault. label.now ≡ table_label fault) }
    ensures only { (fault : SchemaFault) → fault ≢ SchemaFault.NoMemory → label.now ≡ table_label fault → result ≡ Some fault }
{
    match label {
        b"T1" => Some(SchemaFault::Syntax),
        b"T2" => Some(SchemaFault::RepeatedColumn),
        b"T3" => Some(SchemaFault::ColumnCount),
        _ => None,
    }
}

// The fault of a name.
fn name_fault(label: &[u8]) -> Option<NameFault>
    ensures found { IfSome result (λ fault. label.now ≡ name_label fault) }
    ensures only { (fault : NameFault) → label.now ≡ name_label fault → result ≡ Some fault }
{
    match label {
        b"N1" => Some(NameFault::BadOrigin),
        b"N2" => Some(NameFault::BadNumber),
        _ => None,
    }
}

// The refusal of a stream.
fn stream_refusal(label: &[u8]) -> Option<Refusal>
    ensures { IfSome result (λ refusal. IsCalled refusal label.now) }
{
    match label {
        b"B1" => Some(Refusal::Stream),
        _ => None,
    }
}

// What else than a name or a declaration is refused by a line of this label.
fn refused_below(label: &[u8], line: &[u8]) -> Option<Refusal>
    ensures query { (fault : AskFault) → fault ≢ AskFault.NoMemory → label.now ≡ query_label fault → IsSomeAnd result IsOfQuery }
    ensures filled { IfSome result (λ _. label.now ≢ []) }
    ensures called { IfSome result (λ refusal. IsCalled refusal label.now) }
{
    match label.first()? {
        b'S' => Some(Refusal::Segment(segment_fault(label, number_behind(line))?)),
        b'X' => Some(Refusal::File(file_fault(label, behind_word(line))?)),
        b'Q' => Some(Refusal::Query(query_fault(label, number_behind(line))?)),
        b'B' => stream_refusal(label),
        _ => None,
    }
}

// What is refused in a line.
fn refused(line: &[u8]) -> Option<Refusal>
    ensures query { (fault : AskFault) → fault ≢ AskFault.NoMemory → label_in line.now ≡ query_label fault
        → IsSomeAnd result IsOfQuery }
    ensures filled { IfSome result (λ _. label_in line.now ≢ []) }
    ensures called { IfSome result (λ refusal. IsCalled refusal (label_in line.now)) }
    ensures name { (fault : NameFault) → label_in line.now ≡ name_label fault → result ≡ Some (Refusal.Name fault) }
    ensures table { (fault : SchemaFault) → fault ≢ SchemaFault.NoMemory → label_in line.now ≡ table_label fault
        → result ≡ Some (Refusal.Declaration fault) }
{
    let label = label_of(line);
    if let Some(fault) = name_fault(label) {
        return Some(Refusal::Name(fault));
    }
    if let Some(fault) = table_fault(label) {
        return Some(Refusal::Declaration(fault));
    }
    refused_below(label, line)
}

/// The refusal that a reply tells, if it tells one.
pub(crate) fn refusal_of(reply: &[u8]) -> Option<Refusal>
    ensures query { RefusesQuery reply.now → IsSomeAnd result IsOfQuery }
    ensures found { IfSome result (λ refusal. Refuses reply.now refusal) }
    ensures name { (fault : NameFault) → reply.now ≡ refusal_line (name_label fault) → result ≡ Some (Refusal.Name fault) }
    ensures table { (fault : SchemaFault) → fault ≢ SchemaFault.NoMemory → reply.now ≡ refusal_line (table_label fault)
        → result ≡ Some (Refusal.Declaration fault) }
{
    match reply.strip_prefix(b"refused ") {
        Some(line) => refused(line),
        None => None,
    }
}
