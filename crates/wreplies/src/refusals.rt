//! Refusals of segments, exchange files and queries.
ghost use Rattle.std.specs.Prelude.{◌≡◌, IfOk, OnErr, true};
ghost use Rattle.wreplies.specs.Spelling.{at_number, file_text, has_number, has_row, query_text, segment_text};
ghost use Rattle.wreplies.specs.Texts.{bytes_of};

use crate::text::{Text, push_at};
use std::alloc::{AllocError, Global};
use wexchange::FileFault;
use wplanner::AskFault;
use wsegment::SegmentFault;

// A refusal that carries a number.
fn refused_at(alloc: Global, words: &[u8], number: u64) -> Result<Text, AllocError>
    ensures { IfOk result (λ text. bytes_of text ≡ at_number words.now number) }
{
    let mut text = Vec::new(alloc);
    push_at(&mut text, words, number)?;
    Ok(Text::Made(text))
}

/// The refusal of a segment. `AllocError`: a growth was refused, which a refusal with the number of a row alone asks for.
pub fn refused_segment(alloc: Global, fault: SegmentFault) -> Result<Text, AllocError>
    ensures text { IfOk result (λ text. bytes_of text ≡ segment_text fault) }
    ensures lacks { OnErr result (has_row fault ≡ true) }
{
    match fault {
        SegmentFault::TooLong => Ok(Text::Fixed(b"refused S1\n")),
        SegmentFault::NoHeader => Ok(Text::Fixed(b"refused S2\n")),
        SegmentFault::HeaderNotUtf8 => Ok(Text::Fixed(b"refused S3\n")),
        SegmentFault::RowNotUtf8 { row } => refused_at(alloc, b"refused S3 row ", u64::from(row)),
        SegmentFault::UnknownColumn => Ok(Text::Fixed(b"refused S4\n")),
        SegmentFault::RepeatedColumn => Ok(Text::Fixed(b"refused S5\n")),
        SegmentFault::MissingColumn => Ok(Text::Fixed(b"refused S6\n")),
        SegmentFault::RowLength { row } => refused_at(alloc, b"refused S7 row ", u64::from(row)),
        SegmentFault::NotInteger { row } => refused_at(alloc, b"refused S8 row ", u64::from(row)),
        SegmentFault::TooManyRows => Ok(Text::Fixed(b"refused S9\n")),
        SegmentFault::NoMemory => Ok(Text::Fixed(b"no memory\n")),
    }
}

// The refusal of an exchange file in which a segment is refused.
fn refused_segment_of_file(alloc: Global, fault: SegmentFault) -> Result<Text, AllocError>
    ensures text { IfOk result (λ text. bytes_of text ≡ file_text (FileFault.Segment fault)) }
    ensures lacks { OnErr result (has_row fault ≡ true) }
{
    match fault {
        SegmentFault::TooLong => Ok(Text::Fixed(b"refused X6 S1\n")),
        SegmentFault::NoHeader => Ok(Text::Fixed(b"refused X6 S2\n")),
        SegmentFault::HeaderNotUtf8 => Ok(Text::Fixed(b"refused X6 S3\n")),
        SegmentFault::RowNotUtf8 { row } => {
            refused_at(alloc, b"refused X6 S3 row ", u64::from(row))
        }
        SegmentFault::UnknownColumn => Ok(Text::Fixed(b"refused X6 S4\n")),
        SegmentFault::RepeatedColumn => Ok(Text::Fixed(b"refused X6 S5\n")),
        SegmentFault::MissingColumn => Ok(Text::Fixed(b"refused X6 S6\n")),
        SegmentFault::RowLength { row } => refused_at(alloc, b"refused X6 S7 row ", u64::from(row)),
        SegmentFault::NotInteger { row } => {
            refused_at(alloc, b"refused X6 S8 row ", u64::from(row))
        }
        SegmentFault::TooManyRows => Ok(Text::Fixed(b"refused X6 S9\n")),
        SegmentFault::NoMemory => Ok(Text::Fixed(b"no memory\n")),
    }
}

/// The refusal of an exchange file. `AllocError`: a growth was refused, which the number of a segment's row alone asks for.
pub fn refused_file(alloc: Global, fault: FileFault) -> Result<Text, AllocError>
    ensures text { IfOk result (λ text. bytes_of text ≡ file_text fault) }
    ensures lacks { OnErr result ((refused : SegmentFault) × (fault ≡ FileFault.Segment refused) × (has_row refused ≡ true)) }
{
    match fault {
        FileFault::OtherFormat => Ok(Text::Fixed(b"refused X1\n")),
        FileFault::Truncated => Ok(Text::Fixed(b"refused X2\n")),
        FileFault::NotRising => Ok(Text::Fixed(b"refused X3\n")),
        FileFault::OtherCount => Ok(Text::Fixed(b"refused X4\n")),
        FileFault::OtherSchema => Ok(Text::Fixed(b"refused X5\n")),
        FileFault::Segment(refused) => refused_segment_of_file(alloc, refused),
        FileFault::Trailing => Ok(Text::Fixed(b"refused X7\n")),
        FileFault::OtherDigest => Ok(Text::Fixed(b"refused X8\n")),
        FileFault::NoMemory => Ok(Text::Fixed(b"no memory\n")),
    }
}

/// The refusal of a query. `AllocError`: a growth was refused, which a refusal with a number alone asks for.
pub fn refused_query(alloc: Global, fault: AskFault) -> Result<Text, AllocError>
    ensures text { IfOk result (λ text. bytes_of text ≡ query_text fault) }
    ensures lacks { OnErr result (has_number fault ≡ true) }
{
    match fault {
        AskFault::TooLong => Ok(Text::Fixed(b"refused Q1\n")),
        AskFault::NotUtf8 => Ok(Text::Fixed(b"refused Q2\n")),
        AskFault::At { place } => refused_at(alloc, b"refused Q3 at ", place as u64),
        AskFault::Syntax => Ok(Text::Fixed(b"refused Q4\n")),
        AskFault::Broken(rule) => refused_at(alloc, b"refused Q", u64::from(rule.number())),
        AskFault::OutOfRange => Ok(Text::Fixed(b"refused Q40\n")),
        AskFault::TooManyRows => Ok(Text::Fixed(b"refused Q41\n")),
        AskFault::NoMemory => Ok(Text::Fixed(b"no memory\n")),
    }
}
