//! The records of some bytes, one after the other.
ghost use Rattle.std.specs.Prelude.{◌≡◌, ◌⊎◌, true, [], Some, IfOk, IfErr};
ghost use Rattle.csv.specs.Reading.{default_config, records, source_of, strip_bom};
ghost use Rattle.csv.specs.Records.{fields_of};
ghost use Rattle.csv.specs.declared.parser.State.TheVariants as st;
ghost use Rattle.csv.specs.declared.reader.Trim.TheVariants as trim;
ghost use Rattle.wsegment.specs.Progress.{IsReading, Takes, known, records_left};
ghost use Rattle.wsegment.specs.declared.fault.SegmentFault.TheVariants.{NoHeader, NoMemory};

use crate::fault::SegmentFault;
use csv::{ByteRecord, ErrorKind, Reader, ReaderBuilder};
use std::alloc::{AllocError, Global};

// A reader of bytes, whose records may be of any length.
fn reader_over<'a>(alloc: Global, bytes: &'a [u8]) -> Reader<&'a [u8]>
    ensures plain { result.trim ≡ trim.None }
    ensures config { result.config ≡ default_config }
    ensures flexible { result.flexible ≡ true }
    ensures named { result.has_headers ≡ true }
    ensures state { result.state ≡ st.StartRecord }
    ensures source { source_of known result ≡ Some (strip_bom bytes.now) }
{
    ReaderBuilder::new()
        .flexible(true)
        .from_reader(alloc, bytes)
}

/// A reader of all records, of whatever lengths, the first as the others. It is given a header of no field, so that
/// it keeps no copy of the first record.
pub(crate) fn reader_of<'a>(alloc: Global, bytes: &'a [u8]) -> Result<Reader<&'a [u8]>, AllocError>
    ensures reading { IfOk result IsReading }
    ensures all { IfOk result (λ reader. records_left reader ≡ records default_config (strip_bom bytes.now)) }
{
    let mut reader = reader_over(alloc, bytes);
    match reader.set_byte_headers(ByteRecord::new(alloc)) {
        Ok(()) => Ok(reader),
        Err(_) => Err(AllocError),
    }
}

/// Takes the next record, and says whether there was one.
pub(crate) fn take_record(
    reader: &mut Reader<&[u8]>,
    row: &mut ByteRecord,
) -> Result<bool, AllocError>
    requires { IsReading reader.old }
    ensures { IfOk result (λ found. Takes reader.old reader.new found (fields_of row.new)) }
{
    match reader.read_byte_record(row) {
        Ok(found) => Ok(found),
        Err(e) => match e.kind() {
            // A slice gives no error of its own.
            ErrorKind::Io(_) | ErrorKind::OutOfMemory => Err(AllocError),
            _ => unreachable!(),
        },
    }
}

/// Takes the first record, or finds that there is none.
pub(crate) fn take_header(
    alloc: Global,
    reader: &mut Reader<&[u8]>,
) -> Result<ByteRecord, SegmentFault>
    requires { IsReading reader.old }
    ensures taken { IfOk result (λ header. Takes reader.old reader.new true (fields_of header)) }
    ensures fault { IfErr result (λ fault. (fault ≡ NoMemory) ⊎ ((fault ≡ NoHeader) × (records_left reader.old ≡ []))) }
{
    let mut header = ByteRecord::new(alloc);
    if !take_record(reader, &mut header)? {
        return Err(SegmentFault::NoHeader);
    }
    Ok(header)
}
