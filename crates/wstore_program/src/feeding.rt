//! A delivery stream, read in blocks into a batch.
ghost use Rattle.std.specs.Prelude.{◌≡◌, ◌⊎◌, ◌∷◌, [], None, Some, IfOk, IfErr, IfNone, IfSome, OnErr, OnOk};
ghost use Rattle.std.specs.Io.KnownBytes.{Consumes, IsAtEnd};
ghost use Rattle.wbatch.specs.Batches.{stream_of};
ghost use Rattle.wbatch.specs.Streams.{IsUndelivered};
ghost use Rattle.wfolder.specs.Call.{Found};
ghost use Rattle.wfolder.specs.Calls.{HasCause, NothingFailed};
ghost use Rattle.wfiles.specs.Reading.{MayBegin, ReadsMore, read_more, read_to_end};
ghost use Rattle.wstore_program.specs.Feeding.{IsRefusedStream, RefusesRead};

use std::fs::File;
use std::io::Read;
use std::rt::Files;
use wbatch::{Batch, Stop};
use wfiles::{Reading, Record, System};
use wfolder::Fault;

/// The bytes of a stream that are read at once.
const BLOCK: usize = 65_536;

// Why a stream that ends here is refused, if it is.
fn ended(batch: &Batch) -> Option<Stop>
    ensures goes_on { IfNone result (batch.now.stopped ≡ None) }
    ensures whole { IfNone result (batch.now.held ≡ []) }
    ensures refused { IfSome result (λ reason. (batch.now.stopped ≡ Some reason)
        ⊎ IsUndelivered batch.now.schema (stream_of batch.now) reason) }
{
    match batch.end() {
        Ok(()) => None,
        Err(reason) => Some(reason),
    }
}

// Fills a batch with what a reading has left, and answers why it is refused, if it is: no more is read then.
fn fill<R, T: Read>(
    system: &mut System<'_, R>,
    reading: &mut Reading<T>,
    batch: &mut Batch,
) -> Result<Option<Stop>, Fault>
    requires sound { NothingFailed system.old }
    requires new { stream_of batch.old ≡ [] }
    requires goes_on { batch.old.stopped ≡ None }
    ensures schema { OnOk result (batch.new.schema ≡ batch.old.schema) }
    ensures read { IfOk result (λ stopped. IfNone stopped (Consumes (T.remaining reading.old.reader)
        (T.remaining reading.new.reader) (stream_of batch.new) × IsAtEnd (T.remaining reading.new.reader))) }
    ensures noted { IfOk result (λ stopped. IfNone stopped (reading.new.calls
        ≡ read_to_end (read_more (stream_of batch.new) reading.old.calls))) }
    ensures goes_on { IfOk result (λ stopped. IfNone stopped (batch.new.stopped ≡ None)) }
    ensures whole { IfOk result (λ stopped. IfNone stopped (batch.new.held ≡ [])) }
    ensures refused { IfOk result (λ stopped. IfSome stopped (RefusesRead batch.old.schema (T.remaining reading.old.reader)
        (T.remaining reading.new.reader) reading.old.calls reading.new.calls)) }
    ensures begun { OnErr result (ReadsMore reading.old.calls reading.new.calls) }
    ensures sound { OnOk result (NothingFailed system.new) }
    ensures cause { IfErr result (λ fault. HasCause fault system.new) }
{
    let mut block = [0u8; BLOCK];
    'reads: loop {
        let count = match reading.read(system, &mut block) {
            Ok(Some(count)) => count,
            Ok(None) => continue,
            Err(fault) => return Err(fault),
        };
        if count == 0 {
            return Ok(ended(batch));
        }
        if let Err(reason) = batch.push(&block[..count]) {
            return Ok(Some(reason));
        }
    }
}

/// Fills a batch from the stream under a path, and answers why the stream is refused, if it is. It is read in blocks, to its end or
/// to the first message that cannot be delivered.
pub(crate) fn fill_from<R: Files<File = File> + AllocGlobal>(
    system: &mut System<'_, R>,
    calls: &mut Record,
    path: &str,
    batch: &mut Batch,
) -> Result<Option<Stop>, Fault>
    requires sound { NothingFailed system.old }
    requires new { stream_of batch.old ≡ [] }
    requires goes_on { batch.old.stopped ≡ None }
    ensures schema { OnOk result (batch.new.schema ≡ batch.old.schema) }
    ensures goes_on { IfOk result (λ stopped. IfNone stopped (batch.new.stopped ≡ None)) }
    ensures whole { IfOk result (λ stopped. IfNone stopped (batch.new.held ≡ [])) }
    ensures found { IfOk result (λ stopped. IfNone stopped (calls.new.calls ≡ Found path.now (Some (stream_of batch.new))
        ∷ calls.old.calls)) }
    ensures refused { IfOk result (λ stopped. IfSome stopped (IsRefusedStream batch.old.schema path.now calls.old.calls calls.new.calls)) }
    ensures begun { OnErr result (MayBegin path.now calls.old.calls calls.new.calls) }
    ensures sound { OnOk result (NothingFailed system.new) }
    ensures cause { IfErr result (λ fault. HasCause fault system.new) }
{
    let mut reading = match Reading::open(system, calls, path) {
        Ok(reading) => reading,
        Err(fault) => return Err(fault),
    };
    let stopped = fill(system, &mut reading, batch);
    *calls = reading.ended();
    stopped
}
