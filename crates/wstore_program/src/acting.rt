//! A subcommand on its files.
ghost use Rattle.std.specs.Prelude.{◌≡◌, ◌≢◌, [], None, Ok, true, IfOk, IfErr, IfNone, IfSome, OnErr, OnOk, Some, option_map};
ghost use Rattle.wsegment.specs.Spelling.{ReadsDeclaration};
ghost use Rattle.wbatch.specs.Batches.{stream_of};
ghost use Rattle.wcommand.specs.Inputs.{is_act, paths_of};
ghost use Rattle.wact.specs.Delivering.{IsFeed, IsRefusedSo};
ghost use Rattle.wact.specs.Streams.{Feeds};
ghost use Rattle.wstore_program.specs.Performing.{MissesInput, Performs, Puts, ReadsBytes, input_path, new_store};
ghost use Rattle.wstore_program.specs.Working.{Ends, FeedsFrom, FeedsNode, Finishes, Gives, GivesOn, IsCounted, IsGiven};
ghost use Rattle.wstore_program.specs.Working.{given_bytes, store_bytes};
ghost use Rattle.wfiles.specs.Place.{place_site};
ghost use Rattle.wfolder.specs.Calls.{HasCause, NothingFailed};
ghost use Rattle.wfolder.specs.Model.{IsLocked};
ghost use Rattle.wfolder.specs.Replacing.{fault_of};

use crate::explaining::{explain_refusal, explain_stream};
use crate::feeding::fill_from;
use crate::given::Given;
use crate::opening::{LONGEST_DECLARATION, hashed_of, opened};
use crate::work::Work;
use std::alloc::{AllocError, Global};
use std::fs::File;
use std::rt::{Clock, Files};
use wact::{Acted, Opened, Purpose, act, feed_node, feed_store, refused, undelivered};
use wbatch::{Batch, Stop};
use wcommand::{Choice, Paths};
use wexchange::Hashed;
use wfiles::{Place, Record, System, read_at_most, read_if_there, read_whole};
use wfolder::{Fault, NotReplaced};
use wsegment::LONGEST_SEGMENT;
use wstore::Node;

// What the subcommand gives on a store with these bytes, with these bytes of CSV or OTHER.
fn acted_on(
    alloc: Global,
    work: &Work<'_, '_>,
    store: &Option<Vec<u8>>,
    other: &[u8],
) -> Result<Acted, AllocError>
    requires { is_act work.now.choice.now ≡ true }
    ensures { IfOk result (GivesOn work.now (store_bytes store.now) other.now) }
{
    match store {
        Some(bytes) => act(
            alloc,
            work.choice,
            work.table,
            Some(bytes.as_slice()),
            other,
        ),
        None => act(alloc, work.choice, work.table, None, other),
    }
}

// What feeding gives on a store with these bytes.
fn fed_to(
    alloc: Global,
    work: &Work<'_, '_>,
    store: &Option<Vec<u8>>,
    batch: &Batch,
) -> Result<Acted, AllocError>
    requires feed { IsFeed work.now.choice.now }
    requires declared { ReadsDeclaration work.now.table.now (Ok batch.now.schema) }
    requires goes_on { batch.now.stopped ≡ None }
    requires whole { batch.now.held ≡ [] }
    ensures { IfOk result (GivesOn work.now (store_bytes store.now) (stream_of batch.now)) }
{
    feed_store(alloc, work.table, &hashed_of(store), batch)
}

// What the subcommand gives on a store with these bytes, given this.
fn acted(
    alloc: Global,
    work: &Work<'_, '_>,
    store: &Option<Vec<u8>>,
    given: &Given<'_>,
) -> Result<Acted, AllocError>
    requires { IsGiven work.now given.now }
    ensures { IfOk result (GivesOn work.now (store_bytes store.now) (given_bytes given.now)) }
{
    match *given {
        Given::Bytes(bytes) => acted_on(alloc, work, store, bytes),
        Given::Batch(batch) => fed_to(alloc, work, store, batch),
    }
}

// The bytes of CSV or OTHER, which lies under this path. CSV that is longer than a segment may be is not read to its end.
fn read_from<R: Files<File = File> + AllocGlobal>(
    alloc: Global,
    system: &mut System<'_, R>,
    calls: &mut Record,
    choice: &Choice<'_>,
    path: &str,
) -> Result<Vec<u8>, Fault>
    requires sound { NothingFailed system.old }
    requires named { input_path choice.now ≡ Some path.now }
    ensures read { IfOk result (λ bytes. ReadsBytes choice.now bytes.items calls.old.calls calls.new.calls) }
    ensures unread { OnErr result (MissesInput choice.now calls.old.calls calls.new.calls) }
    ensures sound { OnOk result (NothingFailed system.new) }
    ensures cause { IfErr result (λ fault. HasCause fault system.new) }
{
    match choice {
        Choice::Take { .. } => read_at_most(alloc, system, calls, path, LONGEST_SEGMENT),
        _ => read_whole(alloc, system, calls, path),
    }
}

// The bytes of CSV or OTHER, of which there are none where the subcommand has no such file.
fn read_input<R: Files<File = File> + AllocGlobal>(
    alloc: Global,
    system: &mut System<'_, R>,
    calls: &mut Record,
    choice: &Choice<'_>,
) -> Result<Vec<u8>, Fault>
    requires { NothingFailed system.old }
    ensures read { IfOk result (λ bytes. ReadsBytes choice.now bytes.items calls.old.calls calls.new.calls) }
    ensures unread { OnErr result (MissesInput choice.now calls.old.calls calls.new.calls) }
    ensures sound { OnOk result (NothingFailed system.new) }
    ensures cause { IfErr result (λ fault. HasCause fault system.new) }
{
    match choice.input() {
        Some(path) => read_from(alloc, system, calls, choice, path),
        None => Ok(Vec::new(alloc)),
    }
}

// What the subcommand gives on the bytes that stand there now, where it gave this on those that were read.
fn acted_again<R>(
    alloc: Global,
    system: &mut System<'_, R>,
    work: &Work<'_, '_>,
    now: &Option<Vec<u8>>,
    given: &Given<'_>,
    first: Acted,
) -> Result<Acted, Fault>
    requires gives { Gives work.now given.now first }
    requires sound { NothingFailed system.old }
    ensures acts { IfOk result (GivesOn work.now (store_bytes now.now) (given_bytes given.now)) }
    ensures kind { IfErr result (λ fault. fault ≡ Fault.NoMemory) }
    ensures sound { OnOk result (NothingFailed system.new) }
    ensures cause { IfErr result (λ fault. HasCause fault system.new) }
{
    if now == work.store {
        return Ok(first);
    }
    system.grown(acted(alloc, work, now, given))
}

// Puts the new store in its place, if the subcommand gives one on the bytes that were read there.
fn put<R: Files<File = File> + AllocGlobal>(
    alloc: Global,
    system: &mut System<'_, R>,
    calls: &mut Record,
    place: &Place,
    acted: &Acted,
) -> Result<(), NotReplaced>
    requires locked { IsLocked (place_site place.now).folder calls.old.calls }
    requires sound { NothingFailed system.old }
    ensures puts { Puts (place_site place.now) (option_map (λ store. store.items) acted.now.store) result
        calls.old.calls calls.new.calls }
    ensures sound { OnOk result (NothingFailed system.new) }
    ensures cause { IfErr result (λ fault. HasCause (fault_of fault) system.new) }
{
    match &acted.store {
        Some(bytes) => place.replace(alloc, system, calls, bytes.as_slice()),
        None => Ok(()),
    }
}

// Puts the new store in its place, while this run holds the lock of its folder. What another program has put there since the
// store was read is not lost: the subcommand is then done again, on what stands there now.
fn carry_out<R: Files<File = File> + AllocGlobal + Clock + Eprint>(
    alloc: Global,
    system: &mut System<'_, R>,
    calls: &mut Record,
    work: &Work<'_, '_>,
    given: &Given<'_>,
    first: Acted,
) -> Result<Acted, Fault>
    requires gives { Gives work.now given.now first }
    requires new { new_store first ≢ None }
    requires sound { NothingFailed system.old }
    ensures finished { Finishes work.now (given_bytes given.now) result calls.old.calls calls.new.calls }
    ensures counted { IsCounted result system.new }
{
    let mut place = match Place::find(alloc, system, calls, work.paths.store) {
        Ok(place) => place,
        Err(fault) => return Err(fault),
    };
    let now = match place.read(alloc, system, calls) {
        Ok(now) => now,
        Err(fault) => return Err(fault),
    };
    let last = match acted_again(alloc, system, work, &now, given, first) {
        Ok(last) => last,
        Err(fault) => return Err(fault),
    };
    match put(alloc, system, calls, &place, &last) {
        Ok(()) => Ok(last),
        Err(fault) => Err(fault.fault()),
    }
}

// Puts the new store in its place, if the subcommand gave one on the store that was read.
fn finish<R: Files<File = File> + AllocGlobal + Clock + Eprint>(
    alloc: Global,
    system: &mut System<'_, R>,
    calls: &mut Record,
    work: &Work<'_, '_>,
    given: &Given<'_>,
    first: Acted,
) -> Result<Acted, Fault>
    requires gives { Gives work.now given.now first }
    requires sound { NothingFailed system.old }
    ensures finished { Finishes work.now (given_bytes given.now) result calls.old.calls calls.new.calls }
    ensures counted { IsCounted result system.new }
{
    if first.store.is_none() {
        return Ok(first);
    }
    carry_out(alloc, system, calls, work, given, first)
}

// Does a subcommand on the bytes of CSV or OTHER.
fn perform_on_bytes<R: Files<File = File> + AllocGlobal + Clock + Eprint>(
    rt: &R,
    system: &mut System<'_, R>,
    calls: &mut Record,
    work: &Work<'_, '_>,
) -> Result<Acted, Fault>
    requires act { is_act work.now.choice.now ≡ true }
    requires sound { NothingFailed system.old }
    ensures ended { Ends work.now result calls.old.calls calls.new.calls }
    ensures counted { IsCounted result system.new }
{
    let alloc = rt.alloc();
    let other = match read_input(alloc, system, calls, work.choice) {
        Ok(other) => other,
        Err(fault) => return Err(fault),
    };
    let other = other.as_slice();
    let first = match system.grown(acted_on(alloc, work, work.store, other)) {
        Ok(first) => first,
        Err(fault) => return Err(fault),
    };
    explain_refusal(rt, work, other, &first);
    finish(alloc, system, calls, work, &Given::Bytes(other), first)
}

// What feeding gives on the node of the store that was read, if memory is there.
fn fed_on(
    alloc: Global,
    node: Node,
    hashed: &Option<Hashed<'_>>,
    batch: &Batch,
) -> Result<Acted, AllocError>
    requires declared { batch.now.schema ≡ node.schema }
    requires goes_on { batch.now.stopped ≡ None }
    requires whole { batch.now.held ≡ [] }
    ensures { IfOk result (λ acted. Feeds node.schema node.view hashed.now (stream_of batch.now) acted) }
{
    let mut node = node;
    feed_node(alloc, &mut node, hashed, batch)
}

// What feeding gives on the node of the store that was read.
fn fed<R>(
    alloc: Global,
    system: &mut System<'_, R>,
    node: Node,
    hashed: &Option<Hashed<'_>>,
    batch: &Batch,
) -> Result<Acted, Fault>
    requires declared { batch.now.schema ≡ node.schema }
    requires goes_on { batch.now.stopped ≡ None }
    requires whole { batch.now.held ≡ [] }
    requires sound { NothingFailed system.old }
    ensures feeds { IfOk result (λ acted. Feeds node.schema node.view hashed.now (stream_of batch.now) acted) }
    ensures kind { IfErr result (λ fault. fault ≡ Fault.NoMemory) }
    ensures sound { OnOk result (NothingFailed system.new) }
    ensures cause { IfErr result (λ fault. HasCause fault system.new) }
{
    system.grown(fed_on(alloc, node, hashed, batch))
}

// Delivers a batch to the node of the store that was read, and replaces the store where that gives a new one.
fn deliver<R: Files<File = File> + AllocGlobal + Clock + Eprint>(
    alloc: Global,
    system: &mut System<'_, R>,
    calls: &mut Record,
    work: &Work<'_, '_>,
    hashed: &Option<Hashed<'_>>,
    node: Node,
    batch: &Batch,
) -> Result<Acted, Fault>
    requires feeds { FeedsNode work.now hashed.now node }
    requires declared { batch.now.schema ≡ node.schema }
    requires goes_on { batch.now.stopped ≡ None }
    requires whole { batch.now.held ≡ [] }
    requires sound { NothingFailed system.old }
    ensures finished { Finishes work.now (stream_of batch.now) result calls.old.calls calls.new.calls }
    ensures counted { IsCounted result system.new }
{
    let first = match fed(alloc, system, node, hashed, batch) {
        Ok(first) => first,
        Err(fault) => return Err(fault),
    };
    finish(alloc, system, calls, work, &Given::Batch(batch), first)
}

// What is told of a stream that is refused.
fn refuse_stream<R: AllocGlobal + Eprint>(
    rt: &R,
    system: &mut System<'_, R>,
    work: &Work<'_, '_>,
    stream: &str,
    batch: &Batch,
    reason: Stop,
) -> Result<Acted, Fault>
    requires { NothingFailed system.old }
    ensures told { IfOk result (IsRefusedSo reason) }
    ensures kind { IfErr result (λ fault. fault ≡ Fault.NoMemory) }
    ensures counted { IsCounted result system.new }
{
    let acted = match system.grown(undelivered(rt.alloc(), reason)) {
        Ok(acted) => acted,
        Err(fault) => return Err(fault),
    };
    explain_stream(rt, work, stream, batch, &acted);
    Ok(acted)
}

// Feeds a stream to the node of the store that was read.
fn feed_from<R: Files<File = File> + AllocGlobal + Clock + Eprint>(
    rt: &R,
    system: &mut System<'_, R>,
    calls: &mut Record,
    work: &Work<'_, '_>,
    stream: &str,
    hashed: &Option<Hashed<'_>>,
    node: Node,
) -> Result<Acted, Fault>
    requires stream { FeedsFrom work.now.choice.now stream.now }
    requires feeds { FeedsNode work.now hashed.now node }
    requires sound { NothingFailed system.old }
    ensures ended { Ends work.now result calls.old.calls calls.new.calls }
    ensures counted { IsCounted result system.new }
{
    let alloc = rt.alloc();
    let schema = match system.grown(node.schema().copy()) {
        Ok(schema) => schema,
        Err(fault) => return Err(fault),
    };
    let mut batch = Batch::new(alloc, schema);
    match fill_from(system, calls, stream, &mut batch) {
        Ok(Some(reason)) => refuse_stream(rt, system, work, stream, &batch, reason),
        Ok(None) => deliver(alloc, system, calls, work, hashed, node, &batch),
        Err(fault) => Err(fault),
    }
}

// Feeds a stream.
fn perform_feed<R: Files<File = File> + AllocGlobal + Clock + Eprint>(
    rt: &R,
    system: &mut System<'_, R>,
    calls: &mut Record,
    work: &Work<'_, '_>,
    stream: &str,
) -> Result<Acted, Fault>
    requires stream { FeedsFrom work.now.choice.now stream.now }
    requires sound { NothingFailed system.old }
    ensures ended { Ends work.now result calls.old.calls calls.new.calls }
    ensures counted { IsCounted result system.new }
{
    let hashed = hashed_of(work.store);
    match opened(rt.alloc(), system, work.table, &hashed, Purpose::Telling) {
        Ok(Opened::Node(node)) => feed_from(rt, system, calls, work, stream, &hashed, node),
        Ok(Opened::Refused(text)) => {
            let acted = refused(text);
            explain_refusal(rt, work, &[], &acted);
            Ok(acted)
        }
        Err(fault) => Err(fault),
    }
}

// The stream of a choice that feeds.
fn stream_of_feed<'a>(choice: &Choice<'a>) -> Option<&'a str>
    ensures feeds { IfSome result (λ stream. FeedsFrom choice.now stream.now) }
    ensures other { IfNone result (IsFeed choice.now → ⊥) }
{
    match *choice {
        Choice::Feed { stream, .. } => Some(stream),
        _ => None,
    }
}

// Does a subcommand on the table and the store that were read.
fn perform_on<R: Files<File = File> + AllocGlobal + Clock + Eprint>(
    rt: &R,
    system: &mut System<'_, R>,
    calls: &mut Record,
    work: &Work<'_, '_>,
) -> Result<Acted, Fault>
    requires act { is_act work.now.choice.now ≡ true }
    requires sound { NothingFailed system.old }
    ensures ended { Ends work.now result calls.old.calls calls.new.calls }
    ensures counted { IsCounted result system.new }
{
    match stream_of_feed(work.choice) {
        Some(stream) => perform_feed(rt, system, calls, work, stream),
        None => perform_on_bytes(rt, system, calls, work),
    }
}

/// Reads the files of a subcommand, the table, the store, then CSV, OTHER or STREAM, and replaces the store where the subcommand gives
/// a new one. A stream is read in blocks, once the table and the store are judged, to its end or to the first message that cannot be
/// delivered; a table that is longer than a declaration may be is not read to its end, nor CSV that is longer than a segment may be,
/// since they are refused whatever follows. A reply is that of the subcommand on the bytes that were read under the paths of its words:
/// where there is a new store, on those that were read in its place while this run held the lock of its folder. A fault comes only
/// where a call failed or a growth was refused, and nothing else has failed then; the store is as it was, or it has the new bytes and
/// only its folder was not brought to the disk. A refusal is explained on standard error.
pub fn perform<R: Files<File = File> + AllocGlobal + Clock + Eprint>(
    rt: &R,
    system: &mut System<'_, R>,
    calls: &mut Record,
    choice: &Choice<'_>,
    paths: Paths<'_>,
) -> Result<Acted, Fault>
    requires choice { is_act choice.now ≡ true }
    requires named { paths_of choice.now ≡ Some paths }
    requires sound { NothingFailed system.old }
    ensures performed { Performs choice.now result calls.old.calls calls.new.calls }
    ensures counted { IsCounted result system.new }
{
    let alloc = rt.alloc();
    let table = match read_at_most(alloc, system, calls, paths.table, LONGEST_DECLARATION) {
        Ok(table) => table,
        Err(fault) => return Err(fault),
    };
    let store = match read_if_there(alloc, system, calls, paths.store) {
        Ok(store) => store,
        Err(fault) => return Err(fault),
    };
    let work = Work {
        choice,
        paths,
        table: table.as_slice(),
        store: &store,
    };
    perform_on(rt, system, calls, &work)
}
