//! Files, read whole, or as far as they are not too long.
ghost use Rattle.std.specs.Prelude.{◌≡◌, ◌≢◌, ◌↔◌, ◌+◌, ◌≤◌, ◌∷◌, None, Some, IfOk, IfErr, IfSome, IsTrue, OnOk, OnErr};
ghost use Rattle.std.specs.Prelude.{[], ◌++◌, length, map, option_map, string_bytes};
ghost use Rattle.std.specs.Io.KnownBytes.{Consumes, IsAtEnd};
ghost use Rattle.wfolder.specs.Call.{Found};
ghost use Rattle.wfolder.specs.Calls.{HasCause, NothingFailed};
ghost use Rattle.wfolder.specs.Names.{IsNewName};
ghost use Rattle.wfiles.specs.Listing.{FindsNew, IsOneOf, Keeps, ListsNew, names_in};
ghost use Rattle.wfiles.specs.Reading.{IsOver, MayBegin, ReadsAtMost, ReadsMore, TakesBytes};

use crate::reading::Reading;
use crate::record::Record;
use crate::system::System;
use std::alloc::{AllocError, Global};
use std::fs::File;
use std::io::Read;
use std::rt::Files;
use std::str;
use wfolder::Fault;

/// The bytes that are read at once.
const BLOCK: usize = 65_536;

/// From how many bytes on a file is long.
const LONG: usize = 1 << 20;

/// The room that is made for a long file: so much that the C library takes it from the system by itself, and makes it longer in place.
const ROOM: usize = 1 << 25;

// Whether it is more than so many, where a number is given.
fn is_over(most: Option<usize>, count: usize) -> bool
    ensures { IsTrue result ↔ IsOver most count }
{
    match most {
        Some(most) => count > most,
        None => false,
    }
}

// Adds a block, and makes room for a long file before: what its first bytes were read into, and is let go then, is small. The room is a
// matter of memory alone.
fn push_block(bytes: &mut Vec<u8>, block: &[u8]) -> Result<(), AllocError>
    ensures { OnOk result (bytes.new.items ≡ bytes.old.items ++ block.now) }
{
    if bytes.len() >= LONG && bytes.capacity() < ROOM {
        let _ = bytes.reserve(ROOM);
    }
    bytes.extend_from_slice(block)
}

// All that a reading has left; or the first of it, once that is more than so many bytes, where a number is given.
fn read_rest<R, T: Read>(
    alloc: Global,
    system: &mut System<'_, R>,
    reading: &mut Reading<T>,
    most: Option<usize>,
) -> Result<Vec<u8>, Fault>
    requires { NothingFailed system.old }
    ensures bytes { IfOk result (λ bytes. Consumes (T.remaining reading.old.reader) (T.remaining reading.new.reader) bytes.items) }
    ensures noted { IfOk result (λ bytes. TakesBytes most (IsAtEnd (T.remaining reading.new.reader)) bytes.items
        reading.old.calls reading.new.calls) }
    ensures bound { IfOk result (λ bytes. IfSome most (λ n. length bytes.items ≤ n + 65536)) }
    ensures begun { OnErr result (ReadsMore reading.old.calls reading.new.calls) }
    ensures kind { IfErr result (λ fault. fault ≢ Fault.Write) }
    ensures sound { OnOk result (NothingFailed system.new) }
    ensures cause { IfErr result (λ fault. HasCause fault system.new) }
{
    let mut bytes = Vec::new(alloc);
    let mut block = [0u8; BLOCK];
    'reads: loop {
        let count = match reading.read(system, &mut block) {
            Ok(Some(count)) => count,
            Ok(None) => continue,
            Err(fault) => return Err(fault),
        };
        if count == 0 {
            return Ok(bytes);
        }
        if let Err(fault) = system.grown(push_block(&mut bytes, &block[..count])) {
            return Err(fault);
        }
        if is_over(most, bytes.len()) {
            return Ok(bytes);
        }
    }
}

// What `read_rest` reads of a file. The record is given back.
fn read_file<R>(
    alloc: Global,
    system: &mut System<'_, R>,
    calls: &mut Record,
    reading: Reading<File>,
    most: Option<usize>,
) -> Result<Vec<u8>, Fault>
    requires { NothingFailed system.old }
    ensures noted { IfOk result (λ bytes. TakesBytes most Unit bytes.items reading.calls calls.new.calls) }
    ensures bound { IfOk result (λ bytes. IfSome most (λ n. length bytes.items ≤ n + 65536)) }
    ensures begun { OnErr result (ReadsMore reading.calls calls.new.calls) }
    ensures sound { OnOk result (NothingFailed system.new) }
    ensures cause { IfErr result (λ fault. HasCause fault system.new) }
{
    let mut reading = reading;
    let bytes = read_rest(alloc, system, &mut reading, most);
    *calls = reading.ended();
    bytes
}

/// The bytes of a file, or `None` where there is none.
pub fn read_if_there<R: Files<File = File> + AllocGlobal>(
    alloc: Global,
    system: &mut System<'_, R>,
    calls: &mut Record,
    path: &str,
) -> Result<Option<Vec<u8>>, Fault>
    requires { NothingFailed system.old }
    ensures found { IfOk result (λ held. calls.new.calls ≡ Found path.now (option_map (λ bytes. bytes.items) held) ∷ calls.old.calls) }
    ensures begun { OnErr result (MayBegin path.now calls.old.calls calls.new.calls) }
    ensures sound { OnOk result (NothingFailed system.new) }
    ensures cause { IfErr result (λ fault. HasCause fault system.new) }
{
    let reading = match Reading::open_if_there(system, calls, path) {
        Ok(Some(reading)) => reading,
        Ok(None) => return Ok(None),
        Err(fault) => return Err(fault),
    };
    match read_file(alloc, system, calls, reading, None) {
        Ok(bytes) => Ok(Some(bytes)),
        Err(fault) => Err(fault),
    }
}

/// The bytes of a file that has to be there.
pub fn read_whole<R: Files<File = File> + AllocGlobal>(
    alloc: Global,
    system: &mut System<'_, R>,
    calls: &mut Record,
    path: &str,
) -> Result<Vec<u8>, Fault>
    requires { NothingFailed system.old }
    ensures found { IfOk result (λ bytes. calls.new.calls ≡ Found path.now (Some bytes.items) ∷ calls.old.calls) }
    ensures begun { OnErr result (MayBegin path.now calls.old.calls calls.new.calls) }
    ensures sound { OnOk result (NothingFailed system.new) }
    ensures cause { IfErr result (λ fault. HasCause fault system.new) }
{
    match Reading::open(system, calls, path) {
        Ok(reading) => read_file(alloc, system, calls, reading, None),
        Err(fault) => Err(fault),
    }
}

/// The bytes of a file that has to be there, all of them where they are at most so many; else the first of them, somewhat more
/// than so many, and the file is not read further.
pub fn read_at_most<R: Files<File = File> + AllocGlobal>(
    alloc: Global,
    system: &mut System<'_, R>,
    calls: &mut Record,
    path: &str,
    most: usize,
) -> Result<Vec<u8>, Fault>
    requires { NothingFailed system.old }
    ensures found { IfOk result (λ bytes. ReadsAtMost path.now most bytes.items calls.old.calls calls.new.calls) }
    ensures bound { IfOk result (λ bytes. length bytes.items ≤ most + 65536) }
    ensures begun { OnErr result (MayBegin path.now calls.old.calls calls.new.calls) }
    ensures sound { OnOk result (NothingFailed system.new) }
    ensures cause { IfErr result (λ fault. HasCause fault system.new) }
{
    match Reading::open(system, calls, path) {
        Ok(reading) => read_file(alloc, system, calls, reading, Some(most)),
        Err(fault) => Err(fault),
    }
}

// Adds a name to those that were found, if it begins as the names of new files do.
fn push_new(alloc: Global, found: &mut Vec<String>, name: &[u8]) -> Result<(), AllocError>
    ensures kept { OnOk result (Keeps (map string_bytes found.old.items) (map string_bytes found.new.items)) }
    ensures pushed { OnOk result (IsNewName name.now → IsOneOf name.now (map string_bytes found.new.items)) }
{
    if name.strip_prefix(b".wstore-").is_none() {
        return Ok(());
    }
    match str::from_utf8(name) {
        Ok(text) => {
            found.push(String::from_str(alloc, text)?)?;
            Ok(())
        }
        Err(_) => Ok(()),
    }
}

// Those of the names that begin as the names of new files do. Each ends in a zero byte.
fn new_names(alloc: Global, names: &[u8]) -> Result<Vec<String>, AllocError>
    ensures finds { IfOk result (λ found. FindsNew (names_in [] names.now) (map string_bytes found.items)) }
{
    let mut found = Vec::new(alloc);
    let mut name = Vec::new(alloc);
    'bytes: for byte in names.iter() {
        if *byte != 0 {
            name.push(*byte)?;
            continue;
        }
        push_new(alloc, &mut found, name.as_slice())?;
        name.clear();
    }
    Ok(found)
}

// The names that begin as those of new files do, of all that a reading of a folder's names has left.
fn list_names<R, T: Read>(
    alloc: Global,
    system: &mut System<'_, R>,
    reading: &mut Reading<T>,
) -> Result<Vec<String>, Fault>
    requires { NothingFailed system.old }
    ensures listed { IfOk result (λ names. ListsNew (T.remaining reading.old.reader) (T.remaining reading.new.reader)
        (map string_bytes names.items)) }
    ensures kind { IfErr result (λ fault. fault ≢ Fault.Write) }
    ensures sound { OnOk result (NothingFailed system.new) }
    ensures cause { IfErr result (λ fault. HasCause fault system.new) }
{
    match read_rest(alloc, system, reading, None) {
        Ok(names) => system.grown(new_names(alloc, names.as_slice())),
        Err(fault) => Err(fault),
    }
}

/// The names of a folder's files that begin as those of new files do.
pub(crate) fn read_names<R: Files<File = File> + AllocGlobal>(
    alloc: Global,
    system: &mut System<'_, R>,
    path: &str,
) -> Result<Vec<String>, Fault>
    requires { NothingFailed system.old }
    ensures kind { IfErr result (λ fault. fault ≢ Fault.Write) }
    ensures sound { OnOk result (NothingFailed system.new) }
    ensures cause { IfErr result (λ fault. HasCause fault system.new) }
{
    let folder = system.names(path)?;
    let mut reading = Reading::begun(folder, Record::new(), path);
    list_names(alloc, system, &mut reading)
}
