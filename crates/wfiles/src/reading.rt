//! A file that is read in blocks. What was read of it is noted with each read.
ghost use Rattle.std.specs.Prelude.{◌≡◌, ◌≢◌, ◌+◌, ◌<◌, ◌≤◌, ◌∷◌, [], None, length, IfOk, IfErr, IfNone, IfSome, OnOk, OnErr};
ghost use Rattle.wfolder.specs.Call.{Began, Found};
ghost use Rattle.wfolder.specs.Calls.{HasCause, NothingFailed};
ghost use Rattle.wfiles.specs.Reading.{GivesBytes, NotesBytes};

use crate::record::{CallKind, Record};
use crate::system::System;
use std::fs::File;
use std::io::Read;
use std::marker::Model;
use std::mem;
use std::rt::Files;
use wfolder::Fault;

/// A file that is open to be read, and the record of the calls, to which nothing else adds meanwhile: its newest call is this
/// reading. Contracts see the reader and the calls.
#[derive(Drop)]
pub struct Reading<T> {
    reader: T,
    trace: Record,
}

impl<T> Model for Reading<T> {
    ghost use Rattle.wfiles.specs.Reading.{Readings};

    ghost Value = { Readings T };

    ghost view = { λ r. record { reader = r.reader; calls = r.trace.calls } };
}

impl<T> Reading<T> {
    /// The reader of the file of a path, of which nothing was read yet, behind these calls.
    pub(crate) fn begun(reader: T, trace: Record, path: &str) -> Reading<T>
        ensures { result ≡ record { reader = reader; calls = Began path.now [] ∷ trace.calls } }
    {
        let mut trace = trace;
        trace.note_call(CallKind::Began, true, path.as_bytes(), &[]);
        Reading { reader, trace }
    }
}

impl<T: Drop> Reading<T> {
    /// The calls that were made, this reading the newest.
    pub fn ended(self) -> Record
        ensures { result.calls ≡ self.calls }
    {
        self.trace
    }
}

impl<T: Read> Reading<T> {
    /// Reads once, or tells by `None` that the read was interrupted. Nothing is read at the end alone.
    pub fn read<R>(
        &mut self,
        system: &mut System<'_, R>,
        block: &mut [u8],
    ) -> Result<Option<usize>, Fault>
        requires sound { NothingFailed system.old }
        requires room { 0 < length block.old }
        ensures bound { IfOk result (λ count. IfSome count (λ n. n ≤ length block.new)) }
        ensures bytes { IfOk result (λ count. GivesBytes (T.remaining self.old.reader) (T.remaining self.new.reader) block.new count) }
        ensures noted { IfOk result (λ count. NotesBytes self.old.calls self.new.calls block.new count) }
        ensures unread { OnErr result (self.new.calls ≡ self.old.calls) }
        ensures reads { OnOk result (system.new.reads ≡ system.old.reads + 1) }
        ensures kind { IfErr result (λ fault. fault ≢ Fault.Write) }
        ensures sound { OnOk result (NothingFailed system.new) }
        ensures cause { IfErr result (λ fault. HasCause fault system.new) }
    {
        let count = match system.read(&mut self.reader, block) {
            Ok(Some(count)) => count,
            Ok(None) => return Ok(None),
            Err(fault) => return Err(fault),
        };
        self.trace.note_read(&block[..count]);
        Ok(Some(count))
    }
}

impl Reading<File> {
    /// Opens the file of a path, which has to be there. The record is taken over: `ended` gives it back.
    pub fn open<R: Files<File = File> + AllocGlobal>(
        system: &mut System<'_, R>,
        calls: &mut Record,
        path: &str,
    ) -> Result<Reading<File>, Fault>
        requires { NothingFailed system.old }
        ensures begun { IfOk result (λ reading. reading.calls ≡ Began path.now [] ∷ calls.old.calls) }
        ensures unread { OnErr result (calls.new.calls ≡ calls.old.calls) }
        ensures sound { OnOk result (NothingFailed system.new) }
        ensures cause { IfErr result (λ fault. HasCause fault system.new) }
    {
        match system.open(path) {
            Ok(file) => {
                let trace = mem::replace(calls, Record::new());
                Ok(Reading::begun(file, trace, path))
            }
            Err(fault) => Err(fault),
        }
    }

    /// Opens the file of a path, if there is one.
    pub fn open_if_there<R: Files<File = File> + AllocGlobal>(
        system: &mut System<'_, R>,
        calls: &mut Record,
        path: &str,
    ) -> Result<Option<Reading<File>>, Fault>
        requires { NothingFailed system.old }
        ensures begun { IfOk result (λ found. IfSome found (λ reading. reading.calls ≡ Began path.now [] ∷ calls.old.calls)) }
        ensures none { IfOk result (λ found. IfNone found (calls.new.calls ≡ Found path.now None ∷ calls.old.calls)) }
        ensures unread { OnErr result (calls.new.calls ≡ calls.old.calls) }
        ensures sound { OnOk result (NothingFailed system.new) }
        ensures cause { IfErr result (λ fault. HasCause fault system.new) }
    {
        match system.open_if_there(path) {
            Ok(Some(file)) => {
                let trace = mem::replace(calls, Record::new());
                Ok(Some(Reading::begun(file, trace, path)))
            }
            Ok(None) => {
                calls.note_call(CallKind::Found, false, path.as_bytes(), &[]);
                Ok(None)
            }
            Err(fault) => Err(fault),
        }
    }
}
