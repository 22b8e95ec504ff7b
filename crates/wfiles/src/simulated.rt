//! A folder in memory whose machine stops at a call, for tests of what replaces files: each method makes the call that it notes on a
//! disk in memory.
ghost use Rattle.std.specs.Prelude.{◌≡◌, ◌≢◌, ◌∷◌, is_ok, IfErr, IfOk, OnOk};
ghost use Rattle.wfiles.specs.Noting.{call_number, call_of};
ghost use Rattle.wfolder.specs.Calls.{HasCause, NothingFailed};
ghost use Rattle.wfolder.specs.Model.{IsLocked};

use crate::record::{CallKind, Record};
use crate::system::System;
use std::alloc::Global;
use std::io::{self, ErrorKind};
use wfolder::{Access, Disk, Fault, Folder};

/// A folder whose machine stops at a call: that one and each later one is a fault, and does nothing.
#[derive(Drop)]
pub struct Simulated<'a> {
    system: System<'a, ()>,
    trace: Record,
    disk: Disk,
    calls_left: usize,
}

impl<'a> Simulated<'a> {
    /// A folder that holds this, under a path, whose lock is held, and whose machine stops behind so many calls.
    pub fn new(disk: Disk, path: &str, calls_left: usize) -> Simulated<'a>
        ensures sound { NothingFailed result.system }
        ensures locked { IsLocked path.now result.trace.calls }
        ensures disk { result.disk ≡ disk }
    {
        let mut trace = Record::new();
        trace.note_call(CallKind::Locked, true, path.as_bytes(), &[]);
        Simulated {
            system: System::new(&()),
            trace,
            disk,
            calls_left,
        }
    }

    /// What it holds now.
    pub fn disk(&self) -> &Disk
        ensures { result.now ≡ self.now.disk }
    {
        &self.disk
    }

    // Whether the machine still runs at a call.
    fn runs(&mut self) -> bool
        ensures calls { self.new.trace.calls ≡ self.old.trace.calls }
        ensures system { self.new.system ≡ self.old.system }
    {
        let runs = self.calls_left > 0;
        self.calls_left = self.calls_left.saturating_sub(1);
        runs
    }

    // The answer to a call: one that is not done is a fault.
    fn told(&mut self, is_done: bool) -> Result<(), Fault>
        requires { NothingFailed self.old.system }
        ensures done { is_ok result ≡ is_done }
        ensures calls { self.new.trace.calls ≡ self.old.trace.calls }
        ensures kind { IfErr result (λ fault. fault ≢ Fault.Read) }
        ensures sound { OnOk result (NothingFailed self.new.system) }
        ensures cause { IfErr result (λ fault. HasCause fault self.new.system) }
    {
        if is_done {
            Ok(())
        } else {
            Err(self.system.misplaced())
        }
    }

    // Notes a call and answers it.
    fn answer(
        &mut self,
        kind: CallKind,
        is_done: bool,
        path: &[u8],
        bytes: &[u8],
    ) -> Result<(), Fault>
        requires { NothingFailed self.old.system }
        ensures calls { self.new.trace.calls ≡ call_of (call_number kind) (is_ok result) path.now bytes.now ∷ self.old.trace.calls }
        ensures kind { IfErr result (λ fault. fault ≢ Fault.Read) }
        ensures sound { OnOk result (NothingFailed self.new.system) }
        ensures cause { IfErr result (λ fault. HasCause fault self.new.system) }
    {
        self.trace.note_call(kind, is_done, path, bytes);
        self.told(is_done)
    }
}

impl Folder for Simulated<'_> {
    ghost calls = { λ f. f.trace.calls };

    ghost counts = { λ f. f.system };

    fn lacks_memory(&mut self) -> Fault {
        self.system.refused()
    }

    fn misplaced(&mut self) -> Fault {
        self.system.misplaced()
    }

    fn names(&mut self, alloc: Global, folder: &str) -> Result<Vec<String>, Fault> {
        if !self.runs() {
            self.trace
                .note_call(CallKind::Listed, false, folder.as_bytes(), &[]);
            let error = io::Error::from(ErrorKind::TimedOut);
            return Err(self.system.read_failed(&error));
        }
        let Ok(names) = self.disk.names(alloc, folder) else {
            self.trace
                .note_call(CallKind::Listed, false, folder.as_bytes(), &[]);
            return Err(self.system.refused());
        };
        self.trace.note_names(folder.as_bytes(), names.as_slice());
        Ok(names)
    }

    fn create_new(&mut self, path: &str, is_closed: bool) -> Result<bool, Fault> {
        if !self.runs() {
            self.trace.note_create(false, path.as_bytes(), is_closed);
            return Err(self.system.misplaced());
        }
        let made = self.disk.create(path);
        match made {
            Ok(false) => self.trace.note_taken(path.as_bytes(), is_closed),
            _ => self
                .trace
                .note_create(made.is_ok(), path.as_bytes(), is_closed),
        }
        self.system.grown(made)
    }

    fn permit(&mut self, path: &str, access: &Access) -> Result<(), Fault> {
        let is_done = self.runs();
        self.trace.note_permit(is_done, path.as_bytes(), access);
        self.told(is_done)
    }

    fn write(&mut self, path: &str, bytes: &[u8]) -> Result<(), Fault> {
        let is_done = self.runs() && self.disk.write(path, bytes);
        self.answer(CallKind::Wrote, is_done, path.as_bytes(), bytes)
    }

    fn sync(&mut self, path: &str) -> Result<(), Fault> {
        let is_done = self.runs() && self.disk.sync(path);
        self.answer(CallKind::Synced, is_done, path.as_bytes(), &[])
    }

    fn rename(&mut self, from: &str, to: &str) -> Result<(), Fault> {
        let is_done = self.runs() && self.disk.rename(from, to);
        self.answer(CallKind::Moved, is_done, from.as_bytes(), to.as_bytes())
    }

    fn sync_folder(&mut self) -> Result<(), Fault> {
        let is_done = self.runs();
        if is_done {
            self.disk.sync_names();
        }
        self.answer(CallKind::SyncedFolder, is_done, &[], &[])
    }

    fn remove(&mut self, path: &str) -> bool {
        let is_removed = self.runs() && self.disk.remove(path);
        self.trace
            .note_call(CallKind::Removed, is_removed, path.as_bytes(), &[]);
        is_removed
    }
}
