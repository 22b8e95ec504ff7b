//! The folder of a system. Each method makes the call that it notes, and notes what was answered: that is what the theorems over
//! the record rest on, and no proof shows it. The file that is given an access, written or synced is the open one, that which was made
//! last, and the path that is noted is its own: callers may pass no other.
ghost use Rattle.std.specs.Prelude.{◌≡◌, ◌∷◌, is_ok, IfErr, OnOk};
ghost use Rattle.wfiles.specs.Noting.{call_number, call_of};
ghost use Rattle.wfolder.specs.Calls.{HasCause, NothingFailed};

use crate::files::read_names;
use crate::record::{CallKind, Record};
use crate::system::System;
use std::alloc::Global;
use std::fs::File;
use std::rt::Files;
use wfolder::{Access, Fault, Folder};

/// A folder of the operating system, and the new file that was made last.
#[derive(Drop)]
pub(crate) struct RealFolder<'s, 'a, R> {
    system: System<'a, R>,
    folder: &'s File,
    made: Option<File>,
    trace: Record,
}

impl<'s, 'a, R> RealFolder<'s, 'a, R> {
    /// An open folder, on which these calls were made.
    pub(crate) fn new(system: System<'a, R>, trace: Record, folder: &'s File) -> Self
        ensures system { result.system ≡ system.entry }
        ensures calls { result.trace.calls ≡ trace.calls }
    {
        RealFolder {
            system,
            folder,
            made: None,
            trace,
        }
    }

    /// The system with what was counted, and the calls that were made.
    pub(crate) fn ended(self) -> (System<'a, R>, Record)
        ensures system { result.0 ≡ self.entry.system }
        ensures calls { result.1.calls ≡ self.entry.trace.calls }
    {
        (self.system.again(), self.trace)
    }

    // Notes a call.
    fn note(&mut self, kind: CallKind, is_done: bool, path: &[u8], bytes: &[u8])
        ensures calls { self.new.trace.calls ≡ call_of (call_number kind) is_done path.now bytes.now ∷ self.old.trace.calls }
        ensures system { self.new.system ≡ self.old.system }
    {
        self.trace.note_call(kind, is_done, path, bytes);
    }
}

impl<R: Files<File = File> + AllocGlobal> Folder for RealFolder<'_, '_, R> {
    ghost calls = { λ f. f.trace.calls };

    ghost counts = { λ f. f.system };

    fn lacks_memory(&mut self) -> Fault {
        self.system.refused()
    }

    fn misplaced(&mut self) -> Fault {
        self.system.misplaced()
    }

    fn names(&mut self, alloc: Global, folder: &str) -> Result<Vec<String>, Fault> {
        match read_names(alloc, &mut self.system, folder) {
            Ok(names) => {
                self.trace.note_names(folder.as_bytes(), names.as_slice());
                Ok(names)
            }
            Err(fault) => {
                self.note(CallKind::Listed, false, folder.as_bytes(), &[]);
                Err(fault)
            }
        }
    }

    fn create_new(&mut self, path: &str, is_closed: bool) -> Result<bool, Fault> {
        match self.system.create_new(path, is_closed) {
            Ok(Some(file)) => {
                self.made = Some(file);
                self.trace.note_create(true, path.as_bytes(), is_closed);
                Ok(true)
            }
            Ok(None) => {
                self.trace.note_taken(path.as_bytes(), is_closed);
                Ok(false)
            }
            Err(fault) => {
                self.trace.note_create(false, path.as_bytes(), is_closed);
                Err(fault)
            }
        }
    }

    fn permit(&mut self, path: &str, access: &Access) -> Result<(), Fault> {
        let given = match &self.made {
            Some(file) => self.system.permit(file, access),
            None => Err(self.system.misplaced()),
        };
        self.trace
            .note_permit(given.is_ok(), path.as_bytes(), access);
        given
    }

    fn write(&mut self, path: &str, bytes: &[u8]) -> Result<(), Fault> {
        let written = match &mut self.made {
            Some(file) => self.system.write(file, bytes),
            None => Err(self.system.misplaced()),
        };
        self.note(CallKind::Wrote, written.is_ok(), path.as_bytes(), bytes);
        written
    }

    fn sync(&mut self, path: &str) -> Result<(), Fault> {
        let synced = match &self.made {
            Some(file) => self.system.sync(file),
            None => Err(self.system.misplaced()),
        };
        self.note(CallKind::Synced, synced.is_ok(), path.as_bytes(), &[]);
        synced
    }

    fn rename(&mut self, from: &str, to: &str) -> Result<(), Fault> {
        let moved = self.system.rename(from, to);
        self.note(
            CallKind::Moved,
            moved.is_ok(),
            from.as_bytes(),
            to.as_bytes(),
        );
        moved
    }

    fn sync_folder(&mut self) -> Result<(), Fault> {
        let synced = self.system.sync(self.folder);
        self.note(CallKind::SyncedFolder, synced.is_ok(), &[], &[]);
        synced
    }

    fn remove(&mut self, path: &str) -> bool {
        let is_removed = self.system.remove(path);
        self.note(CallKind::Removed, is_removed, path.as_bytes(), &[]);
        is_removed
    }
}
