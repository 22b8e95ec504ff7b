//! Where a store stands, and how it is replaced there.
ghost use Rattle.std.specs.Prelude.{◌≡◌, ◌⊎◌, ◌∷◌, true, false, IfErr, IfOk, OnErr, OnOk, option_map, string_bytes};
ghost use Rattle.wfolder.specs.Call.{Checked, Followed, Locked, rights_of};
ghost use Rattle.wfolder.specs.Calls.{HasCause, NothingFailed};
ghost use Rattle.wfolder.specs.Model.{IsLocked};
ghost use Rattle.wfolder.specs.Names.{IsSited, site_at};
ghost use Rattle.wfolder.specs.Replacing.{Replaces, fault_of};
ghost use Rattle.wfiles.specs.Place.{FindsSite, FindsTarget, MissesFile, MissesLock, MissesTarget, folder_before, folder_of, name_of};
ghost use Rattle.wfiles.specs.Place.{path_behind, place_path, place_site, read_at};

use crate::files::read_if_there;
use crate::real::RealFolder;
use crate::record::{CallKind, Record};
use crate::system::System;
use std::alloc::Global;
use std::fs::File;
use std::mem;
use std::rt::{Clock, Files};
use wfolder::{Access, Fault, NotReplaced, Target, replace};

/// A file that may be replaced: a plain one that may be written, found behind the links to it, or none yet. While this
/// stands no other such program replaces a file of its folder.
#[derive(Drop)]
pub struct Place {
    target: Target,
    folder: File,
}

// The path of a folder, by what stands before a `/`.
fn folder_before(text: &str) -> &str
    ensures { result.now ≡ folder_before text.now }
{
    if text.is_empty() { "/" } else { text }
}

// The folder that a path stands in.
fn folder_of(path: &str) -> &str
    ensures { result.now ≡ folder_of path.now }
{
    match path.rsplit_once('/') {
        Some((text, _)) => folder_before(text),
        None => ".",
    }
}

// The name of a path's file in that folder.
fn name_of(path: &str) -> &str
    ensures { result.now ≡ name_of path.now }
{
    match path.rsplit_once('/') {
        Some((_, name)) => name,
        None => path,
    }
}

// The path that the link under a path leads to, behind all links, if a link stands there, and notes it.
fn follow<R: Files<File = File> + AllocGlobal>(
    system: &mut System<'_, R>,
    calls: &mut Record,
    path: &str,
) -> Result<Option<String>, Fault>
    requires { NothingFailed system.old }
    ensures followed { IfOk result (λ behind. calls.new.calls ≡ Followed path.now (option_map string_bytes behind) ∷ calls.old.calls) }
    ensures missed { OnErr result (calls.new.calls ≡ calls.old.calls) }
    ensures sound { OnOk result (NothingFailed system.new) }
    ensures cause { IfErr result (λ fault. HasCause fault system.new) }
{
    if !system.is_link(path)? {
        calls.note_call(CallKind::Followed, false, path.as_bytes(), &[]);
        return Ok(None);
    }
    let behind = system.real_path(path)?;
    calls.note_call(CallKind::Followed, true, path.as_bytes(), behind.as_bytes());
    Ok(Some(behind))
}

// The path of the file that is replaced: where it is no link, it is as it was given, so that it may be of any length and stand
// in a folder of any name.
fn path_behind<'a>(path: &'a str, behind: &'a Option<String>) -> &'a str
    ensures { result.now ≡ path_behind path.now (option_map string_bytes behind.now) }
{
    match behind {
        Some(behind) => behind.as_str(),
        None => path,
    }
}

// Opens the folder under a path and takes its lock, and notes under this path whether this run has it.
fn lock_folder<R: Files<File = File> + AllocGlobal + Clock + Eprint>(
    system: &mut System<'_, R>,
    calls: &mut Record,
    path: &str,
) -> Result<File, Fault>
    requires { NothingFailed system.old }
    ensures locked { OnOk result (calls.new.calls ≡ Locked path.now true ∷ calls.old.calls) }
    ensures missed { OnErr result ((calls.new.calls ≡ calls.old.calls) ⊎ (calls.new.calls ≡ Locked path.now false ∷ calls.old.calls)) }
    ensures sound { OnOk result (NothingFailed system.new) }
    ensures cause { IfErr result (λ fault. HasCause fault system.new) }
{
    let folder = system.folder(path)?;
    let locked = system.lock(&folder);
    calls.note_call(CallKind::Locked, locked.is_ok(), path.as_bytes(), &[]);
    match locked {
        Ok(()) => Ok(folder),
        Err(fault) => Err(fault),
    }
}

// Looks at what stands under a path, and notes who may read and write it, if it may be replaced.
fn check<R: Files<File = File> + AllocGlobal>(
    system: &mut System<'_, R>,
    calls: &mut Record,
    path: &str,
) -> Result<Option<Access>, Fault>
    requires { NothingFailed system.old }
    ensures checked { IfOk result (λ found. calls.new.calls ≡ Checked path.now (option_map rights_of found) ∷ calls.old.calls) }
    ensures unchecked { OnErr result (calls.new.calls ≡ calls.old.calls) }
    ensures sound { OnOk result (NothingFailed system.new) }
    ensures cause { IfErr result (λ fault. HasCause fault system.new) }
{
    match system.replaceable(path) {
        Ok(found) => {
            calls.note_check(path.as_bytes(), &found);
            Ok(found)
        }
        Err(fault) => Err(fault),
    }
}

// Where the file of a path stands, in the folder that the path names, if no later run would take it for what a killed one has left.
fn target_at<R>(
    alloc: Global,
    system: &mut System<'_, R>,
    path: &str,
    access: Option<Access>,
) -> Result<Target, Fault>
    requires { NothingFailed system.old }
    ensures site { IfOk result (λ target. target ≡ site_at (folder_of path.now) (name_of path.now) (option_map rights_of access)) }
    ensures sound { OnOk result (NothingFailed system.new) }
    ensures cause { IfErr result (λ fault. HasCause fault system.new) }
{
    let made = Target::new(alloc, folder_of(path), name_of(path), access);
    let target = system.grown(made)?;
    match target {
        Some(target) => Ok(target),
        None => Err(system.misplaced()),
    }
}

// Where the file stands that a path leads to, if it is a plain one or none yet, and no later run would take it for what a killed one
// has left. It is noted which path it is.
fn target_of<R: Files<File = File> + AllocGlobal>(
    alloc: Global,
    system: &mut System<'_, R>,
    calls: &mut Record,
    path: &str,
) -> Result<Target, Fault>
    requires { NothingFailed system.old }
    ensures found { IfOk result (λ target. FindsTarget path.now target calls.old.calls calls.new.calls) }
    ensures missed { OnErr result (MissesTarget path.now calls.old.calls calls.new.calls) }
    ensures sound { OnOk result (NothingFailed system.new) }
    ensures cause { IfErr result (λ fault. HasCause fault system.new) }
{
    let access = system.replaceable(path)?;
    let behind = follow(system, calls, path)?;
    target_at(alloc, system, path_behind(path, &behind), access)
}

impl Place {
    /// Where the file stands that a path leads to, behind the links to it, with the lock of its folder. It waits until no other such
    /// program replaces a file of the folder, for a minute at most; a folder that cannot be locked is a write fault, as is a name that
    /// new files have. At a fault this run does not have the lock.
    pub fn find<R: Files<File = File> + AllocGlobal + Clock + Eprint>(
        alloc: Global,
        system: &mut System<'_, R>,
        calls: &mut Record,
        path: &str,
    ) -> Result<Place, Fault>
        requires { NothingFailed system.old }
        ensures found { IfOk result (λ place. FindsSite path.now (place_site place) calls.old.calls calls.new.calls) }
        ensures sited { IfOk result (λ place. IsSited (place_site place)) }
        ensures missed { OnErr result (MissesLock path.now calls.old.calls calls.new.calls) }
        ensures sound { OnOk result (NothingFailed system.new) }
        ensures cause { IfErr result (λ fault. HasCause fault system.new) }
    {
        let target = target_of(alloc, system, calls, path)?;
        match lock_folder(system, calls, target.folder()) {
            Ok(folder) => Ok(Place { target, folder }),
            Err(fault) => Err(fault),
        }
    }

    /// The path of the file, behind the links to it.
    pub fn path(&self) -> &str
        ensures path { result.now ≡ place_path self.now }
        ensures sited { IsSited (place_site self.now) }
    {
        self.target.path()
    }

    /// The bytes of the file as it stands now, while no other run replaces it, if it may still be replaced. Who may read and write
    /// it is seen anew.
    pub fn read<R: Files<File = File> + AllocGlobal>(
        &mut self,
        alloc: Global,
        system: &mut System<'_, R>,
        calls: &mut Record,
    ) -> Result<Option<Vec<u8>>, Fault>
        requires { NothingFailed system.old }
        ensures path { place_path self.new ≡ place_path self.old }
        ensures folder { (place_site self.new).folder ≡ (place_site self.old).folder }
        ensures sited { IsSited (place_site self.new) }
        ensures found { IfOk result (λ held. calls.new.calls ≡ read_at (place_site self.new) (option_map (λ bytes. bytes.items) held)
            calls.old.calls) }
        ensures begun { OnErr result (MissesFile (place_site self.new) calls.old.calls calls.new.calls) }
        ensures sound { OnOk result (NothingFailed system.new) }
        ensures cause { IfErr result (λ fault. HasCause fault system.new) }
    {
        match check(system, calls, self.target.path()) {
            Ok(access) => {
                self.target.set_access(access);
                read_if_there(alloc, system, calls, self.target.path())
            }
            Err(fault) => Err(fault),
        }
    }

    /// Puts these bytes in the place of the file's, whole, as `replace` does. At a fault the file is as it was, but where only the
    /// folder could not be brought to the disk: then it has the new bytes.
    pub fn replace<R: Files<File = File> + AllocGlobal>(
        &self,
        alloc: Global,
        system: &mut System<'_, R>,
        calls: &mut Record,
        bytes: &[u8],
    ) -> Result<(), NotReplaced>
        requires sound { NothingFailed system.old }
        requires locked { IsLocked (place_site self.now).folder calls.old.calls }
        ensures replaces { Replaces (place_site self.now) bytes.now result calls.old.calls calls.new.calls }
        ensures sound { OnOk result (NothingFailed system.new) }
        ensures cause { IfErr result (λ fault. HasCause (fault_of fault) system.new) }
    {
        let trace = mem::replace(calls, Record::new());
        let mut folder = RealFolder::new(system.again(), trace, &self.folder);
        let replaced = replace(alloc, &mut folder, &self.target, bytes);
        let (counted, noted) = folder.ended();
        *system = counted;
        *calls = noted;
        replaced
    }
}
