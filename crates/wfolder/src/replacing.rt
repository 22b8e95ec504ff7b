//! A store, replaced whole.
ghost use Rattle.std.specs.Prelude.{◌≡◌, ◌≢◌, ◌↔◌, ◌∷◌, ◌++◌, [], Some, true, false, IfOk, IfErr, IfSome, IsTrue};
ghost use Rattle.std.specs.Prelude.{OnOk, is_ok, is_some, option_map, string_bytes};
ghost use Rattle.wfolder.specs.Calls.{HasCause, NothingFailed};
ghost use Rattle.wfolder.specs.Names.{IsNewBeside, IsNewName, numbered_path};
ghost use Rattle.wfolder.specs.Order.{Beside, Brings, Clears, ClearsOne, GivesUp, Idle, LeavesBeside, LeavesIdle, Makes, MakesNew};
ghost use Rattle.wfolder.specs.Order.{Placed, new_file};
ghost use Rattle.wfolder.specs.Call.{SyncedFolder};
ghost use Rattle.wfolder.specs.Model.{IsLocked, IsMadeLast};
ghost use Rattle.wfolder.specs.Replacing.{IsUnsynced, Replaces, fault_of};

use crate::fault::Fault;
use crate::folder::Folder;
use crate::names::{is_new_name, path_in};
use crate::target::Target;
use std::alloc::{AllocError, Global};

/// How many names are tried for a new file.
const TRIES: u32 = 1000;

// The path of a file beside the store whose name is that of a new one.
fn path_beside(alloc: Global, target: &Target, name: &str) -> Result<Option<String>, AllocError>
    ensures beside { IfOk result (λ found. IfSome found (λ path. IsNewBeside target.now.path (string_bytes path)
        × (string_bytes path ≢ target.now.path))) }
    ensures is { IfOk result (λ found. IfSome found (λ path. string_bytes path ≡ target.now.folder ++ 47 ∷ name.now)) }
    ensures found { IfOk result (λ found. IsTrue (is_some found) ↔ IsNewName name.now) }
{
    if !is_new_name(name.as_bytes()) {
        return Ok(None);
    }
    let path = path_in(alloc, target.folder(), name)?;
    Ok(Some(path))
}

// Gives the new file the access of the old one, if there is one.
fn allow<F: Folder>(folder: &mut F, target: &Target, new: &str) -> Result<(), Fault>
    requires sound { NothingFailed (F.counts folder.old) }
    requires made { IsMadeLast (F.calls folder.old) new.now }
    ensures given { OnOk result (Brings target.now (F.calls folder.old) (new_file target.now new.now)
        (F.calls folder.new) (Beside new.now true (Some []) false)) }
    ensures last { OnOk result (IsMadeLast (F.calls folder.new) new.now) }
    ensures left { IfErr result (λ fault. LeavesBeside target.now new.now fault (F.calls folder.old) (F.calls folder.new)) }
    ensures sound { OnOk result (NothingFailed (F.counts folder.new)) }
    ensures cause { IfErr result (λ fault. HasCause fault (F.counts folder.new)) }
{
    match target.access() {
        Some(access) => folder.permit(new, access),
        None => Ok(()),
    }
}

// The bytes, in the new file, on the disk.
fn fill<F: Folder>(folder: &mut F, target: &Target, new: &str, bytes: &[u8]) -> Result<(), Fault>
    requires sound { NothingFailed (F.counts folder.old) }
    requires made { IsMadeLast (F.calls folder.old) new.now }
    ensures filled { OnOk result (Brings target.now (F.calls folder.old) (new_file target.now new.now)
        (F.calls folder.new) (Beside new.now true (Some bytes.now) true)) }
    ensures left { IfErr result (λ fault. LeavesBeside target.now new.now fault (F.calls folder.old) (F.calls folder.new)) }
    ensures sound { OnOk result (NothingFailed (F.counts folder.new)) }
    ensures cause { IfErr result (λ fault. HasCause fault (F.counts folder.new)) }
{
    allow(folder, target, new)?;
    folder.write(new, bytes)?;
    folder.sync(new)
}

// The bytes in the new file, and then in the store's place.
fn put<F: Folder>(folder: &mut F, target: &Target, new: &str, bytes: &[u8]) -> Result<(), Fault>
    requires sound { NothingFailed (F.counts folder.old) }
    requires made { IsMadeLast (F.calls folder.old) new.now }
    ensures placed { OnOk result (Brings target.now (F.calls folder.old) (new_file target.now new.now)
        (F.calls folder.new) (Placed bytes.now)) }
    ensures left { IfErr result (λ fault. LeavesBeside target.now new.now fault (F.calls folder.old) (F.calls folder.new)) }
    ensures sound { OnOk result (NothingFailed (F.counts folder.new)) }
    ensures cause { IfErr result (λ fault. HasCause fault (F.counts folder.new)) }
{
    fill(folder, target, new, bytes)?;
    folder.rename(new, target.path())
}

// Makes a new file of this path, if the name is free.
fn create_at<F: Folder>(
    folder: &mut F,
    target: &Target,
    path: String,
) -> Result<Option<String>, Fault>
    requires sound { NothingFailed (F.counts folder.old) }
    requires ours { IsNewBeside target.now.path (string_bytes path) }
    requires other { string_bytes path ≢ target.now.path }
    ensures makes { IfOk result (λ found. MakesNew target.now (string_bytes path) (F.calls folder.old) (F.calls folder.new)
        (option_map (λ name. string_bytes name) found)) }
    ensures last { IfOk result (λ found. IfSome found (λ name. IsMadeLast (F.calls folder.new) (string_bytes name))) }
    ensures idle { IfErr result (λ fault. GivesUp target.now fault (F.calls folder.old) (F.calls folder.new)) }
    ensures sound { OnOk result (NothingFailed (F.counts folder.new)) }
    ensures cause { IfErr result (λ fault. HasCause fault (F.counts folder.new)) }
{
    match folder.create_new(path.as_str(), target.access().is_some()) {
        Ok(true) => Ok(Some(path)),
        Ok(false) => Ok(None),
        Err(fault) => Err(fault),
    }
}

// Makes a new file under the name with this number, if it is free.
fn try_new<F: Folder>(
    alloc: Global,
    folder: &mut F,
    target: &Target,
    number: u32,
) -> Result<Option<String>, Fault>
    requires sound { NothingFailed (F.counts folder.old) }
    ensures makes { IfOk result (λ found. MakesNew target.now (numbered_path target.now.folder number) (F.calls folder.old)
        (F.calls folder.new) (option_map (λ name. string_bytes name) found)) }
    ensures last { IfOk result (λ found. IfSome found (λ name. IsMadeLast (F.calls folder.new) (string_bytes name))) }
    ensures idle { IfErr result (λ fault. GivesUp target.now fault (F.calls folder.old) (F.calls folder.new)) }
    ensures sound { OnOk result (NothingFailed (F.counts folder.new)) }
    ensures cause { IfErr result (λ fault. HasCause fault (F.counts folder.new)) }
{
    let Ok(name) = format!(in alloc; ".wstore-{number}") else {
        return Err(folder.lacks_memory());
    };
    match path_beside(alloc, target, name.as_str()) {
        Ok(Some(path)) => create_at(folder, target, path),
        Ok(None) => Ok(None),
        Err(_) => Err(folder.lacks_memory()),
    }
}

// Makes a new file beside the store, under a name that is free.
fn make_new<F: Folder>(alloc: Global, folder: &mut F, target: &Target) -> Result<String, Fault>
    requires sound { NothingFailed (F.counts folder.old) }
    ensures made { IfOk result (λ name. Makes target.now (F.calls folder.old) (F.calls folder.new) (string_bytes name)) }
    ensures last { IfOk result (λ name. IsMadeLast (F.calls folder.new) (string_bytes name)) }
    ensures idle { IfErr result (λ fault. GivesUp target.now fault (F.calls folder.old) (F.calls folder.new)) }
    ensures sound { OnOk result (NothingFailed (F.counts folder.new)) }
    ensures cause { IfErr result (λ fault. HasCause fault (F.counts folder.new)) }
{
    'tries: for number in 0..TRIES {
        match try_new(alloc, folder, target, number) {
            Ok(Some(path)) => return Ok(path),
            Ok(None) => {}
            Err(fault) => return Err(fault),
        }
    }
    Err(folder.misplaced())
}

// Removes a file of this name, if the name is that of a new file: a run that was killed has left it.
fn clear_name<F: Folder>(
    alloc: Global,
    folder: &mut F,
    target: &Target,
    name: &str,
) -> Result<(), Fault>
    requires sound { NothingFailed (F.counts folder.old) }
    ensures cleared { OnOk result (ClearsOne target.now name.now (F.calls folder.old) (F.calls folder.new)) }
    ensures idle { IfErr result (λ fault. LeavesIdle target.now fault (F.calls folder.old) (F.calls folder.new)) }
    ensures sound { OnOk result (NothingFailed (F.counts folder.new)) }
    ensures cause { IfErr result (λ fault. HasCause fault (F.counts folder.new)) }
{
    match path_beside(alloc, target, name) {
        Ok(Some(path)) => {
            folder.remove(path.as_str());
            Ok(())
        }
        Ok(None) => Ok(()),
        Err(_) => Err(folder.lacks_memory()),
    }
}

// Removes what runs that were killed have left in the folder. This run holds its lock, so no other is at work there.
fn clear<F: Folder>(alloc: Global, folder: &mut F, target: &Target) -> Result<(), Fault>
    requires sound { NothingFailed (F.counts folder.old) }
    ensures cleared { OnOk result (Clears target.now (F.calls folder.old) (F.calls folder.new)) }
    ensures idle { IfErr result (λ fault. LeavesIdle target.now fault (F.calls folder.old) (F.calls folder.new)) }
    ensures sound { OnOk result (NothingFailed (F.counts folder.new)) }
    ensures cause { IfErr result (λ fault. HasCause fault (F.counts folder.new)) }
{
    let names = match folder.names(alloc, target.folder()) {
        Ok(names) => names,
        Err(fault) => return Err(fault),
    };
    'names: for name in names.iter() {
        if let Err(fault) = clear_name(alloc, folder, target, name.as_str()) {
            return Err(fault);
        }
    }
    Ok(())
}

// Makes the new file, where nothing of an earlier run is left.
fn begin<F: Folder>(alloc: Global, folder: &mut F, target: &Target) -> Result<String, Fault>
    requires sound { NothingFailed (F.counts folder.old) }
    ensures made { IfOk result (λ name. Brings target.now (F.calls folder.old) Idle (F.calls folder.new)
        (new_file target.now (string_bytes name))) }
    ensures last { IfOk result (λ name. IsMadeLast (F.calls folder.new) (string_bytes name)) }
    ensures idle { IfErr result (λ fault. LeavesIdle target.now fault (F.calls folder.old) (F.calls folder.new)) }
    ensures sound { OnOk result (NothingFailed (F.counts folder.new)) }
    ensures cause { IfErr result (λ fault. HasCause fault (F.counts folder.new)) }
{
    match clear(alloc, folder, target) {
        Ok(()) => make_new(alloc, folder, target),
        Err(fault) => Err(fault),
    }
}

/// Why a store is not replaced, or may not stay so.
#[derive(Clone, Copy, Debug, PartialEq, Eq)]
pub enum NotReplaced {
    /// The store is as it was.
    Kept(Fault),
    /// The store has the new bytes, but its folder was not brought to the disk: a crash may leave what it might have left before.
    Unsynced(Fault),
}

impl NotReplaced {
    /// The fault behind it.
    pub fn fault(self) -> Fault
        ensures { result ≡ fault_of self }
    {
        match self {
            NotReplaced::Kept(fault) => fault,
            NotReplaced::Unsynced(fault) => fault,
        }
    }
}

// Brings the folder to the disk, once the store is replaced.
fn sync_folder<F: Folder>(folder: &mut F) -> Result<(), NotReplaced>
    requires { NothingFailed (F.counts folder.old) }
    ensures calls { F.calls folder.new ≡ SyncedFolder (is_ok result) ∷ F.calls folder.old }
    ensures unsynced { IfErr result (λ fault. IsUnsynced fault) }
    ensures kind { IfErr result (λ fault. fault_of fault ≢ Fault.Read) }
    ensures sound { OnOk result (NothingFailed (F.counts folder.new)) }
    ensures cause { IfErr result (λ fault. HasCause (fault_of fault) (F.counts folder.new)) }
{
    match folder.sync_folder() {
        Ok(()) => Ok(()),
        Err(fault) => Err(NotReplaced::Unsynced(fault)),
    }
}

/// Puts these bytes in the place of the store's, whole, while this run holds the lock of its folder. They are written into a
/// new file beside it, which is brought to the disk and moved over the store, and then the folder is brought to the disk. A
/// machine that stops in any of the calls leaves the store that it might have left before, or these bytes. `Ok`: the store has
/// these bytes, and a crash leaves them. Only what this run made in the store's own folder, or what a run that was killed has left
/// there, is changed or removed; and of what this run made nothing stays but the store, unless its removal is refused.
pub fn replace<F: Folder>(
    alloc: Global,
    folder: &mut F,
    target: &Target,
    bytes: &[u8],
) -> Result<(), NotReplaced>
    requires sound { NothingFailed (F.counts folder.old) }
    requires locked { IsLocked target.now.folder (F.calls folder.old) }
    ensures replaces { Replaces target.now bytes.now result (F.calls folder.old) (F.calls folder.new) }
    ensures sound { OnOk result (NothingFailed (F.counts folder.new)) }
    ensures cause { IfErr result (λ fault. HasCause (fault_of fault) (F.counts folder.new)) }
{
    let new = match begin(alloc, folder, target) {
        Ok(new) => new,
        Err(fault) => return Err(NotReplaced::Kept(fault)),
    };
    if let Err(fault) = put(folder, target, new.as_str(), bytes) {
        folder.remove(new.as_str());
        return Err(NotReplaced::Kept(fault));
    }
    sync_folder(folder)
}
