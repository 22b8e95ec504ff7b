//! The calls on a folder that replacing a store makes.
ghost use Rattle.std.specs.Prelude.{◌≡◌, ◌≢◌, ◌∷◌, List, None, Some, IfOk, IfErr, OnOk, OnErr, is_ok, false, map, string_bytes};
ghost use Rattle.wfolder.specs.Call.{Call, Listed, Created, Permitted, Wrote, Synced, Moved, SyncedFolder, Removed};
ghost use Rattle.wfolder.specs.Call.{made_or_taken, rights_of};
ghost use Rattle.wfolder.specs.Calls.{CallCounts, HasCause, NothingFailed};
ghost use Rattle.wfolder.specs.Model.{IsMadeLast};
ghost use Rattle.wfolder.specs.declared.fault.Fault.TheVariants.{NoMemory};

use crate::fault::Fault;
use std::alloc::Global;
use std::fs::Permissions;

/// Who may read and write a file.
#[derive(Drop)]
pub struct Access {
    /// The number of the user whose file it is.
    pub owner: u32,
    /// The number of its group.
    pub group: u32,
    /// What they and others may do.
    pub permissions: Permissions,
}

/// A folder whose calls are recorded with their answers. What they do to the folder, and what a crash may leave of it, the
/// definitions over this record say. Each fault has its cause in the counts. Of the new files the one that was made last is open: it
/// alone is given an access, written or synced, under the path that it was made under, and only while it stands there.
pub trait Folder {
    /// The calls that were made, the newest first.
    ghost calls: { Self → List Call };

    /// What is counted of the calls.
    ghost counts: { Self → CallCounts };

    /// The fault of a growth that was refused.
    fn lacks_memory(&mut self) -> Fault
        requires { NothingFailed (counts self.old) }
        ensures fault { result ≡ NoMemory }
        ensures calls { calls self.new ≡ calls self.old }
        ensures cause { HasCause result (counts self.new) };

    /// The fault of a path that is no place for a file.
    fn misplaced(&mut self) -> Fault
        requires { NothingFailed (counts self.old) }
        ensures fault { result ≡ Fault.Write }
        ensures calls { calls self.new ≡ calls self.old }
        ensures cause { HasCause result (counts self.new) };

    /// The names of the folder's files that begin as those of new files do.
    fn names(&mut self, alloc: Global, folder: &str) -> Result<Vec<String>, Fault>
        requires { NothingFailed (counts self.old) }
        ensures listed { IfOk result (λ names. calls self.new ≡ Listed folder.now (Some (map string_bytes names.items)) ∷ calls self.old) }
        ensures failed { OnErr result (calls self.new ≡ Listed folder.now None ∷ calls self.old) }
        ensures kind { IfErr result (λ fault. fault ≢ Fault.Write) }
        ensures sound { OnOk result (NothingFailed (counts self.new)) }
        ensures cause { IfErr result (λ fault. HasCause fault (counts self.new)) };

    /// Makes a new file, open for writing, and tells whether its name was free. One that is to have another's access is for its
    /// owner alone.
    fn create_new(&mut self, path: &str, is_closed: bool) -> Result<bool, Fault>
        requires { NothingFailed (counts self.old) }
        ensures made { IfOk result (λ is_made. calls self.new ≡ made_or_taken path.now is_closed is_made ∷ calls self.old) }
        ensures failed { OnErr result (calls self.new ≡ Created path.now is_closed false ∷ calls self.old) }
        ensures kind { IfErr result (λ fault. fault ≢ Fault.Read) }
        ensures sound { OnOk result (NothingFailed (counts self.new)) }
        ensures cause { IfErr result (λ fault. HasCause fault (counts self.new)) };

    /// Gives the file that was made last, under this path, an owner, a group and a mode.
    fn permit(&mut self, path: &str, access: &Access) -> Result<(), Fault>
        requires sound { NothingFailed (counts self.old) }
        requires made { IsMadeLast (calls self.old) path.now }
        ensures calls { calls self.new ≡ Permitted path.now (rights_of access.now) (is_ok result) ∷ calls self.old }
        ensures kind { IfErr result (λ fault. fault ≢ Fault.Read) }
        ensures sound { OnOk result (NothingFailed (counts self.new)) }
        ensures cause { IfErr result (λ fault. HasCause fault (counts self.new)) };

    /// Writes these bytes, all of them, at the end of the file that was made last, under this path.
    fn write(&mut self, path: &str, bytes: &[u8]) -> Result<(), Fault>
        requires sound { NothingFailed (counts self.old) }
        requires made { IsMadeLast (calls self.old) path.now }
        ensures calls { calls self.new ≡ Wrote path.now bytes.now (is_ok result) ∷ calls self.old }
        ensures kind { IfErr result (λ fault. fault ≢ Fault.Read) }
        ensures sound { OnOk result (NothingFailed (counts self.new)) }
        ensures cause { IfErr result (λ fault. HasCause fault (counts self.new)) };

    /// Brings the file that was made last, under this path, to the disk.
    fn sync(&mut self, path: &str) -> Result<(), Fault>
        requires sound { NothingFailed (counts self.old) }
        requires made { IsMadeLast (calls self.old) path.now }
        ensures calls { calls self.new ≡ Synced path.now (is_ok result) ∷ calls self.old }
        ensures kind { IfErr result (λ fault. fault ≢ Fault.Read) }
        ensures sound { OnOk result (NothingFailed (counts self.new)) }
        ensures cause { IfErr result (λ fault. HasCause fault (counts self.new)) };

    /// Moves a file over another.
    fn rename(&mut self, from: &str, to: &str) -> Result<(), Fault>
        requires { NothingFailed (counts self.old) }
        ensures calls { calls self.new ≡ Moved from.now to.now (is_ok result) ∷ calls self.old }
        ensures kind { IfErr result (λ fault. fault ≢ Fault.Read) }
        ensures sound { OnOk result (NothingFailed (counts self.new)) }
        ensures cause { IfErr result (λ fault. HasCause fault (counts self.new)) };

    /// Brings the names of the folder that is locked to the disk.
    fn sync_folder(&mut self) -> Result<(), Fault>
        requires { NothingFailed (counts self.old) }
        ensures calls { calls self.new ≡ SyncedFolder (is_ok result) ∷ calls self.old }
        ensures kind { IfErr result (λ fault. fault ≢ Fault.Read) }
        ensures sound { OnOk result (NothingFailed (counts self.new)) }
        ensures cause { IfErr result (λ fault. HasCause fault (counts self.new)) };

    /// Removes a file, if it can, and tells whether it did. One that cannot be removed is no failure.
    fn remove(&mut self, path: &str) -> bool
        ensures calls { calls self.new ≡ Removed path.now result ∷ calls self.old }
        ensures counts { counts self.new ≡ counts self.old };
}
