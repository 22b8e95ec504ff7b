//! The calls that were made on files and folders, in a list that only clauses read.
ghost use Rattle.std.specs.Prelude.{◌≡◌, List, [], ◌∷◌, Some, map, option_map, string_bytes};
ghost use Rattle.std.specs.Borrow.{ftrue};
ghost use Rattle.wfolder.specs.Call.{Call, Checked, Created, Listed, Permitted, Taken, rights_of};
ghost use Rattle.wfiles.specs.Noting.{call_number, call_of, noted, read_on};

use std::marker::{Model, PhantomData};
use std::os::unix::fs::PermissionsExt;
use wfolder::Access;

/// A call that is noted with whether it was done, under a path, and with bytes where it has some.
#[derive(Clone, Copy)]
pub(crate) enum CallKind {
    /// A folder is opened and locked.
    Locked,
    /// A file is found to have these bytes, or not to be there.
    Found,
    /// A new file is made.
    Created,
    /// A new file is made, for its owner alone.
    CreatedClosed,
    /// A file is written.
    Wrote,
    /// A file is brought to the disk.
    Synced,
    /// A file is moved to the path that its bytes are.
    Moved,
    /// The folder is brought to the disk.
    SyncedFolder,
    /// A file is removed.
    Removed,
    /// A file is begun to be read.
    Began,
    /// The names of a folder's files are listed.
    Listed,
    /// A name for a new file is taken.
    Taken,
    /// The same of one that is for its owner alone.
    TakenClosed,
    /// A path is found to lead to the path that its bytes are, or to be no link.
    Followed,
}

impl CallKind {
    // The number under which it is noted.
    fn number(self) -> u64
        ensures { result ≡ call_number self }
    {
        match self {
            CallKind::Locked => 0,
            CallKind::Found => 1,
            CallKind::Created => 2,
            CallKind::CreatedClosed => 3,
            CallKind::Wrote => 4,
            CallKind::Synced => 5,
            CallKind::Moved => 6,
            CallKind::SyncedFolder => 7,
            CallKind::Removed => 8,
            CallKind::Began => 9,
            CallKind::Listed => 10,
            CallKind::Taken => 11,
            CallKind::TakenClosed => 12,
            CallKind::Followed => 13,
        }
    }
}

// The first number of what is no call by its number.
const UNNUMBERED: u64 = 0;

// The second number: whether the call was done.
const UNDONE: u64 = 0;

const DONE: u64 = 1;

// The third number: a call by its number, what a read gave, a name that was listed, an access that was given, or what a look found.
const CALL: u64 = 0;

const BYTES: u64 = 1;

const NAME: u64 = 2;

const ACCESS: u64 = 3;

const CHECK: u64 = 4;

/// The calls that read files, and those on the folder of a store, the newest first. It takes no room: only clauses read it, and only
/// this crate adds to it.
#[derive(Drop)]
pub struct Record {
    marker: PhantomData<u8>,
    pub ghost calls: { List Call },
}

impl Model for Record {
    ghost also_owns = { λ _. ftrue };
}

impl Record {
    /// No call was made.
    pub fn new() -> Record
        ensures { result.calls ≡ [] }
    {
        Record {
            marker: PhantomData,
        }
    }

    pub(crate) fn note(&mut self, _numbers: &[u64], _name: &[u8], _bytes: &[u8])
        ensures { self.new.calls ≡ noted _numbers.now _name.now _bytes.now self.old.calls }
    {}

    /// Notes a call of a kind.
    pub(crate) fn note_call(&mut self, kind: CallKind, is_done: bool, path: &[u8], bytes: &[u8])
        ensures { self.new.calls ≡ call_of (call_number kind) is_done path.now bytes.now ∷ self.old.calls }
    {
        let number = kind.number();
        if is_done {
            self.note(&[number, DONE, CALL], path, bytes);
        } else {
            self.note(&[number, UNDONE, CALL], path, bytes);
        }
    }

    /// Notes that a new file is made, for its owner alone or not, or could not be made.
    pub(crate) fn note_create(&mut self, is_made: bool, path: &[u8], is_closed: bool)
        ensures { self.new.calls ≡ Created path.now is_closed is_made ∷ self.old.calls }
    {
        let kind = if is_closed {
            CallKind::CreatedClosed
        } else {
            CallKind::Created
        };
        self.note_call(kind, is_made, path, &[]);
    }

    /// Notes that no new file is made, since its name is taken.
    pub(crate) fn note_taken(&mut self, path: &[u8], is_closed: bool)
        ensures { self.new.calls ≡ Taken path.now is_closed ∷ self.old.calls }
    {
        let kind = if is_closed {
            CallKind::TakenClosed
        } else {
            CallKind::Taken
        };
        self.note_call(kind, true, path, &[]);
    }

    /// Notes that the file of a path is given an access, or is not.
    pub(crate) fn note_permit(&mut self, is_done: bool, path: &[u8], access: &Access)
        ensures { self.new.calls ≡ Permitted path.now (rights_of access.now) is_done ∷ self.old.calls }
    {
        let owner = u64::from(access.owner);
        let group = u64::from(access.group);
        let mode = u64::from(access.permissions.mode());
        if is_done {
            self.note(&[UNNUMBERED, DONE, ACCESS, owner, group, mode], path, &[]);
        } else {
            self.note(&[UNNUMBERED, UNDONE, ACCESS, owner, group, mode], path, &[]);
        }
    }

    /// Notes that what stands under a path was looked at and may be replaced: a file of this access, or none.
    pub(crate) fn note_check(&mut self, path: &[u8], found: &Option<Access>)
        ensures { self.new.calls ≡ Checked path.now (option_map rights_of found.now) ∷ self.old.calls }
    {
        match found {
            Some(access) => {
                let owner = u64::from(access.owner);
                let group = u64::from(access.group);
                let mode = u64::from(access.permissions.mode());
                self.note(&[UNNUMBERED, DONE, CHECK, owner, group, mode], path, &[]);
            }
            None => self.note(&[UNNUMBERED, UNDONE, CHECK], path, &[]),
        }
    }

    /// Notes that these names of a folder's files were listed.
    pub(crate) fn note_names(&mut self, folder: &[u8], names: &[String])
        ensures { self.new.calls ≡ Listed folder.now (Some (map string_bytes names.now)) ∷ self.old.calls }
    {
        self.note_call(CallKind::Listed, true, folder, &[]);
        'names: for name in names.iter() {
            self.note(&[UNNUMBERED, UNDONE, NAME], name.as_bytes(), &[]);
        }
    }

    /// Notes that a read of the file that the newest call began to read gave these bytes, none at its end.
    pub(crate) fn note_read(&mut self, block: &[u8])
        ensures { self.new.calls ≡ read_on block.now self.old.calls }
    {
        self.note(&[UNNUMBERED, UNDONE, BYTES], &[], block);
    }
}
