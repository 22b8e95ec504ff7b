//! The calls that the program makes on files and streams, with a count of those that failed and of refused growths.
ghost use Rattle.std.specs.Prelude.{◌≡◌, ◌≢◌, ◌+◌, ◌≤◌, ◌↔◌, length, None, Some, Ok, Err, IfOk, IfErr, IfSome, IsNone, IsTrue, OnOk, OnErr};
ghost use Rattle.std.specs.IoError.{error_kind};
ghost use Rattle.std.specs.Fs.{IsReadonly};
ghost use Rattle.std.specs.Io.KnownBytes.{Appends};
ghost use Rattle.wfolder.specs.declared.fault.Fault.TheVariants.{NoMemory};
ghost use Rattle.wfolder.specs.Calls.{HasCause, NothingFailed};
ghost use Rattle.wfiles.specs.Reading.{GivesBytes};

use std::alloc::AllocError;
use std::fs::{self, File, Metadata, OpenFile, OpenOptions, Permissions, TryLockError};
use std::io::{self, ErrorKind, Read, Write};
use std::marker::Model;
use std::os::unix::fs::{MetadataExt, OpenOptionsExt, fchown};
use std::rt::{Clock, Files};
use std::thread;
use std::time::Duration;
use wfolder::{Access, Fault};

/// How often files are read at most.
const MOST_READS: u64 = 1 << 40;

/// The mode of a new file, of which the process's mask takes away.
const OPEN_MODE: u32 = 0o666;

/// The mode of a new file that nobody but its owner may read or write.
const CLOSED_MODE: u32 = 0o600;

/// How often the lock of a folder is tried for, a pause apart: for a minute.
const LOCK_TRIES: u32 = 6_000;

/// The milliseconds between two tries.
const PAUSE: u64 = 10;

/// What is told of a path that leads to no place for a file.
const NO_PLACE: &str = "here stands no plain file that may be written, and none can be made";

/// What is told of a lock that another program has.
const LOCK_WAIT: &str = "waiting for another program that holds the lock of the store's folder";

/// The try before which it is told that the lock is waited for: after a second.
const TOLD_TRY: u32 = 100;

/// The files of a system, with the number of reads, of the calls that failed and of the growths that were refused.
/// Nothing else can count a failure.
#[derive(Drop)]
pub struct System<'a, R> {
    files: &'a R,
    reads: u64,
    failed_reads: u64,
    failed_writes: u64,
    refused_growths: u64,
    /// Why the last call that failed did, which is for people alone.
    reason: Option<io::Error>,
}

impl<'a, R> Model for System<'a, R> {
    ghost use Rattle.wfolder.specs.Calls.{CallCounts};

    ghost Value = { CallCounts };

    ghost view = { λ s. record {
      reads = s.reads;
      failed_reads = s.failed_reads;
      failed_writes = s.failed_writes;
      refused_growths = s.refused_growths;
    } };
}

// Whether a call found no memory.
fn is_out_of_memory(error: &io::Error) -> bool
    ensures { IsTrue result ↔ (error_kind error.now ≡ ErrorKind.OutOfMemory) }
{
    error.kind() == ErrorKind::OutOfMemory
}

// What a call on a path answered, or `None` where nothing stands there. Any other failure tells nothing of what stands there.
fn if_there<T>(answer: io::Result<T>) -> io::Result<Option<T>>
    ensures there { IfOk answer (λ value. result ≡ Ok (Some value)) }
    ensures absent { IfErr answer (λ error. error_kind error ≡ ErrorKind.NotFound → result ≡ Ok None) }
    ensures unknown { IfErr answer (λ error. error_kind error ≢ ErrorKind.NotFound → result ≡ Err error) }
{
    match answer {
        Ok(value) => Ok(Some(value)),
        Err(error) if error.kind() == ErrorKind::NotFound => Ok(None),
        Err(error) => Err(error),
    }
}

// Makes a new file, if nothing has its name.
fn new_file<R: Files<File = File>>(files: &R, path: &str, is_closed: bool) -> io::Result<File> {
    let mode = if is_closed { CLOSED_MODE } else { OPEN_MODE };
    OpenOptions::new()
        .write(true)
        .create_new(true)
        .mode(mode)
        .open(files, path)
}

// Gives a file an owner and a group, if it has others, and then permissions.
fn give(file: &File, owner: u32, group: u32, permissions: Permissions) -> io::Result<()> {
    let metadata = file.metadata()?;
    if metadata.uid() != owner || metadata.gid() != group {
        fchown(file, Some(owner), Some(group))?;
    }
    file.set_permissions(permissions)
}

// Takes the lock of a folder. Where another program has it, this waits, says so after a second, and gives up after a minute.
fn take_lock<R: Clock + Eprint>(rt: &R, folder: &File) -> io::Result<()> {
    'tries: for number in 0..LOCK_TRIES {
        match folder.try_lock() {
            Ok(()) => return Ok(()),
            Err(TryLockError::Error(error)) => return Err(error),
            Err(TryLockError::WouldBlock) => {}
        }
        if number == TOLD_TRY {
            let _ = eprintln!(rt; "{LOCK_WAIT}");
        }
        thread::sleep(rt, Duration::from_millis(PAUSE));
    }
    Err(io::Error::from(ErrorKind::TimedOut))
}

impl<'a, R> System<'a, R> {
    /// Nothing has been counted yet.
    pub fn new(files: &'a R) -> Self
        ensures { NothingFailed result }
    {
        System {
            files,
            reads: 0,
            failed_reads: 0,
            failed_writes: 0,
            refused_growths: 0,
            reason: None,
        }
    }

    /// The same system, with the same counts.
    pub(crate) fn again(&self) -> System<'a, R>
        ensures { result ≡ self.now }
    {
        System {
            files: self.files,
            reads: self.reads,
            failed_reads: self.failed_reads,
            failed_writes: self.failed_writes,
            refused_growths: self.refused_growths,
            reason: self.reason,
        }
    }

    /// Why the last call that failed did, in the system's words, if one has.
    pub fn reason(&self) -> Option<io::Error> {
        self.reason
    }

    /// The fault of a growth that was refused.
    pub(crate) fn refused(&mut self) -> Fault
        requires { NothingFailed self.old }
        ensures fault { result ≡ NoMemory }
        ensures cause { HasCause result self.new }
    {
        self.refused_growths += 1;
        Fault::NoMemory
    }

    /// What a growth of memory made. `NoMemory` where it was refused, and nowhere else.
    pub fn grown<T>(&mut self, made: Result<T, AllocError>) -> Result<T, Fault>
        requires { NothingFailed self.old }
        ensures made { IfOk made (λ value. result ≡ Ok value) }
        ensures refused { OnErr made (result ≡ Err NoMemory) }
        ensures same { OnOk result (self.new ≡ self.old) }
        ensures sound { OnOk result (NothingFailed self.new) }
        ensures cause { IfErr result (λ fault. HasCause fault self.new) }
    {
        match made {
            Ok(value) => Ok(value),
            Err(_) => Err(self.refused()),
        }
    }

    /// The fault of a call that read.
    pub(crate) fn read_failed(&mut self, error: &io::Error) -> Fault
        requires { NothingFailed self.old }
        ensures memory { error_kind error.now ≡ ErrorKind.OutOfMemory → result ≡ NoMemory }
        ensures other { error_kind error.now ≢ ErrorKind.OutOfMemory → result ≡ Fault.Read }
        ensures kind { result ≢ Fault.Write }
        ensures cause { HasCause result self.new }
    {
        if is_out_of_memory(error) {
            return self.refused();
        }
        self.failed_reads += 1;
        self.reason = Some(*error);
        Fault::Read
    }

    // The fault of a call that wrote.
    fn write_failed(&mut self, error: &io::Error) -> Fault
        requires { NothingFailed self.old }
        ensures memory { error_kind error.now ≡ ErrorKind.OutOfMemory → result ≡ NoMemory }
        ensures other { error_kind error.now ≢ ErrorKind.OutOfMemory → result ≡ Fault.Write }
        ensures kind { result ≢ Fault.Read }
        ensures cause { HasCause result self.new }
    {
        if is_out_of_memory(error) {
            return self.refused();
        }
        self.failed_writes += 1;
        self.reason = Some(*error);
        Fault::Write
    }

    /// The fault of a path that leads to no place for a file.
    pub(crate) fn misplaced(&mut self) -> Fault
        requires { NothingFailed self.old }
        ensures fault { result ≡ Fault.Write }
        ensures cause { HasCause result self.new }
    {
        self.failed_writes += 1;
        self.reason = Some(io::Error::other(NO_PLACE));
        Fault::Write
    }

    /// Reads once, or tells by `None` that the read was interrupted.
    pub fn read<T: Read>(
        &mut self,
        reader: &mut T,
        block: &mut [u8],
    ) -> Result<Option<usize>, Fault>
        requires { NothingFailed self.old }
        ensures bound { IfOk result (λ count. IfSome count (λ n. n ≤ length block.new)) }
        ensures bytes { IfOk result (λ count. GivesBytes (T.remaining reader.old) (T.remaining reader.new) block.new count) }
        ensures reads { OnOk result (self.new.reads ≡ self.old.reads + 1) }
        ensures kind { IfErr result (λ fault. fault ≢ Fault.Write) }
        ensures sound { OnOk result (NothingFailed self.new) }
        ensures cause { IfErr result (λ fault. HasCause fault self.new) }
    {
        if self.reads >= MOST_READS {
            return Err(Fault::Read);
        }
        self.reads += 1;
        match reader.read(block) {
            Ok(count) => Ok(Some(count)),
            Err(error) if error.kind() == ErrorKind::Interrupted => Ok(None),
            Err(error) => Err(self.read_failed(&error)),
        }
    }

    /// Writes these bytes, all of them.
    pub fn write<W: Write>(&mut self, writer: &mut W, bytes: &[u8]) -> Result<(), Fault>
        requires { NothingFailed self.old }
        ensures bytes { OnOk result (Appends (W.contents writer.old) (W.contents writer.new) bytes.now) }
        ensures kind { IfErr result (λ fault. fault ≢ Fault.Read) }
        ensures sound { OnOk result (NothingFailed self.new) }
        ensures cause { IfErr result (λ fault. HasCause fault self.new) }
    {
        match writer.write_all(bytes) {
            Ok(()) => Ok(()),
            Err(error) => Err(self.write_failed(&error)),
        }
    }
}

impl<R: Files<File = File> + AllocGlobal> System<'_, R> {
    /// Opens a file that has to be there.
    pub fn open(&mut self, path: &str) -> Result<File, Fault>
        requires { NothingFailed self.old }
        ensures sound { OnOk result (NothingFailed self.new) }
        ensures cause { IfErr result (λ fault. HasCause fault self.new) }
    {
        match File::open(self.files, path) {
            Ok(file) => Ok(file),
            Err(error) => Err(self.read_failed(&error)),
        }
    }

    /// Opens a file, if there is one.
    pub fn open_if_there(&mut self, path: &str) -> Result<Option<File>, Fault>
        requires { NothingFailed self.old }
        ensures sound { OnOk result (NothingFailed self.new) }
        ensures cause { IfErr result (λ fault. HasCause fault self.new) }
    {
        match if_there(File::open(self.files, path)) {
            Ok(found) => Ok(found),
            Err(error) => Err(self.read_failed(&error)),
        }
    }

    // The permissions of a plain file with leave to write.
    fn permissions(&mut self, metadata: &Metadata) -> Result<Permissions, Fault>
        requires { NothingFailed self.old }
        ensures writable { IfOk result (λ permissions. IsReadonly permissions → ⊥) }
        ensures sound { OnOk result (NothingFailed self.new) }
        ensures cause { IfErr result (λ fault. HasCause fault self.new) }
    {
        let permissions = metadata.permissions();
        if !metadata.is_file() || permissions.readonly() {
            return Err(self.misplaced());
        }
        Ok(permissions)
    }

    /// Who may read and write the file that a path leads to, if there is one: a plain file with leave to write. Nothing else is
    /// replaced: a device, a pipe, a folder, a file without leave to write, or a link to nothing is no place for a file.
    pub fn replaceable(&mut self, path: &str) -> Result<Option<Access>, Fault>
        requires { NothingFailed self.old }
        ensures writable { IfOk result (λ found. IfSome found (λ access. IsReadonly access.permissions → ⊥)) }
        ensures sound { OnOk result (NothingFailed self.new) }
        ensures cause { IfErr result (λ fault. HasCause fault self.new) }
    {
        let metadata = match if_there(fs::metadata(self.files, path)) {
            Ok(Some(metadata)) => metadata,
            Ok(None) => return self.absent(path),
            Err(error) => return Err(self.write_failed(&error)),
        };
        let permissions = self.permissions(&metadata)?;
        Ok(Some(Access {
            owner: metadata.uid(),
            group: metadata.gid(),
            permissions,
        }))
    }

    // Nothing, where a path leads to nothing and is no link.
    fn absent(&mut self, path: &str) -> Result<Option<Access>, Fault>
        requires { NothingFailed self.old }
        ensures none { IfOk result (λ found. IsNone found) }
        ensures sound { OnOk result (NothingFailed self.new) }
        ensures cause { IfErr result (λ fault. HasCause fault self.new) }
    {
        match if_there(fs::symlink_metadata(self.files, path)) {
            Ok(Some(_)) => Err(self.misplaced()),
            Ok(None) => Ok(None),
            Err(error) => Err(self.write_failed(&error)),
        }
    }

    /// Whether a path leads to a link.
    pub(crate) fn is_link(&mut self, path: &str) -> Result<bool, Fault>
        requires { NothingFailed self.old }
        ensures sound { OnOk result (NothingFailed self.new) }
        ensures cause { IfErr result (λ fault. HasCause fault self.new) }
    {
        match if_there(fs::symlink_metadata(self.files, path)) {
            Ok(Some(metadata)) => Ok(metadata.is_symlink()),
            Ok(None) => Ok(false),
            Err(error) => Err(self.write_failed(&error)),
        }
    }

    /// The path of a file behind all links.
    pub fn real_path(&mut self, path: &str) -> Result<String, Fault>
        requires { NothingFailed self.old }
        ensures sound { OnOk result (NothingFailed self.new) }
        ensures cause { IfErr result (λ fault. HasCause fault self.new) }
    {
        match fs::canonicalize(self.files, path) {
            Ok(real) => Ok(real.into_string()),
            Err(error) => Err(self.write_failed(&error)),
        }
    }

    /// Makes a new file, if nothing has its name. One that is closed is for its owner alone.
    pub(crate) fn create_new(&mut self, path: &str, is_closed: bool) -> Result<Option<File>, Fault>
        requires { NothingFailed self.old }
        ensures kind { IfErr result (λ fault. fault ≢ Fault.Read) }
        ensures sound { OnOk result (NothingFailed self.new) }
        ensures cause { IfErr result (λ fault. HasCause fault self.new) }
    {
        match new_file(self.files, path, is_closed) {
            Ok(created) => Ok(Some(created)),
            Err(error) if error.kind() == ErrorKind::AlreadyExists => Ok(None),
            Err(error) => Err(self.write_failed(&error)),
        }
    }

    /// Gives a file this owner and group, and then the permissions, so that nobody may read it who may not read the other.
    pub(crate) fn permit(&mut self, file: &File, access: &Access) -> Result<(), Fault>
        requires { NothingFailed self.old }
        ensures kind { IfErr result (λ fault. fault ≢ Fault.Read) }
        ensures sound { OnOk result (NothingFailed self.new) }
        ensures cause { IfErr result (λ fault. HasCause fault self.new) }
    {
        let permissions = self.grown(access.permissions.clone())?;
        match give(file, access.owner, access.group, permissions) {
            Ok(()) => Ok(()),
            Err(error) => Err(self.write_failed(&error)),
        }
    }

    /// Brings a file or a folder to the disk.
    pub(crate) fn sync(&mut self, file: &File) -> Result<(), Fault>
        requires { NothingFailed self.old }
        ensures kind { IfErr result (λ fault. fault ≢ Fault.Read) }
        ensures sound { OnOk result (NothingFailed self.new) }
        ensures cause { IfErr result (λ fault. HasCause fault self.new) }
    {
        match file.sync_all() {
            Ok(()) => Ok(()),
            Err(error) => Err(self.write_failed(&error)),
        }
    }

    /// Moves a file over another.
    pub(crate) fn rename(&mut self, from: &str, to: &str) -> Result<(), Fault>
        requires { NothingFailed self.old }
        ensures kind { IfErr result (λ fault. fault ≢ Fault.Read) }
        ensures sound { OnOk result (NothingFailed self.new) }
        ensures cause { IfErr result (λ fault. HasCause fault self.new) }
    {
        match fs::rename(self.files, from, to) {
            Ok(()) => Ok(()),
            Err(error) => Err(self.write_failed(&error)),
        }
    }

    /// Removes a file, if there is one that can be removed, and tells whether it did. One that cannot is no failure.
    pub(crate) fn remove(&mut self, path: &str) -> bool
        ensures { self.new ≡ self.old }
    {
        fs::remove_file(self.files, path).is_ok()
    }

    /// A folder, which has to be there.
    pub(crate) fn folder(&mut self, path: &str) -> Result<File, Fault>
        requires { NothingFailed self.old }
        ensures sound { OnOk result (NothingFailed self.new) }
        ensures cause { IfErr result (λ fault. HasCause fault self.new) }
    {
        match File::open(self.files, path) {
            Ok(folder) => Ok(folder),
            Err(error) => Err(self.write_failed(&error)),
        }
    }

    /// The names in a folder, to be read, each ended by a zero byte.
    pub(crate) fn names(&mut self, path: &str) -> Result<R::Dir, Fault>
        requires { NothingFailed self.old }
        ensures kind { IfErr result (λ fault. fault ≢ Fault.Write) }
        ensures sound { OnOk result (NothingFailed self.new) }
        ensures cause { IfErr result (λ fault. HasCause fault self.new) }
    {
        match self.files.open_dir(path) {
            Ok(names) => Ok(names),
            Err(error) => Err(self.read_failed(&error)),
        }
    }
}

impl<R: Clock + Eprint> System<'_, R> {
    /// Takes the lock of a folder. Where another program has it, this waits for a minute at most, and says so on standard error
    /// after a second.
    pub(crate) fn lock(&mut self, folder: &File) -> Result<(), Fault>
        requires { NothingFailed self.old }
        ensures sound { OnOk result (NothingFailed self.new) }
        ensures cause { IfErr result (λ fault. HasCause fault self.new) }
    {
        match take_lock(self.files, folder) {
            Ok(()) => Ok(()),
            Err(error) => Err(self.write_failed(&error)),
        }
    }
}
