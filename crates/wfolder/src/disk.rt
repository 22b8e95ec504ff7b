//! What a folder in memory holds, and what a crash leaves of it. Its calls do what `specs/Model.antt` says of a disk, for tests of what
//! replaces files. What is told of a crash is less than the model allows: of bytes that were not synced only beginnings.
ghost use Rattle.std.specs.Prelude.{◌≡◌, ◌≢◌, ◌<◌, ◌++◌, ◌∷◌, [], IfOk, IfSome, IsTrue, OnOk, OnErr, map, option_map, position};
ghost use Rattle.std.specs.Prelude.{◌⊎◌, Bool, bytes_eq, false, is_none, is_some, string_bytes, true, vec_len};
ghost use Rattle.std.specs.List.{AllByRecursion};
ghost use Rattle.wfolder.specs.Call.{Moved, Removed, Synced, SyncedFolder, Wrote, made_or_taken};
ghost use Rattle.wfolder.specs.Model.{Does, MayHold};
ghost use Rattle.wfolder.specs.Memory.{AreKnown, IsEntry, IsKnown, appended, are_distinct, behind, brought, changed, file_at, held_by};
ghost use Rattle.wfolder.specs.Memory.{leading_of, leads};
ghost use Rattle.wfolder.specs.Memory.{led, new_name, new_names, relinked, settled, shorter_states, states_at, states_of, states_under};
ghost use Rattle.wfolder.specs.Memory.{written_file};

use std::alloc::{AllocError, Global};

// What a text has behind this, if it begins so.
fn behind<'t>(text: &'t str, front: &str) -> Option<&'t str>
    ensures { option_map (λ rest. rest.now) result ≡ behind front.now text.now }
{
    text.strip_prefix(front)
}

// The bytes of a file, and whether they were brought to the disk: else a crash may cut them anywhere.
#[derive(Drop)]
struct Written {
    bytes: Vec<u8>,
    is_synced: bool,
}

impl Written {
    // Adds bytes at the end, all of them or none, and tells whether it did.
    fn append(&mut self, bytes: &[u8]) -> bool
        ensures { written_file self.new ≡ appended bytes.now result (written_file self.old) }
    {
        self.is_synced = false;
        self.bytes.extend_from_slice(bytes).is_ok()
    }

    // Each beginning of it that is shorter, behind what is there.
    fn push_shorter<'d>(&'d self, left: &mut Vec<Option<&'d [u8]>>) -> Result<(), AllocError>
        ensures { OnOk result (held_by left.new.items ≡ held_by left.old.items ++ shorter_states (written_file self.now)) }
    {
        for length in 0..self.bytes.len() {
            left.push(self.bytes.get(..length))?;
        }
        Ok(())
    }

    // What a crash may leave of it, behind what is there.
    fn push_left<'d>(&'d self, left: &mut Vec<Option<&'d [u8]>>) -> Result<(), AllocError>
        ensures { OnOk result (held_by left.new.items ≡ held_by left.old.items ++ states_of (written_file self.now)) }
    {
        if !self.is_synced {
            self.push_shorter(left)?;
        }
        left.push(Some(self.bytes.as_slice()))?;
        Ok(())
    }
}

/// A path, and the files to which a crash may leave it leading.
#[derive(Drop)]
pub struct Entry {
    /// The path.
    pub path: String,
    // the numbers of the files where it led, or none, the oldest first
    earlier: Vec<Option<usize>>,
    // where it leads now
    file: Option<usize>,
}

impl Entry {
    // Its name in a folder, if it leads to a file and the name begins as those of new files do.
    fn new_name(&self, folder: &str) -> Option<&str>
        ensures { option_map (λ name. name.now) result ≡ new_name folder.now (leading_of self.now) }
    {
        self.file?;
        let rest = behind(self.path.as_str(), folder)?;
        let name = behind(rest, "/")?;
        behind(name, ".wstore-")?;
        Some(name)
    }

    // Adds that name to others, if there is one.
    fn push_name(
        &self,
        alloc: Global,
        folder: &str,
        names: &mut Vec<String>,
    ) -> Result<(), AllocError>
        ensures { OnOk result (map string_bytes names.new.items
            ≡ map string_bytes names.old.items ++ new_names folder.now (leading_of self.now ∷ [])) }
    {
        let Some(name) = self.new_name(folder) else {
            return Ok(());
        };
        let name = String::from_str(alloc, name)?;
        names.push(name)?;
        Ok(())
    }

    // Leads it to a file or to none: a crash may leave it leading where it led.
    fn lead(&mut self, file: Option<usize>) -> Result<(), AllocError>
        ensures ok { OnOk result (leading_of self.new ≡ relinked file (leading_of self.old)) }
        ensures err { OnErr result (leading_of self.new ≡ leading_of self.old) }
    {
        self.earlier.push(self.file)?;
        self.file = file;
        Ok(())
    }
}

// Brings the paths to the disk.
fn settle(entries: &mut [Entry])
    ensures { map leading_of entries.new ≡ map settled (map leading_of entries.old) }
{
    for entry in entries.iter_mut() {
        entry.earlier.clear();
    }
}

/// What a folder holds, and what a crash may leave of it.
#[derive(Drop)]
pub struct Disk {
    alloc: Global,
    files: Vec<Written>,
    entries: Vec<Entry>,
    ghost known: { AreKnown (vec_len files) (map leading_of entries.items) },
    ghost distinct: { are_distinct (map leading_of entries.items) ≡ true },
}

impl Disk {
    ghost use Rattle.wfolder.specs.Disk.{IsAlike, disk_of, entries_of, files_of};
    ghost use Rattle.wfolder.specs.Disk.{entries_left, entries_linked, entries_made, entries_moved, files_made};

    /// An empty folder.
    pub fn new(alloc: Global) -> Disk
        ensures entries { entries_of result ≡ [] }
        ensures files { files_of result ≡ [] }
    {
        Disk {
            alloc,
            files: Vec::new(alloc),
            entries: Vec::new(alloc),
        }
    }

    /// Each path that led to a file.
    pub fn entries(&self) -> &[Entry]
        ensures listed { map leading_of result.now ≡ entries_of self.now }
        ensures each { AllByRecursion (IsEntry (entries_of self.now)) (map leading_of result.now) }
    {
        self.entries.as_slice()
    }

    // The place of a path among the entries.
    fn place_of(&self, path: &str) -> Option<usize>
        ensures { result ≡ position (λ entry. bytes_eq (string_bytes entry.path) path.now) self.now.entries.items }
    {
        self.entries
            .iter()
            .position(|entry| entry.path.as_str() == path)
    }

    // The number of the file where a path leads.
    fn file_of(&self, path: &str) -> Option<usize>
        ensures file { result ≡ leads path.now (entries_of self.now) }
        ensures known { IfSome result (λ number. number < vec_len self.now.files) }
    {
        let place = self.place_of(path)?;
        self.entries[place].file
    }

    // Leads a path to a file or to none: a crash may leave it leading where it led.
    fn lead(&mut self, path: &str, file: Option<usize>) -> Result<(), AllocError>
        requires { IsKnown (vec_len self.old.files) file }
        ensures ok { OnOk result (entries_of self.new ≡ led path.now file (entries_of self.old)) }
        ensures err { OnErr result (entries_of self.new ≡ entries_of self.old) }
        ensures files { self.new.files ≡ self.old.files }
    {
        if let Some(place) = self.place_of(path) {
            return self.entries[place].lead(file);
        }
        let path = String::from_str(self.alloc, path)?;
        let earlier = Vec::from_array(self.alloc, [None])?;
        let entry = Entry {
            path,
            earlier,
            file,
        };
        self.entries.push(entry)?;
        Ok(())
    }

    /// Makes an empty file, and tells whether its path was free. Where memory runs out nothing is changed.
    pub fn create(&mut self, path: &str) -> Result<bool, AllocError>
        ensures told { IfOk result (λ is_made. is_made ≡ is_none (leads path.now (entries_of self.old))) }
        ensures entries { IfOk result (λ is_made. entries_of self.new ≡ entries_made path.now is_made self.old) }
        ensures files { IfOk result (λ is_made. files_of self.new ≡ files_made is_made self.old) }
        ensures does { (closed : Bool) → IfOk result (λ is_made. Does (made_or_taken path.now closed is_made)
            (disk_of self.old) (disk_of self.new)) }
        ensures failed { OnErr result (IsAlike (disk_of self.old) (disk_of self.new)) }
    {
        if self.file_of(path).is_some() {
            return Ok(false);
        }
        let number = self.files.len();
        let bytes = Vec::new(self.alloc);
        let is_synced = false;
        self.files.push(Written { bytes, is_synced })?;
        self.lead(path, Some(number))?;
        Ok(true)
    }

    /// Adds bytes at the end of a file, all of them or none, and tells whether it did. It does where there is a file, unless memory
    /// runs out.
    pub fn write(&mut self, path: &str, bytes: &[u8]) -> bool
        ensures told { IsTrue result → IsTrue (is_some (leads path.now (entries_of self.old))) }
        ensures entries { entries_of self.new ≡ entries_of self.old }
        ensures files { files_of self.new ≡ changed (leads path.now (entries_of self.old)) (appended bytes.now result)
            (files_of self.old) }
        ensures does { IsTrue (is_some (leads path.now (entries_of self.old)))
            → Does (Wrote path.now bytes.now result) (disk_of self.old) (disk_of self.new) }
    {
        let Some(number) = self.file_of(path) else {
            return false;
        };
        self.files[number].append(bytes)
    }

    /// Brings a file to the disk, and tells whether there is one.
    pub fn sync(&mut self, path: &str) -> bool
        ensures told { result ≡ is_some (leads path.now (entries_of self.old)) }
        ensures entries { entries_of self.new ≡ entries_of self.old }
        ensures files { files_of self.new ≡ changed (leads path.now (entries_of self.old)) brought (files_of self.old) }
        ensures does { IsTrue result → Does (Synced path.now result) (disk_of self.old) (disk_of self.new) }
    {
        let Some(number) = self.file_of(path) else {
            return false;
        };
        self.files[number].is_synced = true;
        true
    }

    /// Moves a file over another, and tells whether it did. It does where there is a file, unless memory runs out: then nothing is
    /// changed, or both paths lead to the file.
    pub fn rename(&mut self, from: &str, to: &str) -> bool
        ensures told { IsTrue result → IsTrue (is_some (leads from.now (entries_of self.old))) }
        ensures entries { IsTrue result → entries_of self.new ≡ entries_moved from.now to.now self.old }
        ensures failed { result ≡ false → (entries_of self.new ≡ entries_of self.old)
            ⊎ (IsTrue (is_some (leads from.now (entries_of self.old)))
            × (entries_of self.new ≡ entries_linked from.now to.now self.old)) }
        ensures files { files_of self.new ≡ files_of self.old }
        ensures does { IsTrue result → from.now ≢ to.now → Does (Moved from.now to.now result) (disk_of self.old) (disk_of self.new) }
    {
        let Some(number) = self.file_of(from) else {
            return false;
        };
        if self.lead(to, Some(number)).is_err() {
            return false;
        }
        self.lead(from, None).is_ok()
    }

    /// Leads a path to none, and tells whether it did. It does where it led to a file, unless memory runs out.
    pub fn remove(&mut self, path: &str) -> bool
        ensures told { IsTrue result → IsTrue (is_some (leads path.now (entries_of self.old))) }
        ensures entries { entries_of self.new ≡ entries_left path.now result self.old }
        ensures files { files_of self.new ≡ files_of self.old }
        ensures does { Does (Removed path.now result) (disk_of self.old) (disk_of self.new) }
    {
        self.file_of(path).is_some() && self.lead(path, None).is_ok()
    }

    /// Brings the names to the disk.
    pub fn sync_names(&mut self)
        ensures entries { entries_of self.new ≡ map settled (entries_of self.old) }
        ensures files { files_of self.new ≡ files_of self.old }
        ensures does { Does (SyncedFolder true) (disk_of self.old) (disk_of self.new) }
    {
        settle(&mut self.entries);
    }

    // The file of a number, if there is one.
    fn numbered(&self, number: Option<usize>) -> Option<&Written>
        ensures { option_map (λ file. written_file file.now) result ≡ file_at (files_of self.now) number }
    {
        self.files.get(number?)
    }

    // What a crash may leave where a path is left leading, behind what is there.
    fn push_left<'d>(
        &'d self,
        file: Option<usize>,
        left: &mut Vec<Option<&'d [u8]>>,
    ) -> Result<(), AllocError>
        ensures { OnOk result (held_by left.new.items ≡ held_by left.old.items ++ states_at (files_of self.now) file) }
    {
        match self.numbered(file) {
            Some(file) => file.push_left(left)?,
            None => left.push(None)?,
        }
        Ok(())
    }

    /// What a crash may leave under a path: nothing, or bytes. Of a file that was not brought to the disk each beginning is told.
    pub fn left(&self, entry: &Entry) -> Result<Vec<Option<&[u8]>>, AllocError>
        ensures told { IfOk result (λ left. held_by left.items ≡ states_under (files_of self.now) (leading_of entry.now)) }
        ensures allowed { IsEntry (entries_of self.now) (leading_of entry.now) → IfOk result (λ left.
            AllByRecursion (MayHold (disk_of self.now) (string_bytes entry.now.path)) (held_by left.items)) }
    {
        let mut left = Vec::new(self.alloc);
        for file in entry.earlier.iter() {
            self.push_left(*file, &mut left)?;
        }
        self.push_left(entry.file, &mut left)?;
        Ok(left)
    }

    /// The names of the folder's files that begin as those of new files do.
    pub fn names(&self, alloc: Global, folder: &str) -> Result<Vec<String>, AllocError>
        ensures { IfOk result (λ names. map string_bytes names.items ≡ new_names folder.now (entries_of self.now)) }
    {
        let mut names = Vec::new(alloc);
        for entry in self.entries.iter() {
            entry.push_name(alloc, folder, &mut names)?;
        }
        Ok(names)
    }
}
