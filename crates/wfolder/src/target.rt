//! Where a store stands.
ghost use Rattle.std.specs.Prelude.{◌≡◌, ◌↔◌, IfOk, IfSome, IsTrue, is_some, option_map};
ghost use Rattle.wfolder.specs.Call.{rights_of};
ghost use Rattle.wfolder.specs.Names.{IsSited, IsStoreName, site_at, with_access};

use crate::folder::Access;
use crate::names::{is_store_name, path_in};
use std::alloc::{AllocError, Global};
use std::marker::Model;

/// Where a store stands: its path behind the links to it, that of its folder, in which the new file is made, and who may read and
/// write the file that stands there, if there is one. In a contract it is the two paths and that access; the one path is always that
/// of a file in the other, under a name that no run takes for what a killed one has left.
#[derive(Drop)]
pub struct Target {
    path: String,
    folder: String,
    access: Option<Access>,
}

impl Model for Target {
    ghost use Rattle.wfolder.specs.Names.{Site};

    ghost Value = { Site };

    ghost use Rattle.wfolder.specs.Target.{IsKeptSite, site_of};

    ghost view = { site_of };

    ghost invariant = { IsKeptSite };
}

impl Target {
    /// The file of this name in a folder, if a store may have the name: there is no `/` in it, and it is not that of a new file.
    pub fn new(
        alloc: Global,
        folder: &str,
        name: &str,
        access: Option<Access>,
    ) -> Result<Option<Target>, AllocError>
        ensures site { IfOk result (λ found. IfSome found (λ target. target ≡ site_at folder.now name.now (option_map rights_of access))) }
        ensures found { IfOk result (λ found. IsTrue (is_some found) ↔ IsStoreName name.now) }
    {
        if !is_store_name(name.as_bytes()) {
            return Ok(None);
        }
        let path = path_in(alloc, folder, name)?;
        let folder = String::from_str(alloc, folder)?;
        Ok(Some(Target {
            path,
            folder,
            access,
        }))
    }

    /// The path of the store.
    pub fn path(&self) -> &str
        ensures path { result.now ≡ self.now.path }
        ensures sited { IsSited self.now }
    {
        self.path.as_str()
    }

    /// The path of its folder.
    pub fn folder(&self) -> &str
        ensures folder { result.now ≡ self.now.folder }
        ensures sited { IsSited self.now }
    {
        self.folder.as_str()
    }

    /// Who may read and write the file that stands there, if there is one.
    pub fn access(&self) -> Option<&Access>
        ensures { option_map (λ access. rights_of access.now) result ≡ self.now.access }
    {
        self.access.as_ref()
    }

    /// Notes who may read and write the file that stands there now.
    pub fn set_access(&mut self, access: Option<Access>)
        ensures { self.new ≡ with_access self.old (option_map rights_of access) }
    {
        self.access = access;
    }
}
