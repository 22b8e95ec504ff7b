//! The names of new files, and of a store in its folder.
ghost use Rattle.std.specs.Prelude.{◌≡◌, ◌↔◌, ◌++◌, ◌∷◌, IfOk, IsTrue, string_bytes};
ghost use Rattle.std.specs.List.{list_all};
ghost use Rattle.wfolder.specs.Names.{IsNewName, IsStoreName, has_slash, is_number_byte};

use std::alloc::{AllocError, Global};

// A digit, or the - between two numbers.
fn is_number_byte(byte: u8) -> bool
    ensures { result ≡ is_number_byte byte }
{
    byte.is_ascii_digit() || byte == b'-'
}

fn are_number_bytes(bytes: &[u8]) -> bool
    ensures { result ≡ list_all is_number_byte bytes.now }
{
    bytes.iter().all(|byte| is_number_byte(*byte))
}

/// Whether a file's name is one that this program gives to new files, and removes as what a killed run has left.
pub(crate) fn is_new_name(name: &[u8]) -> bool
    ensures { IsTrue result ↔ IsNewName name.now }
{
    match name.strip_prefix(b".wstore-") {
        Some(numbers) => are_number_bytes(numbers),
        None => false,
    }
}

fn has_slash(name: &[u8]) -> bool
    ensures { result ≡ has_slash name.now }
{
    name.iter().any(|byte| *byte == b'/')
}

/// Whether a file of this name may be a store: a name without `/`, and not that of a new file.
pub(crate) fn is_store_name(name: &[u8]) -> bool
    ensures { IsTrue result ↔ IsStoreName name.now }
{
    !has_slash(name) && !is_new_name(name)
}

/// The path of a file in a folder.
pub(crate) fn path_in(alloc: Global, folder: &str, name: &str) -> Result<String, AllocError>
    ensures { IfOk result (λ path. string_bytes path ≡ folder.now ++ 47 ∷ name.now) }
{
    let mut path = String::from_str(alloc, folder)?;
    path.push_str("/")?;
    path.push_str(name)?;
    Ok(path)
}
