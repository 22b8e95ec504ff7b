//! What the bytes of a table and a store open.
ghost use Rattle.std.specs.Prelude.{◌≡◌, IfErr, IfOk, OnOk, option_map};
ghost use Rattle.wact.specs.Opening.{Opens};
ghost use Rattle.wfolder.specs.Calls.{HasCause, NothingFailed};

use std::alloc::Global;
use wact::{Opened, Purpose, hashed, open_store};
use wexchange::Hashed;
use wfiles::System;
use wfolder::Fault;

/// The most bytes of a declaration.
pub(crate) const LONGEST_DECLARATION: usize = 65_536;

/// The bytes of a store, hashed, if there is one.
pub(crate) fn hashed_of(store: &Option<Vec<u8>>) -> Option<Hashed<'_>>
    ensures { result ≡ option_map (λ bytes. bytes.items) store.now }
{
    match store {
        Some(bytes) => hashed(Some(bytes.as_slice())),
        None => None,
    }
}

/// What the bytes of a table and a store open.
pub(crate) fn opened<R>(
    alloc: Global,
    system: &mut System<'_, R>,
    table: &[u8],
    store: &Option<Hashed<'_>>,
    purpose: Purpose,
) -> Result<Opened, Fault>
    requires { NothingFailed system.old }
    ensures opens { IfOk result (λ opened. Opens table.now store.now opened) }
    ensures kind { IfErr result (λ fault. fault ≡ Fault.NoMemory) }
    ensures sound { OnOk result (NothingFailed system.new) }
    ensures cause { IfErr result (λ fault. HasCause fault system.new) }
{
    system.grown(open_store(alloc, table, store, purpose))
}
