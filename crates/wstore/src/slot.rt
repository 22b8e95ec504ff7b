//! One slot.
ghost use Rattle.std.specs.Prelude.{◌≡◌, []};

use std::alloc::Global;
use std::marker::Model;

/// What a slot holds: the bytes of an exchange file, and none before a node is put into it. Contracts see it as these
/// bytes.
#[derive(Drop)]
pub(crate) struct Slot {
    bytes: Vec<u8>,
}

impl Model for Slot {
    ghost use Rattle.std.specs.Prelude.{ℕ, List};

    ghost Value = { List ℕ };

    ghost view = { λ s. s.bytes.items };
}

impl Slot {
    /// A slot that holds no bytes.
    pub(crate) fn empty(alloc: Global) -> Slot
        ensures { result ≡ [] }
    {
        Slot {
            bytes: Vec::new(alloc),
        }
    }

    /// A slot that holds this file.
    pub(crate) fn new(bytes: Vec<u8>) -> Slot
        ensures { result ≡ bytes.items }
    {
        Slot { bytes }
    }

    /// The bytes.
    pub(crate) fn as_slice(&self) -> &[u8]
        ensures { result.now ≡ self.now }
    {
        &self.bytes
    }
}
