//! The digest at the end of a file.
ghost use Rattle.std.specs.Prelude.{◌≡◌, ◌++◌, ℕ, List, IsTrue, ◌↔◌};
ghost use Rattle.sha2.specs.Hashers.{Holds256};
ghost use Rattle.wexchange.specs.Files.{digest_of};

use crate::hashed::Hashed;
use hex::encode_to_slice;
use sha2::{Digest, Sha256};
use wrecords::DIGITS;

/// The digits of the digest of what a hasher has.
pub(crate) fn digits_of(hasher: Sha256) -> [u8; DIGITS]
    ensures { (text : List ℕ) → Holds256 hasher text → result ≡ digest_of text }
{
    let mut digits = [0; DIGITS];
    let digest = hasher.finalize();
    let _ = encode_to_slice(digest, &mut digits);
    digits
}

/// Whether the digits are those of the digest of what stands before the end of bytes.
pub(crate) fn is_sealed(bytes: &Hashed<'_>, end: &[u8], digits: &[u8; DIGITS]) -> bool
    ensures { (front : List ℕ) → bytes.now ≡ front ++ end.now → IsTrue result ↔ (digits.now ≡ digest_of front) }
{
    let computed = digits_of(bytes.hasher_before(end));
    computed.as_slice() == digits.as_slice()
}
