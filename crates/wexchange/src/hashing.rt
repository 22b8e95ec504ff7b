//! Hashes a text that goes out in parts, beside bytes that were hashed before.
ghost use Rattle.std.specs.Prelude.{◌≡◌, ◌≢◌, ◌++◌, ℕ, List, [], IfSome, IfNone};
ghost use Rattle.sha2.specs.Hashers.{Holds256};
ghost use Rattle.wexchange.specs.Hashing.{Has, HasBeside};

use crate::hashed::Hashed;
use sha2::{Digest, Sha256};

/// How a text goes on beside bytes that were hashed before.
#[derive(Drop)]
pub(crate) enum Course<'a> {
    /// The text is a beginning of them, before these.
    Same(&'a [u8]),
    /// It is another one, which the hasher has.
    Other(Sha256),
}

/// What has a text that goes out in parts. As long as the text is a beginning of bytes that were hashed before, it is compared with
/// them and not hashed.
#[derive(Drop)]
pub(crate) struct Hashing<'a> {
    known: &'a Hashed<'a>,
    course: Course<'a>,
}

/// What stands behind a front of bytes, if that stands first.
pub(crate) fn behind<'a>(front: &[u8], bytes: &'a [u8]) -> Option<&'a [u8]>
    ensures found { IfSome result (λ rest. bytes.now ≡ front.now ++ rest.now) }
    ensures none { IfNone result ((rest : List ℕ) → bytes.now ≢ front.now ++ rest) }
{
    bytes.strip_prefix(front)
}

// How a text goes on that was a beginning of the bytes before the rest, with one part more.
fn go_on<'a>(known: &Hashed<'_>, rest: &'a [u8], part: &[u8]) -> Course<'a>
    ensures { (text : List ℕ) → known.now ≡ text ++ rest.now → HasBeside known.now result (text ++ part.now) }
{
    if let Some(more) = behind(part, rest) {
        return Course::Same(more);
    }
    let mut hasher = known.hasher_before(rest);
    hasher.update(part);
    Course::Other(hasher)
}

impl<'a> Hashing<'a> {
    /// What has no text yet.
    pub(crate) fn new(known: &'a Hashed<'a>) -> Hashing<'a>
        ensures { Has result [] }
    {
        Hashing {
            known,
            course: Course::Same(known.bytes()),
        }
    }

    /// One part more.
    pub(crate) fn update(&mut self, part: &[u8])
        ensures { (text : List ℕ) → Has self.old text → Has self.new (text ++ part.now) }
    {
        match &mut self.course {
            Course::Same(rest) => {
                let rest = *rest;
                self.course = go_on(self.known, rest, part);
            }
            Course::Other(hasher) => hasher.update(part),
        }
    }

    /// The hasher that has the text.
    pub(crate) fn finish(self) -> Sha256
        ensures { (text : List ℕ) → Has self.entry text → Holds256 result text }
    {
        let Hashing { known, course } = self;
        match course {
            Course::Same(rest) => known.hasher_before(rest),
            Course::Other(hasher) => hasher,
        }
    }
}
