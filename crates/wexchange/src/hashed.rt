//! Bytes that are hashed once, with states of the hasher at some of their beginnings.
ghost use Rattle.std.specs.Prelude.{◌≡◌, ◌≤◌, ◌++◌, ℕ, List, length, take};
ghost use Rattle.sha2.specs.Hashers.{Holds256};
ghost use Rattle.wexchange.specs.Marks.{AreMarks, IsMark};

use crate::version::{Version, head_of};
use sha2::{Digest, Sha256};
use std::array::from_fn;
use std::marker::Model;
use wrecords::DIGITS;

/// How many beginnings have a state.
const MARKS: usize = 32;

/// How many bytes the lines of the end and of the digest have at most.
const TAIL: usize = DIGITS + 16;

/// A beginning of bytes, by its length, and a hasher that has it.
#[derive(Drop)]
struct Mark {
    len: usize,
    hasher: Sha256,
}

/// Bytes, and the states that a hasher had at some of their beginnings. Contracts see it as the list of the bytes.
#[derive(Drop)]
pub struct Hashed<'a> {
    bytes: &'a [u8],
    marks: [Mark; MARKS],
}

impl<'a> Model for Hashed<'a> {
    ghost use Rattle.std.specs.Prelude.{List, ℕ};
    ghost use Rattle.wexchange.specs.Marks.{AreMarks};

    ghost Value = { List ℕ };

    ghost view = { λ h. h.bytes.now };

    ghost invariant = { λ h. AreMarks h.bytes.now h.marks };
}

// The mark of no byte.
fn no_mark() -> Mark
    ensures mark { (bytes : List ℕ) → IsMark bytes result }
    ensures len { result.len ≡ 0 }
{
    Mark {
        len: 0,
        hasher: Sha256::new(),
    }
}

// Marks of no byte.
fn no_marks() -> [Mark; MARKS]
    ensures { (bytes : List ℕ) → AreMarks bytes result }
{
    from_fn(|_| no_mark())
}

// The mark where a hasher stands.
fn mark_of(hasher: &Sha256, bytes: &[u8], len: usize) -> Mark
    requires within { len ≤ length bytes.now }
    requires holds { Holds256 hasher.now (take len bytes.now) }
    ensures mark { IsMark bytes.now result }
    ensures len { result.len ≡ len }
{
    Mark {
        len,
        hasher: hasher.clone().unwrap(),
    }
}

// Hashes the bytes from one place to another one.
fn hash_on(hasher: &mut Sha256, bytes: &[u8], from: usize, to: usize)
    requires rises { from ≤ to }
    requires within { to ≤ length bytes.now }
    ensures { Holds256 hasher.old (take from bytes.now) → Holds256 hasher.new (take to bytes.now) }
{
    hasher.update(&bytes[from..to]);
}

// Marks at equal steps up to an end.
fn marks_of(bytes: &[u8], end: usize) -> [Mark; MARKS]
    requires { end ≤ length bytes.now }
    ensures { AreMarks bytes.now result }
{
    let step = end / MARKS;
    let mut hasher = Sha256::new();
    let mut len: usize = 0;
    let mut marks = no_marks();
    'marks: for mark in marks.iter_mut() {
        let next = end.min(len.saturating_add(step));
        hash_on(&mut hasher, bytes, len, next);
        len = next;
        *mark = mark_of(&hasher, bytes, len);
    }
    marks
}

// The last mark that does not stand behind a place.
fn last_mark(marks: &[Mark; MARKS], bytes: &[u8], place: usize) -> Mark
    requires { AreMarks bytes.now marks.now }
    ensures mark { IsMark bytes.now result }
    ensures before { result.len ≤ place }
{
    'marks: for k in (0..MARKS).rev() {
        let mark = &marks[k];
        if mark.len <= place {
            return mark_of(&mark.hasher, bytes, mark.len);
        }
    }
    no_mark()
}

// The hasher that has the bytes before a place.
fn hasher_at(marks: &[Mark; MARKS], bytes: &[u8], place: usize) -> Sha256
    requires marks { AreMarks bytes.now marks.now }
    requires within { place ≤ length bytes.now }
    ensures { Holds256 result (take place bytes.now) }
{
    let Mark { len, hasher } = last_mark(marks, bytes, place);
    let mut hasher = hasher;
    hash_on(&mut hasher, bytes, len, place);
    hasher
}

impl<'a> Hashed<'a> {
    /// The bytes with no state.
    pub fn bare(bytes: &'a [u8]) -> Hashed<'a>
        ensures { result ≡ bytes.now }
    {
        Hashed {
            bytes,
            marks: no_marks(),
        }
    }

    /// The bytes with states, where they are begun as a file of version 2: they are hashed up to where the line of its end is to stand
    /// at least. It takes no memory.
    pub fn of(bytes: &'a [u8]) -> Hashed<'a>
        ensures { result ≡ bytes.now }
    {
        if !bytes.starts_with(head_of(Version::Two)) {
            return Hashed::bare(bytes);
        }
        let end = bytes.len().saturating_sub(TAIL);
        Hashed {
            bytes,
            marks: marks_of(bytes, end),
        }
    }

    /// The bytes.
    pub fn bytes(&self) -> &'a [u8]
        ensures { result.now ≡ self.now }
    {
        self.bytes
    }

    /// The hasher that has what stands before the end of the bytes. It goes on from the last state there.
    pub(crate) fn hasher_before(&self, end: &[u8]) -> Sha256
        ensures { (front : List ℕ) → self.now ≡ front ++ end.now → Holds256 result front }
    {
        let place = self.bytes.len().saturating_sub(end.len());
        hasher_at(&self.marks, self.bytes, place)
    }
}
