//! Header lines.
ghost use Rattle.std.specs.Prelude.{ℕ, List, take, ◌≤◌, ◌≡◌, ◌<◌, [], ◌∷◌, ◌++◌, length, IsTrue, ◌↔◌};

use std::marker::Model;

/// The longest header line, without its line feed.
const LONGEST: usize = 200;

/// A header line, without its line feed. Contracts see it as the list of its bytes.
#[derive(Drop)]
pub struct Line {
    bytes: [u8; LONGEST],
    len: usize,
}

impl Model for Line {
    ghost Value = { List ℕ };

    ghost view = { λ l. take l.len l.bytes };

    ghost invariant = { λ l. (l.len ≤ 200) × (length l.bytes ≡ 200) };
}

impl Line {
    /// An empty line.
    pub fn new() -> Line
        ensures { result ≡ [] }
    {
        Line {
            bytes: [0; LONGEST],
            len: 0,
        }
    }

    /// The line's bytes.
    pub fn as_slice(&self) -> &[u8]
        ensures { result.now ≡ self.now }
    {
        &self.bytes[..self.len]
    }

    /// Whether it has no byte.
    pub fn is_empty(&self) -> bool
        ensures { IsTrue result ↔ (self.now ≡ []) }
    {
        self.len == 0
    }

    pub(crate) fn is_full(&self) -> bool
        ensures { IsTrue result ↔ (length self.now ≡ 200) }
    {
        self.len == LONGEST
    }

    pub(crate) fn push(&mut self, byte: u8)
        requires { length self.old < 200 }
        ensures { self.new ≡ self.old ++ byte ∷ [] }
    {
        self.bytes[self.len] = byte;
        self.len += 1;
    }

    pub(crate) fn clear(&mut self)
        ensures { self.new ≡ [] }
    {
        self.len = 0;
    }
}

/// How a line ended.
#[derive(Clone, Copy, Debug, PartialEq, Eq)]
pub enum LineEnd {
    /// By a line feed.
    Whole,
    /// The input has no further byte.
    Closed,
    /// The input ended inside the line, or it is over 200 bytes.
    Malformed,
}
