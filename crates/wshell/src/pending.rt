//! The text of a query that is not whole yet.
ghost use Rattle.std.specs.Prelude.{◌≡◌, ◌<◌, ◌≤◌, ◌++◌, ◌∷◌, ℕ, List, [], length, IfOk, MatchBool};
ghost use Rattle.wshell.specs.Pending.{IsPending};
ghost use Rattle.wshell.specs.Splitting.{may_end, step};

use crate::mode::Mode;
use std::alloc::{AllocError, Global};
use std::marker::Model;

/// One byte more than a query may have: a text of so many is refused for its length, whatever follows.
const ROOM: usize = 65_537;

/// The first 65,537 bytes of a text, and how the whole of it stands at its end. What the text has behind these bytes
/// is not kept.
#[derive(Drop)]
pub(crate) struct Pending {
    text: Vec<u8>,
    mode: Mode,
}

impl Model for Pending {
    ghost use Rattle.std.specs.Prelude.{vec_len, vec_capacity, ◌≤◌};
    ghost use Rattle.wshell.specs.Pending.{Kept};

    ghost Value = { Kept };

    ghost view = { λ p. record { text = p.text.items; mode = p.mode } };

    ghost invariant = { λ p. (vec_len p.text ≤ 65537) × (65537 ≤ vec_capacity p.text) };
}

impl Pending {
    /// The empty text.
    pub(crate) fn new(alloc: Global) -> Result<Pending, AllocError>
        ensures { IfOk result (λ p. IsPending p []) }
    {
        let text = Vec::with_capacity(alloc, ROOM)?;
        Ok(Pending {
            text,
            mode: Mode::Outside,
        })
    }

    /// The bytes that are kept.
    pub(crate) fn as_slice(&self) -> &[u8]
        ensures { result.now ≡ self.now.text }
    {
        self.text.as_slice()
    }

    /// Whether a `;` behind the text ends a query.
    pub(crate) fn may_end(&self) -> bool
        ensures { result ≡ may_end self.now.mode }
    {
        self.mode.may_end()
    }

    // Whether no byte more is kept.
    fn is_full(&self) -> bool
        ensures { MatchBool result (65537 ≤ length self.now.text) (length self.now.text < 65537) }
    {
        self.text.len() >= ROOM
    }

    // Keeps one byte more, for which there is room.
    fn keep(&mut self, byte: u8)
        requires { length self.old.text < 65537 }
        ensures { self.new ≡ record self.old { text = self.old.text ++ byte ∷ [] } }
    {
        self.text.push(byte).unwrap();
    }

    // How the text stands behind one byte more.
    fn turn(&mut self, byte: u8)
        ensures { self.new ≡ record self.old { mode = step self.old.mode byte } }
    {
        self.mode = self.mode.step(byte);
    }

    /// One byte more.
    pub(crate) fn add(&mut self, byte: u8)
        ensures { (text : List ℕ) → IsPending self.old text → IsPending self.new (text ++ byte ∷ []) }
    {
        self.turn(byte);
        if self.is_full() {
            return;
        }
        self.keep(byte);
    }

    /// The empty text again.
    pub(crate) fn clear(&mut self)
        ensures { IsPending self.new [] }
    {
        self.text.clear();
        self.mode = Mode::Outside;
    }
}
