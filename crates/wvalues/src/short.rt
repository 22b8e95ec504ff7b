//! Texts that lie in their value.
ghost use Rattle.std.specs.Prelude.{◌≡◌, ◌≤◌, ◌↔◌, IfSome, IsSome, length};
ghost use Rattle.std.specs.Str.{IsUtf8};

use std::alloc::AllocError;
use std::marker::Model;

/// The most bytes of a short text, so many that a value takes 16 bytes.
const LONGEST: usize = 14;

/// A text of at most 14 bytes, which takes no memory beside its value. In a contract it is its bytes.
#[derive(Debug)]
pub struct ShortText {
    len: u8,
    bytes: [u8; LONGEST],
}

impl Model for ShortText {
    ghost use Rattle.std.specs.Prelude.{ℕ, List};
    ghost use Rattle.std.specs.Coded.{coded_list, coded_ℕ};
    ghost use Rattle.wvalues.specs.ShortView.{bytes_of, stored, IsStored};

    ghost Value = { List ℕ };

    ghost coded = { coded_list coded_ℕ };

    ghost view = { bytes_of };

    ghost invariant = { IsStored };

    ghost inverse = { stored };

    ghost inverse_ok = { λ a h. h.back };
}

impl Clone for ShortText {
    ghost is_clone = { λ text copy. copy ≡ text };

    fn clone(&self) -> Result<ShortText, AllocError> {
        Ok(*self)
    }
}

impl Copy for ShortText {}

impl ShortText {
    /// A text, where it is short.
    pub fn new(text: &str) -> Option<ShortText>
        ensures text { IfSome result (λ short. short ≡ text.now) }
        ensures short { IsSome result ↔ (length text.now ≤ 14) }
    {
        let len = text.len();
        if len > LONGEST {
            return None;
        }
        let mut bytes = [0u8; LONGEST];
        bytes[..len].copy_from_slice(text.as_bytes());
        Some(ShortText {
            len: len as u8,
            bytes,
        })
    }

    /// The text, where it lies.
    #[inline(always)]
    pub fn as_str(&self) -> &str
        ensures text { result.now ≡ self.now }
        ensures short { length self.now ≤ 14 }
    {
        let bytes = &self.bytes[..self.len as usize];
        unsafe { str::from_utf8_unchecked(bytes) }
    }
}
