//! A field of a row, read as a text.
//!
//! Most rows are ASCII. That is found once for all fields of a row, in steps of a word, and none of them is looked at again.
ghost use Rattle.std.specs.Prelude.{◌≡◌, MatchOption, true};
ghost use Rattle.std.specs.Str.{IsUtf8};

use std::str;

/// The text of a field, if it is one. The bytes of a row that is ASCII are texts, and are not looked at.
#[inline(always)]
pub(crate) fn field_text(field: &[u8], is_ascii: bool) -> Option<&str>
    requires { is_ascii ≡ true → IsUtf8 field.now }
    ensures { MatchOption result (¬ (IsUtf8 field.now)) (λ text. (text.now ≡ field.now) × IsUtf8 field.now) }
{
    if is_ascii {
        // It is proved right here that the bytes are a text.
        return Some(unsafe { str::from_utf8_unchecked(field) });
    }
    str::from_utf8(field).ok()
}
