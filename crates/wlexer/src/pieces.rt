//! Cuts pieces off the front of a text.

ghost use Rattle.std.specs.Prelude.{◌≡◌, ◌<◌, ◌∷◌, IfOk, IfErr, MatchBool, MatchOption};
ghost use Rattle.std.specs.List.{prefix_len};
ghost use Rattle.std.specs.String.{string_bytes};
ghost use Rattle.wlexer.specs.Bytes.{ascii_limit, continues, spoils_number};
ghost use Rattle.wlexer.specs.Reading.{BeginsBeyondAscii, IsOpen, Misses};
ghost use Rattle.wlexer.specs.Spelling.{front, behind, StopsBefore, Quoted};

use crate::bytes::{Stretch, continues, spoils_number};
use crate::fault::Miss;
use std::alloc::Global;

/// The first byte, where it is ASCII, and what follows it.
pub fn first_ascii(text: &str) -> Option<(u8, &str)>
    ensures { MatchOption result (BeginsBeyondAscii text.now) (λ x. (text.now ≡ x.0 ∷ x.1.now) × (x.0 < ascii_limit)) }
{
    let first = *text.as_bytes().first()?;
    if !first.is_ascii() {
        return None;
    }
    Some((first, &text[1..]))
}

fn stretch_len(stretch: Stretch, bytes: &[u8]) -> usize
    ensures { result ≡ prefix_len (continues stretch) bytes.now }
{
    bytes
        .iter()
        .take_while(|byte| continues(stretch, **byte))
        .count()
}

/// The longest stretch at the front, and what follows it.
pub fn split_stretch(stretch: Stretch, text: &str) -> (&str, &str)
    ensures front { result.0.now ≡ front stretch text.now }
    ensures behind { result.1.now ≡ behind stretch text.now }
{
    text.split_at(stretch_len(stretch, text.as_bytes()))
}

/// Whether a number may stand before this text.
pub fn ends_number(text: &str) -> bool
    ensures { MatchBool result (StopsBefore spoils_number text.now) (StopsBefore spoils_number text.now → ⊥) }
{
    match text.as_bytes().first() {
        None => true,
        Some(first) => !spoils_number(*first),
    }
}

/// What stands in quotes, behind the first one, and what follows the last. A quote inside is written twice.
pub fn unquoted(alloc: Global, quote: char, text: &str) -> Result<(String, &str), Miss>
    requires { quote < ascii_limit }
    ensures found { IfOk result (λ x. Quoted quote text.now (string_bytes x.0) x.1.now) }
    ensures none { IfErr result (λ e. Misses e (IsOpen quote text.now)) }
{
    let mut body = String::new(alloc);
    let mut left = text;
    'quoted: loop {
        let Some((piece, after)) = left.split_once(quote) else {
            return Err(Miss::Nothing);
        };
        body.push_str(piece)?;
        let Some(further) = after.strip_prefix(quote) else {
            return Ok((body, after));
        };
        body.push(quote)?;
        left = further;
    }
}
