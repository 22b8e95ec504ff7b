//! Reads the tokens of a text.

ghost use Rattle.std.specs.Prelude.{◌≡◌, ◌↔◌, ◌⊎◌, ℕ, ◌<◌, ◌≤◌, List, length, map, Err, IfOk, IfErr, IfSome, IfNone};
ghost use Rattle.std.specs.Str.{IsUtf8};
ghost use Rattle.wlexer.specs.declared.fault.LexFault.TheVariants.{TooLong, NotUtf8, At};
ghost use Rattle.wlexer.specs.Lexing.{longest_text, IsBare, Separates, Lexes, HasFaultAt};
ghost use Rattle.wlexer.specs.Reading.{FaultsHere, IsLexicalFault};
ghost use Rattle.wlexer.specs.Spelling.{Spelled};
ghost use Rattle.wlexer.specs.Token.{PlacedToken, lexeme_meaning, placed};

use crate::bytes::{Stretch, is_blank};
use crate::fault::{LexFault, Miss};
use crate::pieces::{first_ascii, split_stretch};
use crate::reading::token;
use crate::token::{Lexeme, Token};
use std::alloc::Global;

/// The most bytes of a text.
pub const LONGEST_TEXT: usize = 65_536;

/// What follows a blank or a comment, where one stands at the front.
fn behind_separator(text: &str) -> Option<&str>
    ensures some { IfSome result (λ x. (length x.now < length text.now) × ((rest : List ℕ) → Separates x.now rest
        → Separates text.now rest)) }
    ensures none { IfNone result (IsBare text.now) }
{
    let (first, after) = first_ascii(text)?;
    if is_blank(first) {
        return Some(after);
    }
    let (second, comment) = first_ascii(after)?;
    if first == b'-' && second == b'-' {
        return Some(split_stretch(Stretch::Comment, comment).1);
    }
    None
}

/// What follows the blanks and comments at the front.
fn behind_separators(text: &str) -> &str
    ensures { Separates text.now result.now }
{
    let mut left = text;
    'separators: while let Some(after) = behind_separator(left) {
        left = after;
    }
    left
}

/// The token at the front of what is left of a text, at whose place a fault is told, and what follows it.
fn token_at(alloc: Global, place: usize, text: &str) -> Result<(Lexeme, &str), LexFault>
    ensures found { IfOk result (λ x. Spelled text.now (lexeme_meaning x.0) x.1.now) }
    ensures fault { IfErr result (λ e. FaultsHere place text.now e) }
{
    match token(alloc, text) {
        Err(Miss::NoMemory) => Err(LexFault::NoMemory),
        Err(Miss::Nothing) => Err(LexFault::At { place }),
        Ok(read) => Ok(read),
    }
}

/// The tokens of a text that is short enough and UTF-8, or the place of its first fault.
fn lex_text(alloc: Global, text: &str) -> Result<Vec<Token>, LexFault>
    ensures found { IfOk result (λ tokens. Lexes text.now (map placed tokens.items)) }
    ensures fault { IfErr result (λ e. IsLexicalFault text.now e) }
{
    let mut tokens = Vec::new(alloc);
    let mut left = text;
    'tokens: loop {
        let here = behind_separators(left);
        if here.is_empty() {
            return Ok(tokens);
        }
        let from = text.len() - here.len();
        let (lexeme, after) = token_at(alloc, from, here)?;
        let to = text.len() - after.len();
        tokens.push(Token { lexeme, from, to })?;
        left = after;
    }
}

/// The tokens of a text of at most 65,536 bytes, with the bytes that each was read from.
///
/// # Errors
/// `TooLong`, else `NotUtf8`, else `At` the first byte that begins neither a token nor a blank nor a comment.
/// `NoMemory` where a growth was refused.
pub fn lex(alloc: Global, text: &[u8]) -> Result<Vec<Token>, LexFault>
    ensures tokens { IfOk result (λ tokens. Lexes text.now (map placed tokens.items)) }

    // The faults, in the order in which they are judged.
    ensures too_long { (result ≡ Err TooLong) ↔ (longest_text < length text.now) }
    ensures not_utf8 { (result ≡ Err NotUtf8) ↔ (length text.now ≤ longest_text) × (¬ IsUtf8 text.now) }
    ensures fault_at { (place : ℕ) → result ≡ Err (At place) → HasFaultAt text.now place }
{
    if text.len() > LONGEST_TEXT {
        return Err(LexFault::TooLong);
    }
    match str::from_utf8(text) {
        Err(_) => Err(LexFault::NotUtf8),
        Ok(text) => lex_text(alloc, text),
    }
}

/// A text has one list of tokens, or one first fault, and never both.
pub fn one_lexing()
    ensures some { (text : List ℕ) → ((tokens : List PlacedToken) × Lexes text tokens) ⊎ ((place : ℕ) × HasFaultAt text place) }
    ensures one_list { (text : List ℕ) (these those : List PlacedToken) → Lexes text these → Lexes text those → these ≡ those }
    ensures tokens_or_fault { (text : List ℕ) (tokens : List PlacedToken) (place : ℕ) → Lexes text tokens → HasFaultAt text place → ⊥ }
    ensures one_place { (text : List ℕ) (one other : ℕ) → HasFaultAt text one → HasFaultAt text other → one ≡ other }
{}
