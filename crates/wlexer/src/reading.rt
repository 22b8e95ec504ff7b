//! Reads one token from the front of a text.

ghost use Rattle.std.specs.Prelude.{◌≡◌, ℕ, ◌<◌, ◌≤◌, List, ◌∷◌, Some, map, IfOk, IfErr, MatchBool, MatchOption};
ghost use Rattle.std.specs.Char.{to_ascii_lowercase};
ghost use Rattle.std.specs.String.{string_bytes};
ghost use Rattle.wlexer.specs.declared.bytes.TokenKind.TheVariants as kinds;
ghost use Rattle.wlexer.specs.declared.fault.Miss.TheVariants.{Nothing};
ghost use Rattle.wlexer.specs.Bytes.{apostrophe, double_quote, kind_of};
ghost use Rattle.wlexer.specs.Reading.{Misses};
ghost use Rattle.wlexer.specs.Spelling.{IsStuck, longest_name, number_limit, number_of, Spelled};
ghost use Rattle.wlexer.specs.Symbols.{symbol_of_two, IsNoPair};
ghost use Rattle.wlexer.specs.Token.{lexeme_meaning, NameToken};

use crate::bytes::{Stretch, TokenKind, kind_of};
use crate::fault::Miss;
use crate::keyword::keyword_of;
use crate::number::{NUMBER_LIMIT, Number};
use crate::pieces::{ends_number, first_ascii, split_stretch, unquoted};
use crate::symbol::{symbol_of_one, symbol_of_two};
use crate::token::{Lexeme, Symbol};
use std::alloc::{AllocError, Global};
use std::rc::RcStr;

/// The most bytes of a name.
const LONGEST_NAME: usize = 63;

// Whether a name has so many bytes that it is none.
fn is_too_long(len: usize) -> bool
    ensures { MatchBool result (longest_name < len) (len ≤ longest_name) }
{
    len > LONGEST_NAME
}

// The name of a word, in lower case.
fn folded(alloc: Global, word: &str) -> Result<Lexeme, AllocError>
    ensures { IfOk result (λ x. lexeme_meaning x ≡ NameToken (map to_ascii_lowercase word.now)) }
{
    let name = RcStr::from_string(word.to_ascii_lowercase(alloc)?)?;
    Ok(Lexeme::Name(name))
}

// The name of a body in quotes, as it stands.
fn unfolded(body: String) -> Result<Lexeme, AllocError>
    ensures { IfOk result (λ x. lexeme_meaning x ≡ NameToken (string_bytes body)) }
{
    let name = RcStr::from_string(body)?;
    Ok(Lexeme::Name(name))
}

/// A keyword, or a name in lower case.
fn word(alloc: Global, text: &str) -> Result<(Lexeme, &str), Miss>
    requires { (b : ℕ) × (rest : List ℕ) × (text.now ≡ b ∷ rest) × (kind_of b ≡ kinds.Word) }
    ensures found { IfOk result (λ x. Spelled text.now (lexeme_meaning x.0) x.1.now) }
    ensures none { IfErr result (λ e. Misses e (IsStuck text.now)) }
{
    let (word, rest) = split_stretch(Stretch::Word, text);
    if let Some(keyword) = keyword_of(word) {
        return Ok((Lexeme::Keyword(keyword), rest));
    }
    if is_too_long(word.len()) {
        return Err(Miss::Nothing);
    }
    let name = folded(alloc, word)?;
    Ok((name, rest))
}

/// A name in quotes, behind the first quote.
fn quoted_name(alloc: Global, text: &str) -> Result<(Lexeme, &str), Miss>
    ensures found { IfOk result (λ x. Spelled (double_quote ∷ text.now) (lexeme_meaning x.0) x.1.now) }
    ensures none { IfErr result (λ e. Misses e (IsStuck (double_quote ∷ text.now))) }
{
    let (body, rest) = unquoted(alloc, '"', text)?;
    if body.is_empty() || is_too_long(body.len()) {
        return Err(Miss::Nothing);
    }
    let name = unfolded(body)?;
    Ok((name, rest))
}

/// A text in quotes, behind the first quote.
fn quoted_text(alloc: Global, text: &str) -> Result<(Lexeme, &str), Miss>
    ensures found { IfOk result (λ x. Spelled (apostrophe ∷ text.now) (lexeme_meaning x.0) x.1.now) }
    ensures none { IfErr result (λ e. Misses e (IsStuck (apostrophe ∷ text.now))) }
{
    let (body, rest) = unquoted(alloc, '\'', text)?;
    let literal = RcStr::from_string(body)?;
    Ok((Lexeme::Text(literal), rest))
}

/// The number that digits spell, where it is small enough.
fn number_of(digits: &[u8]) -> Option<Number>
    ensures { MatchOption result (number_limit ≤ number_of digits.now) (λ n. (n ≡ number_of digits.now) × (n < number_limit)) }
{
    let mut number: u128 = 0;
    'digits: for digit in digits {
        number = number * 10 + digit.saturating_sub(b'0') as u128;
        if number >= NUMBER_LIMIT {
            return None;
        }
    }
    Number::new(number)
}

fn number(text: &str) -> Result<(Lexeme, &str), Miss>
    requires { (b : ℕ) × (rest : List ℕ) × (text.now ≡ b ∷ rest) × (kind_of b ≡ kinds.Number) }
    ensures found { IfOk result (λ x. Spelled text.now (lexeme_meaning x.0) x.1.now) }
    ensures none { IfErr result (λ e. Misses e (IsStuck text.now)) }
    ensures no_memory { IfErr result (λ e. e ≡ Nothing) }
{
    let (digits, rest) = split_stretch(Stretch::Digits, text);
    if !ends_number(rest) {
        return Err(Miss::Nothing);
    }
    match number_of(digits.as_bytes()) {
        None => Err(Miss::Nothing),
        Some(number) => Ok((Lexeme::Number(number), rest)),
    }
}

/// A symbol of two bytes, the first of which is given, and what follows it.
fn pair(first: u8, text: &str) -> Option<(Symbol, &str)>
    ensures { MatchOption result (IsNoPair first text.now) (λ x. (b : ℕ) × (text.now ≡ b ∷ x.1.now) × (symbol_of_two first b ≡ Some x.0)) }
{
    let (second, rest) = first_ascii(text)?;
    let symbol = symbol_of_two(first, second)?;
    Some((symbol, rest))
}

/// A symbol, behind its first byte.
fn symbol(first: u8, text: &str) -> Result<(Lexeme, &str), Miss>
    requires { kind_of first ≡ kinds.Symbol }
    ensures found { IfOk result (λ x. Spelled (first ∷ text.now) (lexeme_meaning x.0) x.1.now) }
    ensures none { IfErr result (λ e. Misses e (IsStuck (first ∷ text.now))) }
    ensures no_memory { IfErr result (λ e. e ≡ Nothing) }
{
    if let Some((symbol, rest)) = pair(first, text) {
        return Ok((Lexeme::Symbol(symbol), rest));
    }
    match symbol_of_one(first) {
        None => Err(Miss::Nothing),
        Some(symbol) => Ok((Lexeme::Symbol(symbol), text)),
    }
}

/// The token at the front of a text, and what follows it.
pub fn token(alloc: Global, text: &str) -> Result<(Lexeme, &str), Miss>
    ensures found { IfOk result (λ x. Spelled text.now (lexeme_meaning x.0) x.1.now) }
    ensures none { IfErr result (λ e. Misses e (IsStuck text.now)) }
{
    let Some((first, behind)) = first_ascii(text) else {
        return Err(Miss::Nothing);
    };
    match kind_of(first) {
        TokenKind::Word => word(alloc, text),
        TokenKind::Number => number(text),
        TokenKind::QuotedName => quoted_name(alloc, behind),
        TokenKind::Text => quoted_text(alloc, behind),
        TokenKind::Symbol => symbol(first, behind),
    }
}
