//! The tokens of a query by their numbers.

ghost use Rattle.std.specs.Prelude.{◌≡◌, option_map};
ghost use Rattle.wlexer.specs.Token.{meaning_of};
ghost use Rattle.wclauses.specs.Tokens.{name_at, function_at, is_symbol, is_keyword, is_called, is_grouping, is_star};
ghost use Rattle.wclauses.specs.Tokens.{says_parenthesis};

use wlexer::{Keyword, Lexeme, Symbol, Token};
use wscope::{Function, function_of};

/// The name that a token is.
pub fn name_at(tokens: &[Token], number: usize) -> Option<&str>
    ensures { option_map (λ name. name.now) result ≡ name_at tokens.now number }
{
    match tokens.get(number) {
        Some(token) => match &token.lexeme {
            Lexeme::Name(name) => Some(name.as_str()),
            _ => None,
        },
        None => None,
    }
}

/// The function that is named at a token.
pub fn function_at(tokens: &[Token], number: usize) -> Option<Function>
    ensures { result ≡ function_at tokens.now number }
{
    function_of(name_at(tokens, number)?)
}

/// Whether a token is this symbol.
pub fn is_symbol(tokens: &[Token], number: usize, symbol: Symbol) -> bool
    ensures { result ≡ is_symbol tokens.now number symbol }
{
    match tokens.get(number) {
        Some(token) => match &token.lexeme {
            Lexeme::Symbol(other) => *other == symbol,
            _ => false,
        },
        None => false,
    }
}

/// Whether a token is this keyword.
pub(crate) fn is_keyword(tokens: &[Token], number: usize, keyword: Keyword) -> bool
    ensures { result ≡ is_keyword tokens.now number keyword }
{
    match tokens.get(number) {
        Some(token) => match &token.lexeme {
            Lexeme::Keyword(other) => *other == keyword,
            _ => false,
        },
        None => false,
    }
}

/// Whether a token opens a pair of parentheses or closes one.
pub fn is_parenthesis(token: &Token) -> bool
    ensures { result ≡ says_parenthesis (meaning_of token.now) }
{
    matches!(
        &token.lexeme,
        Lexeme::Symbol(Symbol::OpenParenthesis | Symbol::CloseParenthesis)
    )
}

/// Whether the name at a token is that of a function.
pub fn is_called(tokens: &[Token], number: usize) -> bool
    ensures { result ≡ is_called tokens.now number }
{
    is_symbol(tokens, number.saturating_add(1), Symbol::OpenParenthesis)
}

/// Whether a token is GROUPING of columns, and not of sets.
pub fn is_grouping(tokens: &[Token], number: usize) -> bool
    ensures { result ≡ is_grouping tokens.now number }
{
    is_keyword(tokens, number, Keyword::Grouping) && is_called(tokens, number)
}

/// Whether a token is the item `*`: no other `*` stands behind SELECT or a comma.
pub fn is_star(tokens: &[Token], number: usize) -> bool
    ensures { result ≡ is_star tokens.now number }
{
    if !is_symbol(tokens, number, Symbol::Asterisk) {
        return false;
    }
    let before = number.saturating_sub(1);
    is_keyword(tokens, before, Keyword::Select) || is_symbol(tokens, before, Symbol::Comma)
}
