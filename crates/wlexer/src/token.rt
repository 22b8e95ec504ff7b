//! Tokens.

use crate::keyword::Keyword;
use crate::number::Number;
use std::rc::RcStr;

/// A symbol. `!=` is another spelling of `NotEqual`.
#[derive(Clone, Copy, Debug, PartialEq, Eq)]
pub enum Symbol {
    OpenParenthesis,
    CloseParenthesis,
    Comma,
    Dot,
    Semicolon,
    Plus,
    Minus,
    Asterisk,
    Equal,
    NotEqual,
    Less,
    LessOrEqual,
    Greater,
    GreaterOrEqual,
}

/// What a token is.
#[derive(Debug, PartialEq, Eq, Drop)]
pub enum Lexeme {
    Keyword(Keyword),
    /// A name of 1 to 63 bytes: folded to lower case, or as it stood in its quotes.
    Name(RcStr),
    Number(Number),
    /// A text, without its quotes, each doubled one in it written once.
    Text(RcStr),
    Symbol(Symbol),
}

/// A token and the bytes of the text that it was read from, `from` up to `to`, that one left out.
#[derive(Debug, PartialEq, Eq, Drop)]
pub struct Token {
    pub lexeme: Lexeme,
    pub from: usize,
    pub to: usize,
}
