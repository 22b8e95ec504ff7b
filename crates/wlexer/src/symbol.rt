//! Symbols by their bytes.

ghost use Rattle.std.specs.Prelude.{◌≡◌};
ghost use Rattle.wlexer.specs.Symbols.{symbol_of_two, symbol_of_one};

use crate::token::Symbol;

/// The symbol that two bytes spell.
pub fn symbol_of_two(first: u8, second: u8) -> Option<Symbol>
    ensures { result ≡ symbol_of_two first second }
{
    match (first, second) {
        (b'<', b'=') => Some(Symbol::LessOrEqual),
        (b'<', b'>') => Some(Symbol::NotEqual),
        (b'>', b'=') => Some(Symbol::GreaterOrEqual),
        (b'!', b'=') => Some(Symbol::NotEqual),
        _ => None,
    }
}

/// The symbol that one byte spells.
pub fn symbol_of_one(byte: u8) -> Option<Symbol>
    ensures { result ≡ symbol_of_one byte }
{
    match byte {
        b'(' => Some(Symbol::OpenParenthesis),
        b')' => Some(Symbol::CloseParenthesis),
        b',' => Some(Symbol::Comma),
        b'.' => Some(Symbol::Dot),
        b';' => Some(Symbol::Semicolon),
        b'+' => Some(Symbol::Plus),
        b'-' => Some(Symbol::Minus),
        b'*' => Some(Symbol::Asterisk),
        b'=' => Some(Symbol::Equal),
        b'<' => Some(Symbol::Less),
        b'>' => Some(Symbol::Greater),
        _ => None,
    }
}
