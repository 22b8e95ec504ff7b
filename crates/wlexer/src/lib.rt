//! The longest tokens of a text, or the place of the first fault.
//!
//! - Gives keywords, names, numbers, texts and symbols, each with the bytes that it was read from.
//! - Promises: tokens and faults are those of the definitions, which allow one reading of a text.
//! - Asks nothing: any bytes may be handed in.
//! - Leaves the grammar to `wexpressions` and `wparser`.
//!
//! Read `specs/Token.antt`, `specs/Bytes.antt`, `specs/Keywords.antt`, `specs/Symbols.antt`, then
//! `specs/Spelling.antt` and `specs/Lexing.antt`.
#![tactic(auto)]

mod bytes;
mod fault;
mod keyword;
mod lexer;
mod number;
mod pieces;
mod reading;
mod symbol;
mod token;

pub use fault::LexFault;
pub use keyword::Keyword;
pub use lexer::{LONGEST_TEXT, lex, one_lexing};
pub use number::Number;
pub use token::{Lexeme, Symbol, Token};
