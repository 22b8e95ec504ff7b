//! The levels of nesting that are left, and where one ends.

ghost use Rattle.std.specs.Prelude.{◌≡◌, ◌<◌, ◌∷◌, OnOk, OnErr, IfOk, IfErr};
ghost use Rattle.wexpressions.specs.declared.fault.ParseFault.TheVariants.{Syntax};
ghost use Rattle.wtokens.specs.Notation.{Tokens, meanings};
ghost use Rattle.wtokens.specs.Words.{CloseSign};

use crate::fault::ParseFault;
use wlexer::{Symbol, Token};
use wtokens::symbol;

/// No level of nesting is left. What answers it asks for no memory, and so it has no want of memory among its cases.
#[derive(Clone, Copy)]
pub struct TooDeep;

impl From<TooDeep> for ParseFault {
    ghost from_gives = { λ _ e. e ≡ Syntax };

    fn from(_e: TooDeep) -> ParseFault {
        ParseFault::Syntax
    }
}

/// Whether a level of nesting is left.
pub fn one_level(depth: u32) -> Result<(), TooDeep>
    ensures ok { OnOk result (0 < depth) }
    ensures err { OnErr result (depth ≡ 0) }
{
    if depth == 0 {
        return Err(TooDeep);
    }
    Ok(())
}

/// What was read, if a closing parenthesis comes first, and what follows that.
pub fn closed_off<T: Drop>(read: T, tokens: &[Token]) -> Result<(T, &[Token]), ParseFault>
    ensures here { IfOk result (λ x. (x.0 ≡ read) × (meanings tokens.now ≡ CloseSign ∷ meanings x.1.now)) }
    ensures missing { IfErr result (λ e. (e ≡ Syntax) × ((rest : Tokens) → meanings tokens.now ≡ CloseSign ∷ rest → ⊥)) }
{
    match symbol(tokens, Symbol::CloseParenthesis) {
        None => {
            drop(read);
            Err(ParseFault::Syntax)
        }
        Some(rest) => Ok((read, rest)),
    }
}
