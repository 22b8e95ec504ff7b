//! The parentheses of a query in pairs, and the calls by them.

ghost use Rattle.std.specs.Prelude.{◌≡◌, ◌+◌, ◌∷◌, List, reverse, IfOk, OnOk, slice_get};
ghost use Rattle.wlexer.specs.Token.{meaning_of};
ghost use Rattle.wclauses.specs.declared.pairs.Sign.{Sign};
ghost use Rattle.wclauses.specs.Pairs.{sign_of, pairs_of, behind, behind_arguments, commas_in, arguments, has_filter, has_over};
ghost use Rattle.wclauses.specs.Pairs.{is_group_call};
ghost use Rattle.wclauses.specs.Settling.{Stands, closed, outside, parted, settled};

use crate::tokens::{function_at, is_keyword, is_symbol};
use std::alloc::{AllocError, Global};
use wlexer::{Keyword, Lexeme, Symbol, Token};

/// A pair of parentheses.
#[derive(Clone, Copy)]
struct Pair {
    /// The number of the token that closes it.
    close: usize,
    /// How many commas stand in it, and in no pair within.
    commas: usize,
}

/// What a token is to the pairs.
#[derive(Clone, Copy)]
enum Sign {
    Opens,
    Closes,
    /// A comma.
    Parts,
    Other,
}

/// A pair that is open on the way.
#[derive(Clone, Copy)]
struct Opened {
    /// The number of the token that opens it.
    open: usize,
    /// How many commas were passed in it.
    commas: usize,
}

/// What stands in the parentheses of a call.
#[derive(Clone, Copy)]
pub enum Arguments {
    Star,
    /// So many arguments.
    Listed(usize),
}

/// The pairs of parentheses of a query.
#[derive(Drop)]
pub struct Pairs {
    /// For each token the pair that it opens. Where it opens none, the token by itself.
    pairs: Vec<Pair>,
}

/// The way through the tokens.
#[derive(Drop)]
struct Pairing {
    pairs: Vec<Pair>,
    /// The pairs that are open, the outermost first.
    opened: Vec<Opened>,
}

// What a token is to the pairs.
fn sign_of(token: &Token) -> Sign
    ensures { result ≡ sign_of (meaning_of token.now) }
{
    match &token.lexeme {
        Lexeme::Symbol(Symbol::OpenParenthesis) => Sign::Opens,
        Lexeme::Symbol(Symbol::CloseParenthesis) => Sign::Closes,
        Lexeme::Symbol(Symbol::Comma) => Sign::Parts,
        _ => Sign::Other,
    }
}

impl Pairing {
    // Closes the innermost pair that is open, if there is one.
    fn close(&mut self, number: usize)
        ensures opened { reverse self.new.opened.items ≡ outside (reverse self.old.opened.items) }
        ensures pairs { self.new.pairs.items ≡ closed (reverse self.old.opened.items) number self.old.pairs.items }
    {
        let Some(inner) = self.opened.pop() else {
            return;
        };
        if let Some(pair) = self.pairs.get_mut(inner.open) {
            *pair = Pair {
                close: number,
                commas: inner.commas,
            };
        }
    }

    // Passes a comma in the innermost pair that is open, if there is one.
    fn part(&mut self)
        ensures opened { reverse self.new.opened.items ≡ parted (reverse self.old.opened.items) }
        ensures pairs { self.new.pairs.items ≡ self.old.pairs.items }
    {
        if let Some(inner) = self.opened.last_mut() {
            inner.commas = inner.commas.saturating_add(1);
        }
    }

    // Goes on over a token.
    fn take(&mut self, number: usize, token: &Token) -> Result<(), AllocError>
        requires { Stands number self.old.pairs.items (reverse self.old.opened.items) }
        ensures stands { OnOk result (Stands (number + 1) self.new.pairs.items (reverse self.new.opened.items)) }
        ensures settled { OnOk result ((rest : List Sign)
            → settled self.new.pairs.items (reverse self.new.opened.items) (number + 1) rest
            ≡ settled self.old.pairs.items (reverse self.old.opened.items) number (sign_of (meaning_of token.now) ∷ rest)) }
    {
        self.pairs.push(Pair {
            close: number,
            commas: 0,
        })?;
        match sign_of(token) {
            Sign::Opens => self.opened.push(Opened {
                open: number,
                commas: 0,
            })?,
            Sign::Closes => self.close(number),
            Sign::Parts => self.part(),
            Sign::Other => {}
        }
        Ok(())
    }
}

impl Pairs {
    /// The pairs of these tokens.
    pub fn new(alloc: Global, tokens: &[Token]) -> Result<Pairs, AllocError>
        ensures { IfOk result (λ found. found.pairs.items ≡ pairs_of tokens.now) }
    {
        let mut way = Pairing {
            pairs: Vec::new(alloc),
            opened: Vec::new(alloc),
        };
        'tokens: for (number, token) in tokens.iter().enumerate() {
            way.take(number, token)?;
        }
        Ok(Pairs { pairs: way.pairs })
    }

    // What stands behind a pair that opens at a token.
    fn behind(&self, opener: usize) -> usize
        ensures { result ≡ behind self.now.pairs.items opener }
    {
        match self.pairs.get(opener) {
            Some(pair) => pair.close.saturating_add(1),
            None => opener,
        }
    }

    // What stands behind the arguments of the function at a token.
    fn behind_arguments(&self, name: usize) -> usize
        ensures { result ≡ behind_arguments self.now.pairs.items name }
    {
        self.behind(name.saturating_add(1))
    }

    // How many commas stand in a pair that opens at a token.
    fn commas(&self, opener: usize) -> usize
        ensures { result ≡ commas_in (slice_get self.now.pairs.items opener) }
    {
        match self.pairs.get(opener) {
            Some(pair) => pair.commas,
            None => 0,
        }
    }

    /// The arguments of the function at a token, or of GROUPING.
    pub fn arguments(&self, tokens: &[Token], name: usize) -> Arguments
        ensures { result ≡ arguments self.now.pairs.items tokens.now name }
    {
        let opener = name.saturating_add(1);
        let first = opener.saturating_add(1);
        if is_symbol(tokens, first, Symbol::Asterisk) {
            return Arguments::Star;
        }
        if is_symbol(tokens, first, Symbol::CloseParenthesis) {
            return Arguments::Listed(0);
        }
        Arguments::Listed(self.commas(opener).saturating_add(1))
    }

    /// Whether the function at a token has FILTER.
    pub fn has_filter(&self, tokens: &[Token], name: usize) -> bool
        ensures { result ≡ has_filter self.now.pairs.items tokens.now name }
    {
        is_keyword(tokens, self.behind_arguments(name), Keyword::Filter)
    }

    /// Whether the function at a token has OVER.
    pub fn has_over(&self, tokens: &[Token], name: usize) -> bool
        ensures { result ≡ has_over self.now.pairs.items tokens.now name }
    {
        let behind = self.behind_arguments(name);
        if !is_keyword(tokens, behind, Keyword::Filter) {
            return is_keyword(tokens, behind, Keyword::Over);
        }
        is_keyword(tokens, self.behind(behind.saturating_add(1)), Keyword::Over)
    }

    /// Whether the function at a token is an aggregate without OVER.
    pub fn is_group_call(&self, tokens: &[Token], name: usize) -> bool
        ensures { result ≡ is_group_call self.now.pairs.items tokens.now name }
    {
        match function_at(tokens, name) {
            Some(function) => function.is_aggregate() && !self.has_over(tokens, name),
            None => false,
        }
    }
}
