//! The first token of what is left.

ghost use Rattle.std.specs.Prelude.{◌≡◌, ◌≢◌, true, false, [], ◌∷◌, MatchOption};
ghost use Rattle.std.specs.Rc.{rc_str_bytes};
ghost use Rattle.wlexer.specs.Token.{lexeme_meaning, KeywordToken, SymbolToken};
ghost use Rattle.wtokens.specs.Words.{CommaSign, name_of, number_of, text_of, operator_of, comparison_of};
ghost use Rattle.wtokens.specs.Words.{sign_of, direction_of, null_order_of, mode_of};
ghost use Rattle.wtokens.specs.Notation.{Tokens, meanings, One, Never};

use std::rc::RcStr;
use wlexer::{Keyword, Lexeme, Number, Symbol, Token};
use wquery::{ChainKind, Comparison, FrameMode, NullOrder, Operator};

/// The first token, and what follows it.
fn front(tokens: &[Token]) -> Option<(&Lexeme, &[Token])>
    ensures { MatchOption result (meanings tokens.now ≡ []) (λ x. meanings tokens.now ≡ lexeme_meaning x.0.now ∷ meanings x.1.now) }
{
    let (token, rest) = tokens.split_first()?;
    Some((&token.lexeme, rest))
}

/// What follows this keyword, where it comes first.
pub fn keyword(tokens: &[Token], wanted: Keyword) -> Option<&[Token]>
    ensures { MatchOption result ((ts : Tokens) → meanings tokens.now ≢ KeywordToken wanted ∷ ts) (λ x. meanings tokens.now
        ≡ KeywordToken wanted ∷ meanings x.now) }
{
    let (lexeme, rest) = front(tokens)?;
    if is_keyword(lexeme, wanted) {
        Some(rest)
    } else {
        None
    }
}

/// What follows these two keywords, where they come first.
pub fn keyword_pair(tokens: &[Token], one: Keyword, other: Keyword) -> Option<&[Token]>
    ensures { MatchOption result ((ts : Tokens) → meanings tokens.now ≢ KeywordToken one ∷ KeywordToken other ∷ ts)
        (λ x. meanings tokens.now ≡ KeywordToken one ∷ KeywordToken other ∷ meanings x.now) }
{
    let after = keyword(tokens, one)?;
    keyword(after, other)
}

fn is_keyword(lexeme: &Lexeme, wanted: Keyword) -> bool
    ensures same { result ≡ true → lexeme_meaning lexeme.now ≡ KeywordToken wanted }
    ensures other { result ≡ false → lexeme_meaning lexeme.now ≢ KeywordToken wanted }
{
    match lexeme {
        Lexeme::Keyword(k) => *k == wanted,
        _ => false,
    }
}

/// What follows this symbol, where it comes first.
pub fn symbol(tokens: &[Token], wanted: Symbol) -> Option<&[Token]>
    ensures { MatchOption result ((ts : Tokens) → meanings tokens.now ≢ SymbolToken wanted ∷ ts) (λ x. meanings tokens.now
        ≡ SymbolToken wanted ∷ meanings x.now) }
{
    let (lexeme, rest) = front(tokens)?;
    if is_symbol(lexeme, wanted) {
        Some(rest)
    } else {
        None
    }
}

/// What follows a comma, where one comes first.
pub fn behind_comma(tokens: &[Token]) -> Option<&[Token]>
    ensures { MatchOption result ((ts : Tokens) → meanings tokens.now ≢ CommaSign ∷ ts) (λ x. meanings tokens.now
        ≡ CommaSign ∷ meanings x.now) }
{
    symbol(tokens, Symbol::Comma)
}

fn is_symbol(lexeme: &Lexeme, wanted: Symbol) -> bool
    ensures same { result ≡ true → lexeme_meaning lexeme.now ≡ SymbolToken wanted }
    ensures other { result ≡ false → lexeme_meaning lexeme.now ≢ SymbolToken wanted }
{
    match lexeme {
        Lexeme::Symbol(s) => *s == wanted,
        _ => false,
    }
}

/// A name, where one comes first, and what follows it.
pub fn name(tokens: &[Token]) -> Option<(&RcStr, &[Token])>
    ensures { MatchOption result (Never (One name_of) (meanings tokens.now)) (λ x. One name_of (rc_str_bytes x.0.now)
        (meanings tokens.now) (meanings x.1.now)) }
{
    let (lexeme, rest) = front(tokens)?;
    match lexeme {
        Lexeme::Name(name) => Some((name, rest)),
        _ => None,
    }
}

/// A text, where one comes first, and what follows it.
pub fn text(tokens: &[Token]) -> Option<(&RcStr, &[Token])>
    ensures { MatchOption result (Never (One text_of) (meanings tokens.now)) (λ x. One text_of (rc_str_bytes x.0.now)
        (meanings tokens.now) (meanings x.1.now)) }
{
    let (lexeme, rest) = front(tokens)?;
    match lexeme {
        Lexeme::Text(text) => Some((text, rest)),
        _ => None,
    }
}

/// A number, where one comes first, and what follows it.
pub fn number(tokens: &[Token]) -> Option<(&Number, &[Token])>
    ensures { MatchOption result (Never (One number_of) (meanings tokens.now))
        (λ x. One number_of (x.0.now) (meanings tokens.now) (meanings x.1.now)) }
{
    let (lexeme, rest) = front(tokens)?;
    match lexeme {
        Lexeme::Number(n) => Some((n, rest)),
        _ => None,
    }
}

fn operator_of(kind: ChainKind, lexeme: &Lexeme) -> Option<Operator>
    ensures { result ≡ operator_of kind (lexeme_meaning lexeme.now) }
{
    match lexeme {
        Lexeme::Keyword(k) => match (kind, *k) {
            (ChainKind::Disjunction, Keyword::Or) => Some(Operator::Or),
            (ChainKind::Conjunction, Keyword::And) => Some(Operator::And),
            _ => None,
        },
        Lexeme::Symbol(s) => match (kind, *s) {
            (ChainKind::Sum, Symbol::Plus) => Some(Operator::Plus),
            (ChainKind::Sum, Symbol::Minus) => Some(Operator::Minus),
            (ChainKind::Product, Symbol::Asterisk) => Some(Operator::Times),
            _ => None,
        },
        _ => None,
    }
}

/// The operator of a chain, where one comes first, and what follows it.
pub fn operator(kind: ChainKind, tokens: &[Token]) -> Option<(Operator, &[Token])>
    ensures { MatchOption result (Never (One (operator_of kind)) (meanings tokens.now))
        (λ x. One (operator_of kind) (x.0) (meanings tokens.now) (meanings x.1.now)) }
{
    let (lexeme, rest) = front(tokens)?;
    let operator = operator_of(kind, lexeme)?;
    Some((operator, rest))
}

fn comparison_of(lexeme: &Lexeme) -> Option<Comparison>
    ensures { result ≡ comparison_of (lexeme_meaning lexeme.now) }
{
    match lexeme {
        Lexeme::Symbol(s) => match *s {
            Symbol::Equal => Some(Comparison::Equal),
            Symbol::NotEqual => Some(Comparison::NotEqual),
            Symbol::Less => Some(Comparison::Less),
            Symbol::LessOrEqual => Some(Comparison::LessOrEqual),
            Symbol::Greater => Some(Comparison::Greater),
            Symbol::GreaterOrEqual => Some(Comparison::GreaterOrEqual),
            _ => None,
        },
        _ => None,
    }
}

/// The operator of a comparison, where one comes first, and what follows it.
pub fn comparison_operator(tokens: &[Token]) -> Option<(Comparison, &[Token])>
    ensures { MatchOption result (Never (One comparison_of) (meanings tokens.now))
        (λ x. One comparison_of (x.0) (meanings tokens.now) (meanings x.1.now)) }
{
    let (lexeme, rest) = front(tokens)?;
    let comparison = comparison_of(lexeme)?;
    Some((comparison, rest))
}

fn sign_of(lexeme: &Lexeme) -> Option<bool>
    ensures { result ≡ sign_of (lexeme_meaning lexeme.now) }
{
    match lexeme {
        Lexeme::Symbol(Symbol::Plus) => Some(false),
        Lexeme::Symbol(Symbol::Minus) => Some(true),
        _ => None,
    }
}

/// Whether a leading sign is a minus, where one comes first, and what follows it.
pub fn leading_sign(tokens: &[Token]) -> Option<(bool, &[Token])>
    ensures { MatchOption result (Never (One sign_of) (meanings tokens.now)) (λ x. One sign_of (x.0) (meanings tokens.now)
        (meanings x.1.now)) }
{
    let (lexeme, rest) = front(tokens)?;
    let minus = sign_of(lexeme)?;
    Some((minus, rest))
}

fn direction_of(lexeme: &Lexeme) -> Option<bool>
    ensures { result ≡ direction_of (lexeme_meaning lexeme.now) }
{
    match lexeme {
        Lexeme::Keyword(Keyword::Asc) => Some(false),
        Lexeme::Keyword(Keyword::Desc) => Some(true),
        _ => None,
    }
}

/// Whether a direction descends, where one comes first, and what follows it.
pub fn direction(tokens: &[Token]) -> Option<(bool, &[Token])>
    ensures { MatchOption result (Never (One direction_of) (meanings tokens.now))
        (λ x. One direction_of (x.0) (meanings tokens.now) (meanings x.1.now)) }
{
    let (lexeme, rest) = front(tokens)?;
    let descends = direction_of(lexeme)?;
    Some((descends, rest))
}

fn null_order_of(lexeme: &Lexeme) -> Option<NullOrder>
    ensures { result ≡ null_order_of (lexeme_meaning lexeme.now) }
{
    match lexeme {
        Lexeme::Keyword(Keyword::First) => Some(NullOrder::First),
        Lexeme::Keyword(Keyword::Last) => Some(NullOrder::Last),
        _ => None,
    }
}

/// A place of nulls, where one comes first, and what follows it.
pub fn null_order(tokens: &[Token]) -> Option<(NullOrder, &[Token])>
    ensures { MatchOption result (Never (One null_order_of) (meanings tokens.now))
        (λ x. One null_order_of (x.0) (meanings tokens.now) (meanings x.1.now)) }
{
    let (lexeme, rest) = front(tokens)?;
    let nulls = null_order_of(lexeme)?;
    Some((nulls, rest))
}

fn mode_of(lexeme: &Lexeme) -> Option<FrameMode>
    ensures { result ≡ mode_of (lexeme_meaning lexeme.now) }
{
    match lexeme {
        Lexeme::Keyword(Keyword::Rows) => Some(FrameMode::Rows),
        Lexeme::Keyword(Keyword::Range) => Some(FrameMode::Range),
        Lexeme::Keyword(Keyword::Groups) => Some(FrameMode::Groups),
        _ => None,
    }
}

/// A frame's mode, where one comes first, and what follows it.
pub fn mode(tokens: &[Token]) -> Option<(FrameMode, &[Token])>
    ensures { MatchOption result (Never (One mode_of) (meanings tokens.now)) (λ x. One mode_of (x.0) (meanings tokens.now)
        (meanings x.1.now)) }
{
    let (lexeme, rest) = front(tokens)?;
    let mode = mode_of(lexeme)?;
    Some((mode, rest))
}
