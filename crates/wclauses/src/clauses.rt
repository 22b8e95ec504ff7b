//! Where the tokens of a query stand: in which clause of their SELECT, and in what of a call. All are found in one walk.

ghost use Rattle.std.specs.Prelude.{◌≡◌, ◌-◌, [], IfOk, OnOk, slice_get};
ghost use Rattle.wlexer.specs.Token.{lexeme_meaning};
ghost use denote.Enum.Bare.{sameb};
ghost use Rattle.wclauses.specs.contracts.clauses.Clause.{the_type as clauses};
ghost use Rattle.wclauses.specs.Pairs.{is_group_call, pairs_of};
ghost use Rattle.wclauses.specs.Clauses.{opener_at, opener_by, opener_in, clause_of, beginning, inside, way_of, outermost};
ghost use Rattle.wclauses.specs.Clauses.{entered, left, begun, over, standings_of, standings_from, stands_in};

use crate::pairs::Pairs;
use std::alloc::{AllocError, Global};
use wlexer::{Keyword, Lexeme, Symbol, Token};

/// A clause of a SELECT.
#[derive(Clone, Copy, PartialEq, Eq)]
pub enum Clause {
    Items,
    /// What stands behind FROM.
    Source,
    /// What WHERE says.
    Condition,
    /// What stands behind GROUP BY.
    Grouping,
    Having,
    Windows,
    Order,
    Limits,
}

/// Where a token stands. A parenthesis stands where the token behind it does.
#[derive(Clone, Copy)]
pub struct Standing {
    /// How many SELECTs stand around its own.
    pub level: usize,
    pub clause: Clause,
    /// Whether it stands in an argument, the FILTER or the window of a call.
    pub is_in_call: bool,
    /// Whether it stands in an argument or the FILTER of an aggregate without OVER.
    pub is_in_aggregate: bool,
    /// Whether it stands in GROUPING.
    pub is_in_grouping: bool,
}

/// What stands before a pair of parentheses.
#[derive(Clone, Copy, PartialEq, Eq)]
enum Opener {
    /// The name of a function.
    Function,
    Filter,
    Over,
    Grouping,
    From,
    Other,
}

/// A pair of parentheses that is open, or the whole query.
#[derive(Clone, Copy)]
struct OpenPair {
    /// Where the next token in it stands.
    standing: Standing,
    /// Whether it holds a SELECT.
    is_query: bool,
    /// Whether the last call in it is one of an aggregate without OVER.
    last_is_group_call: bool,
}

/// The way through the tokens.
#[derive(Drop)]
struct Walk {
    /// The innermost pair of parentheses.
    inner: OpenPair,
    /// Those around it, the outermost first.
    outer: Vec<OpenPair>,
}

/// Where all tokens of a query stand, and its parentheses.
#[derive(Drop)]
pub struct Clauses {
    pub pairs: Pairs,
    standings: Vec<Standing>,
}

// What a keyword is to a parenthesis behind it.
fn opener_by(keyword: Keyword) -> Opener
    ensures { result ≡ opener_by keyword }
{
    match keyword {
        Keyword::Filter => Opener::Filter,
        Keyword::Over => Opener::Over,
        Keyword::Grouping => Opener::Grouping,
        Keyword::From => Opener::From,
        _ => Opener::Other,
    }
}

// What a token is to a parenthesis behind it.
fn opener_in(lexeme: &Lexeme) -> Opener
    ensures { result ≡ opener_in (lexeme_meaning lexeme.now) }
{
    match lexeme {
        Lexeme::Name(_) => Opener::Function,
        Lexeme::Keyword(keyword) => opener_by(*keyword),
        _ => Opener::Other,
    }
}

// What stands before a parenthesis.
fn opener_at(tokens: &[Token], number: usize) -> Opener
    ensures { result ≡ opener_at tokens.now number }
{
    if number == 0 {
        return Opener::Other;
    }
    match tokens.get(number - 1) {
        Some(token) => opener_in(&token.lexeme),
        None => Opener::Other,
    }
}

// The clause that a keyword begins, if it stands in no parentheses of its SELECT.
fn clause_of(keyword: Keyword) -> Option<Clause>
    ensures { result ≡ clause_of keyword }
{
    match keyword {
        Keyword::From => Some(Clause::Source),
        Keyword::Where => Some(Clause::Condition),
        Keyword::Group => Some(Clause::Grouping),
        Keyword::Having => Some(Clause::Having),
        Keyword::Window => Some(Clause::Windows),
        Keyword::Order => Some(Clause::Order),
        Keyword::Limit => Some(Clause::Limits),
        Keyword::Offset => Some(Clause::Limits),
        _ => None,
    }
}

// Where a SELECT of a level begins.
fn beginning(level: usize) -> Standing
    ensures { result ≡ beginning level }
{
    Standing {
        level,
        clause: Clause::Items,
        is_in_call: false,
        is_in_aggregate: false,
        is_in_grouping: false,
    }
}

impl OpenPair {
    // Where the tokens stand in parentheses behind this.
    fn standing_behind(&self, opener: Opener) -> Standing
        ensures { result ≡ inside opener self.now }
    {
        let mut inside = self.standing;
        match opener {
            Opener::From => return beginning(inside.level.saturating_add(1)),
            Opener::Grouping => inside.is_in_grouping = true,
            Opener::Over => inside.is_in_call = true,
            Opener::Function | Opener::Filter => {
                inside.is_in_call = true;
                inside.is_in_aggregate = inside.is_in_aggregate || self.last_is_group_call;
            }
            Opener::Other => {}
        }
        inside
    }
}

impl Walk {
    // Goes into a pair of parentheses.
    fn enter(&mut self, tokens: &[Token], pairs: &Pairs, number: usize) -> Result<(), AllocError>
        ensures { OnOk result (way_of self.new.inner self.new.outer.items ≡ entered (opener_at tokens.now number)
            (is_group_call pairs.now.pairs.items tokens.now (number - 1)) (way_of self.old.inner self.old.outer.items)) }
    {
        let opener = opener_at(tokens, number);
        if opener == Opener::Function {
            self.inner.last_is_group_call = pairs.is_group_call(tokens, number.saturating_sub(1));
        }
        let standing = self.inner.standing_behind(opener);
        self.outer.push(self.inner)?;
        self.inner = OpenPair {
            standing,
            is_query: opener == Opener::From,
            last_is_group_call: false,
        };
        Ok(())
    }

    // Goes out of a pair of parentheses.
    fn leave(&mut self)
        ensures { way_of self.new.inner self.new.outer.items ≡ left (way_of self.old.inner self.old.outer.items) }
    {
        if let Some(outer) = self.outer.pop() {
            self.inner = outer;
        }
    }

    // Begins a clause, if the keyword does here.
    fn begin(&mut self, keyword: Keyword)
        ensures inner { self.new.inner ≡ begun keyword self.old.inner }
        ensures outer { self.new.outer ≡ self.old.outer }
    {
        if !self.inner.is_query {
            return;
        }
        if let Some(clause) = clause_of(keyword) {
            self.inner.standing.clause = clause;
        }
    }

    // Goes on over a token, and tells where it stands.
    fn take(
        &mut self,
        tokens: &[Token],
        pairs: &Pairs,
        number: usize,
    ) -> Result<Standing, AllocError>
        ensures way { OnOk result (way_of self.new.inner self.new.outer.items
            ≡ over pairs.now.pairs.items tokens.now number (slice_get tokens.now number) (way_of self.old.inner self.old.outer.items)) }
        ensures standing { IfOk result (λ standing. standing ≡ self.new.inner.standing) }
    {
        if let Some(token) = tokens.get(number) {
            match &token.lexeme {
                Lexeme::Symbol(Symbol::OpenParenthesis) => self.enter(tokens, pairs, number)?,
                Lexeme::Symbol(Symbol::CloseParenthesis) => self.leave(),
                Lexeme::Keyword(keyword) => self.begin(*keyword),
                _ => {}
            }
        }
        Ok(self.inner.standing)
    }
}

// Where all tokens stand.
fn standings_of(alloc: Global, tokens: &[Token], pairs: &Pairs) -> Result<Vec<Standing>, AllocError>
    ensures { IfOk result (λ found. found.items
        ≡ standings_from pairs.now.pairs.items tokens.now 0 tokens.now (way_of outermost [])) }
{
    let mut standings = Vec::new(alloc);
    let mut walk = Walk {
        inner: OpenPair {
            standing: beginning(0),
            is_query: true,
            last_is_group_call: false,
        },
        outer: Vec::new(alloc),
    };
    'tokens: for number in 0..tokens.len() {
        let standing = walk.take(tokens, pairs, number)?;
        standings.push(standing)?;
    }
    Ok(standings)
}

impl Clauses {
    /// Where the tokens of a query stand.
    pub fn new(alloc: Global, tokens: &[Token]) -> Result<Clauses, AllocError>
        ensures pairs { IfOk result (λ found. found.pairs.pairs.items ≡ pairs_of tokens.now) }
        ensures standings { IfOk result (λ found. found.standings.items ≡ standings_of tokens.now) }
    {
        let pairs = Pairs::new(alloc, tokens)?;
        let standings = standings_of(alloc, tokens, &pairs)?;
        Ok(Clauses { pairs, standings })
    }

    /// Where a token stands.
    pub fn standing(&self, token: usize) -> Option<Standing>
        ensures { result ≡ slice_get self.now.standings.items token }
    {
        self.standings.get(token).copied()
    }

    /// Whether a token stands in this clause of its SELECT.
    pub fn is_in(&self, token: usize, clause: Clause) -> bool
        ensures { result ≡ stands_in (λ other. sameb clauses other clause) (slice_get self.now.standings.items token) }
    {
        match self.standings.get(token) {
            Some(standing) => standing.clause == clause,
            None => false,
        }
    }
}
