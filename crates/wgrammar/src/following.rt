//! How far tokens can be followed as a query, and what the names on the way are.
//!
//! The place where they cannot is exact: what stands before it is the beginning of some query, and with the token there it
//! is none. Of tokens that are nested too deep it is the first.

use crate::grammar::{Kind, Nonterminal, PRODUCTIONS, Part, Production, Role};
use std::alloc::{AllocError, Global};
use wlexer::Token;
use wtokens::{keyword, name, number, symbol, text};

/// The levels of nesting that a query may have.
const MOST_NESTING: u32 = 64;

/// More parts than are written out for one token.
const MOST_PARTS: usize = 256;

/// A name of a query, or an end of a key of its ORDER BY.
#[derive(Clone, Copy)]
pub struct Mark {
    pub role: Role,
    /// The number of the token, from 0.
    pub token: usize,
    /// How many derived tables stand around it.
    pub level: usize,
}

/// Where tokens cannot be followed any further as a query.
#[derive(Clone, Copy)]
pub enum Stop {
    /// They are a query.
    Nowhere,
    /// At the token of this number, or at the end.
    At(usize),
    /// At the token of this number, which is nested too deep.
    TooDeep(usize),
}

/// What was followed.
#[derive(Drop)]
pub struct Followed {
    pub stop: Stop,
    /// The names up to there, in the order of the text.
    pub marks: Vec<Mark>,
}

/// The way through the tokens.
#[derive(Drop)]
struct Way<'a> {
    /// The tokens that are left.
    rest: &'a [Token],
    /// How many stand before them.
    token: usize,
    depth: u32,
    level: usize,
    /// What is still to come, the next part last.
    parts: Vec<Part>,
    marks: Vec<Mark>,
}

/// What taking a part has come to.
#[derive(Clone, Copy, PartialEq, Eq)]
enum Step {
    Taken,
    Refused,
    TooDeep,
}

// Whether a token of this kind comes first.
fn comes_first(kind: Kind, tokens: &[Token]) -> bool {
    match kind {
        Kind::Any => true,
        Kind::Keyword(word) => keyword(tokens, word).is_some(),
        Kind::Symbol(sign) => symbol(tokens, sign).is_some(),
        Kind::Name => name(tokens).is_some(),
        Kind::Number => number(tokens).is_some(),
        Kind::Text => text(tokens).is_some(),
    }
}

// The productions of a nonterminal, and those behind them.
fn productions_from(nonterminal: Nonterminal) -> &'static [Production] {
    let first = PRODUCTIONS.partition_point(|production| {
        (production.nonterminal as u8) < nonterminal as u8
    });
    PRODUCTIONS.get(first..).unwrap_or(&[])
}

// The production by which a nonterminal is written out before these tokens, if one fits.
fn production_for(nonterminal: Nonterminal, tokens: &[Token]) -> Option<&'static Production> {
    productions_from(nonterminal)
        .iter()
        .take_while(|production| production.nonterminal == nonterminal)
        .find(|production| comes_first(production.first, tokens))
}

impl<'a> Way<'a> {
    // Passes over the first token.
    fn pass(&mut self) {
        if let Some((_, rest)) = self.rest.split_first() {
            self.rest = rest;
            self.token = self.token.saturating_add(1);
        }
    }

    // Notes what stands here.
    fn note(&mut self, role: Role) -> Result<(), AllocError> {
        let mark = Mark {
            role,
            token: self.token,
            level: self.level,
        };
        self.marks.push(mark)?;
        Ok(())
    }

    // Takes a token of a kind.
    fn take_token(&mut self, kind: Kind) -> Step {
        if !comes_first(kind, self.rest) {
            return Step::Refused;
        }
        self.pass();
        Step::Taken
    }

    // Takes a name, and notes it.
    fn take_name(&mut self, role: Role) -> Result<Step, AllocError> {
        if name(self.rest).is_none() {
            return Ok(Step::Refused);
        }
        self.note(role)?;
        self.pass();
        Ok(Step::Taken)
    }

    // Puts what a nonterminal stands for in its place.
    fn write_out(&mut self, nonterminal: Nonterminal) -> Result<Step, AllocError> {
        let Some(production) = production_for(nonterminal, self.rest) else {
            return Ok(Step::Refused);
        };
        for part in production.parts.iter().rev() {
            self.parts.push(*part)?;
        }
        Ok(Step::Taken)
    }

    // Goes a level deeper, where there is one for the next token.
    fn go_deeper(&mut self) -> Step {
        if self.depth >= MOST_NESTING && !self.rest.is_empty() {
            return Step::TooDeep;
        }
        self.depth = self.depth.saturating_add(1);
        Step::Taken
    }

    // Goes on over a part.
    fn take(&mut self, part: Part) -> Result<Step, AllocError> {
        match part {
            Part::Token(kind) => return Ok(self.take_token(kind)),
            Part::Name(role) => return self.take_name(role),
            Part::Nonterminal(nonterminal) => return self.write_out(nonterminal),
            Part::Deeper => return Ok(self.go_deeper()),
            Part::Shallower => self.depth = self.depth.saturating_sub(1),
            Part::QueryBegins => self.level = self.level.saturating_add(1),
            Part::QueryEnds => self.level = self.level.saturating_sub(1),
            Part::KeyBegins => self.note(Role::KeyBegin)?,
            Part::KeyEnds => self.note(Role::KeyEnd)?,
        }
        Ok(Step::Taken)
    }

    // Goes on as far as the tokens can be followed.
    fn stop(&mut self, most: usize) -> Result<Stop, AllocError> {
        for _ in 0..most {
            let Some(part) = self.parts.pop() else {
                return Ok(self.stop_at_end());
            };
            match self.take(part)? {
                Step::Taken => {}
                Step::Refused => return Ok(Stop::At(self.token)),
                Step::TooDeep => return Ok(Stop::TooDeep(self.token)),
            }
        }
        Ok(Stop::At(self.token))
    }

    // Where nothing more may come: nowhere, unless something does.
    fn stop_at_end(&self) -> Stop {
        if self.rest.is_empty() {
            return Stop::Nowhere;
        }
        Stop::At(self.token)
    }
}

/// Follows tokens as a query, as far as they can be.
pub fn follow(alloc: Global, tokens: &[Token]) -> Result<Followed, AllocError> {
    let mut way = Way {
        rest: tokens,
        token: 0,
        depth: 0,
        level: 0,
        parts: Vec::new(alloc),
        marks: Vec::new(alloc),
    };
    way.parts.push(Part::Nonterminal(Nonterminal::Semicolon))?;
    way.parts.push(Part::Nonterminal(Nonterminal::Query))?;
    let most = tokens.len().saturating_add(1).saturating_mul(MOST_PARTS);
    let stop = way.stop(most)?;
    Ok(Followed {
        stop,
        marks: way.marks,
    })
}
