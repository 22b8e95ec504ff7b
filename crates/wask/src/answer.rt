//! The way of a text: tokens, query, plan, table, bytes.
ghost use Rattle.std.specs.Prelude.{◌≡◌, ◌⊎◌, true, Ok, Err, IfErr, MatchResult};
ghost use Rattle.wquery.specs.QueryTree.{view_query};
ghost use Rattle.wask.specs.Texts.{IsRefused, IsText, Reads, lexical, syntactical};
ghost use Rattle.wset.specs.Sets.{Becomes};
ghost use Rattle.wplanner.specs.declared.fault.AskFault.TheVariants.{NoMemory};
ghost use Rattle.wask.specs.Answer.{IsAnswer, comes_before_rows, query_answer};

use std::alloc::Global;
use wlexer::{LexFault, lex};
use wparser::{ParseFault, parse};
use wplanner::{AskFault, answer_text};
use wquery::Query;
use wresolve::{ResolveFault, resolve};
use wset::SegmentSet;

fn lexical_fault(fault: LexFault) -> AskFault
    ensures { result ≡ lexical fault }
{
    match fault {
        LexFault::TooLong => AskFault::TooLong,
        LexFault::NotUtf8 => AskFault::NotUtf8,
        LexFault::At { place } => AskFault::At { place },
        LexFault::NoMemory => AskFault::NoMemory,
    }
}

fn syntactical_fault(fault: ParseFault) -> AskFault
    ensures { result ≡ syntactical fault }
{
    match fault {
        ParseFault::Syntax => AskFault::Syntax,
        ParseFault::NoMemory => AskFault::NoMemory,
    }
}

// The query that a text spells, or why it spells none.
fn read(alloc: Global, text: &[u8]) -> Result<Query, AskFault>
    ensures reads { MatchResult result (λ query. Reads text.now (view_query query)) (λ fault. IsRefused text.now fault) }
    ensures lacks { result ≡ Err NoMemory → IsText text.now }
{
    let tokens = match lex(alloc, text) {
        Err(fault) => return Err(lexical_fault(fault)),
        Ok(tokens) => tokens,
    };
    match parse(alloc, &tokens) {
        Err(fault) => Err(syntactical_fault(fault)),
        Ok(query) => Ok(query),
    }
}

// What a query is answered on the rows of the set, of which the cells are made first.
fn answer(alloc: Global, set: &mut SegmentSet, query: &Query) -> Result<Vec<u8>, AskFault>
    ensures answer { MatchResult result
        (λ bytes. query_answer set.old.schema set.old.view (view_query query.now) ≡ Ok bytes.items)
        (λ fault. (fault ≡ NoMemory) ⊎ (query_answer set.old.schema set.old.view (view_query query.now) ≡ Err fault)) }
    ensures unread { IfErr result (λ fault. comes_before_rows fault ≡ true → set.new ≡ set.old) }
    ensures same { Becomes set.old set.old.view set.new }
{
    match resolve(alloc, set.schema(), query) {
        Err(ResolveFault::NoMemory) => Err(AskFault::NoMemory),
        Err(ResolveFault::Broken(rule)) => Err(AskFault::Broken(rule)),
        Ok(resolved) => {
            set.make()?;
            answer_text(alloc, set, &resolved)
        }
    }
}

/// The bytes of the answer to a text on the rows of the set, or its first fault. What the set knows stays as it is; cells of its
/// segments may be made, and runs kept besides, but of a text that is refused as a query the set stays as it was. Bytes that are
/// too long or no UTF-8 are refused without memory.
pub fn ask(alloc: Global, set: &mut SegmentSet, text: &[u8]) -> Result<Vec<u8>, AskFault>
    ensures answer { MatchResult result
        (λ bytes. IsAnswer set.old.schema set.old.view text.now (Ok bytes.items))
        (λ fault. (fault ≡ NoMemory) ⊎ IsAnswer set.old.schema set.old.view text.now (Err fault)) }
    ensures lacks { result ≡ Err NoMemory → IsText text.now }
    ensures unread { IfErr result (λ fault. comes_before_rows fault ≡ true → set.new ≡ set.old) }
    ensures same { Becomes set.old set.old.view set.new }
{
    let query = read(alloc, text)?;
    answer(alloc, set, &query)
}
