//! Reads the parts of windows that hold no expressions. What asks for no memory refuses with `None`.

ghost use Rattle.std.specs.Prelude.{◌≡◌, true, false, ◌∷◌};
ghost use Rattle.std.specs.Rc.{rc_str_bytes};
ghost use Rattle.wlexer.specs.Token.{KeywordToken};
ghost use Rattle.wlexer.specs.declared.keyword.Keyword.TheVariants.{Not};
ghost use Rattle.wquery.specs.Tree.{name_bytes};
ghost use Rattle.wtokens.specs.Words.{name_of};
ghost use Rattle.wtokens.specs.Notation.{One, meanings};
ghost use Rattle.wexpressions.specs.Grammar.{optional_name, optional_frame, descending, nulls_placed, extent};
ghost use Rattle.wexpressions.specs.Grammar.{two_bounds, bound, toward, exclusion, optional_exclusion};
ghost use Rattle.wexpressions.specs.Grips.{any_class, direction_class, nulls_class, name_class, frame_class};
ghost use Rattle.wexpressions.specs.Finding.{outcome, got_or_refused, Got, Answers, IsWithout};

use crate::fault::ParseFault;
use std::rc::RcStr;
use wlexer::{Keyword, Token};
use wquery::{Frame, FrameBound, FrameExclusion, NullOrder, build};
use wtokens::{direction, keyword, keyword_pair, mode, name, null_order, number};

/// Whether NOT comes first, and what follows.
pub(crate) fn optional_not(tokens: &[Token]) -> (bool, &[Token])
    ensures here { result.0 ≡ true → meanings tokens.now ≡ KeywordToken Not ∷ meanings result.1.now }
    ensures absent { result.0 ≡ false → IsWithout (KeywordToken Not) (meanings tokens.now) (meanings result.1.now) }
{
    match keyword(tokens, Keyword::Not) {
        None => (false, tokens),
        Some(rest) => (true, rest),
    }
}

/// A name.
pub fn copied_name(tokens: &[Token]) -> Result<(RcStr, &[Token]), ParseFault>
    ensures { Answers (One name_of) any_class (meanings tokens.now) (outcome (λ x. rc_str_bytes x.0) (λ x. x.1.now) result) }
{
    let Some((name, rest)) = name(tokens) else {
        return Err(ParseFault::Syntax);
    };
    let name = name.clone()?;
    Ok((name, rest))
}

/// A name, if one comes first.
pub fn optional_name(tokens: &[Token]) -> Result<(Option<RcStr>, &[Token]), ParseFault>
    ensures { Answers optional_name name_class (meanings tokens.now) (outcome (λ x. name_bytes x.0) (λ x. x.1.now) result) }
{
    let Some((name, rest)) = name(tokens) else {
        return Ok((None, tokens));
    };
    let name = name.clone()?;
    Ok((Some(name), rest))
}

/// Whether DESC comes first; ASC and nothing are the same.
pub(crate) fn descending(tokens: &[Token]) -> (bool, &[Token])
    ensures { Answers descending direction_class (meanings tokens.now) (Got (result.0) (meanings result.1.now)) }
{
    match direction(tokens) {
        None => (false, tokens),
        Some((descending, rest)) => (descending, rest),
    }
}

/// The place of nulls, if NULLS comes first. It refuses NULLS alone.
pub(crate) fn nulls_placed(tokens: &[Token]) -> Option<(Option<NullOrder>, &[Token])>
    ensures { Answers nulls_placed nulls_class (meanings tokens.now) (got_or_refused (λ x. x.0) (λ x. x.1.now) result) }
{
    let Some(after) = keyword(tokens, Keyword::Nulls) else {
        return Some((None, tokens));
    };
    let (nulls, rest) = null_order(after)?;
    Some((Some(nulls), rest))
}

/// A frame, if a mode comes first. It refuses what only begins as one.
pub(crate) fn optional_frame(tokens: &[Token]) -> Option<(Option<Frame>, &[Token])>
    ensures { Answers optional_frame frame_class (meanings tokens.now) (got_or_refused (λ x. x.0) (λ x. x.1.now) result) }
{
    let Some((mode, rest)) = mode(tokens) else {
        return Some((None, tokens));
    };
    let Some((ends, rest)) = extent(rest) else {
        return None;
    };
    let Some((exclusion, rest)) = optional_exclusion(rest) else {
        return None;
    };
    let frame = Frame {
        mode,
        start: ends.0,
        end: ends.1,
        exclusion,
    };
    Some((Some(frame), rest))
}

fn extent(tokens: &[Token]) -> Option<((FrameBound, Option<FrameBound>), &[Token])>
    ensures { Answers extent any_class (meanings tokens.now) (got_or_refused (λ x. x.0) (λ x. x.1.now) result) }
{
    if let Some(after) = keyword(tokens, Keyword::Between) {
        return two_bounds(after);
    }
    match bound(tokens) {
        None => None,
        Some((start, rest)) => Some(((start, None), rest)),
    }
}

fn two_bounds(tokens: &[Token]) -> Option<((FrameBound, Option<FrameBound>), &[Token])>
    ensures { Answers two_bounds any_class (meanings tokens.now) (got_or_refused (λ x. x.0) (λ x. x.1.now) result) }
{
    let Some((start, rest)) = bound(tokens) else {
        return None;
    };
    let Some(after) = keyword(rest, Keyword::And) else {
        return None;
    };
    match bound(after) {
        None => None,
        Some((end, rest)) => Some((build::ends(start, end), rest)),
    }
}

fn bound(tokens: &[Token]) -> Option<(FrameBound, &[Token])>
    ensures { Answers bound any_class (meanings tokens.now) (got_or_refused (λ x. x.0) (λ x. x.1.now) result) }
{
    if let Some(after) = keyword(tokens, Keyword::Unbounded) {
        return toward(
            after,
            FrameBound::UnboundedPreceding,
            FrameBound::UnboundedFollowing,
        );
    }
    if let Some(rest) = keyword_pair(tokens, Keyword::Current, Keyword::Row) {
        return Some((FrameBound::CurrentRow, rest));
    }
    let (n, after) = number(tokens)?;
    toward(after, FrameBound::Preceding(*n), FrameBound::Following(*n))
}

fn toward(tokens: &[Token], back: FrameBound, ahead: FrameBound) -> Option<(FrameBound, &[Token])>
    ensures { Answers (toward back ahead) any_class (meanings tokens.now) (got_or_refused (λ x. x.0) (λ x. x.1.now) result) }
{
    if let Some(rest) = keyword(tokens, Keyword::Preceding) {
        return Some((back, rest));
    }
    let rest = keyword(tokens, Keyword::Following)?;
    Some((ahead, rest))
}

fn optional_exclusion(tokens: &[Token]) -> Option<(Option<FrameExclusion>, &[Token])>
    ensures { Answers optional_exclusion frame_class (meanings tokens.now) (got_or_refused (λ x. x.0) (λ x. x.1.now) result) }
{
    let Some(after) = keyword(tokens, Keyword::Exclude) else {
        return Some((None, tokens));
    };
    let (exclusion, rest) = exclusion(after)?;
    Some((Some(exclusion), rest))
}

fn exclusion(tokens: &[Token]) -> Option<(FrameExclusion, &[Token])>
    ensures { Answers exclusion any_class (meanings tokens.now) (got_or_refused (λ x. x.0) (λ x. x.1.now) result) }
{
    if let Some(rest) = keyword_pair(tokens, Keyword::Current, Keyword::Row) {
        return Some((FrameExclusion::CurrentRow, rest));
    }
    if let Some(rest) = keyword(tokens, Keyword::Group) {
        return Some((FrameExclusion::Group, rest));
    }
    if let Some(rest) = keyword(tokens, Keyword::Ties) {
        return Some((FrameExclusion::Ties, rest));
    }
    let rest = keyword_pair(tokens, Keyword::No, Keyword::Others)?;
    Some((FrameExclusion::NoOthers, rest))
}
