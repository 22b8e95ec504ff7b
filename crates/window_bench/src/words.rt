//! What the words of a line spell.
ghost use Rattle.std.specs.Prelude.{◌≡◌, ◌<◌, IfOk, IfErr, MatchOption};
ghost use Rattle.window_bench.specs.Words.{word_at, number_of, IsPositive, IsCount, mode_name, IsNoMode, IsBound};
ghost use Rattle.window_bench.specs.Words.{IsNoBound, IsNoOffset, exclusion_name, IsNoExclusion, aggregate_name};
ghost use Rattle.window_bench.specs.Words.{IsNoAggregate, SpellsFrame, SpellsCase, IsFrameFault, IsFault};

use crate::case::{Aggregate, Case, CaseFault};
use wframe::{Frame, FrameBound, FrameExclusion, FrameMode};

/// The first number of rows that is too large.
const ROWS_LIMIT: u32 = 1 << 31;

/// How many words a case has.
const CASE_WORDS: usize = 8;

// The word at a place, which has no letters where it is missing.
fn word_at<'a>(words: &[&'a str], place: usize) -> &'a str
    ensures { result.now ≡ word_at words.now place }
{
    if place < words.len() {
        words[place]
    } else {
        ""
    }
}

// The number that a word spells, if it is at least 1.
fn positive_word(word: &str) -> Option<u32>
    ensures { MatchOption result (¬ (IsPositive word.now)) (λ n. IsPositive word.now × (n ≡ number_of word.now)) }
{
    match word.parse::<u32>() {
        Ok(number) if 0 < number => Some(number),
        _ => None,
    }
}

// The number of rows that a word spells.
fn count_word(word: &str) -> Option<u32>
    ensures { MatchOption result (¬ (IsCount word.now)) (λ n. IsCount word.now × (n ≡ number_of word.now)) }
{
    match positive_word(word) {
        Some(number) if number < ROWS_LIMIT => Some(number),
        _ => None,
    }
}

fn mode_word(word: &str) -> Option<FrameMode>
    ensures { MatchOption result (IsNoMode word.now) (λ mode. word.now ≡ mode_name mode) }
{
    match word {
        "rows" => Some(FrameMode::Rows),
        "range" => Some(FrameMode::Range),
        "groups" => Some(FrameMode::Groups),
        _ => None,
    }
}

fn bound_word(word: &str) -> Option<FrameBound>
    ensures { MatchOption result (IsNoBound word.now) (λ bound. IsBound word.now bound) }
{
    match word {
        "unbounded-preceding" => Some(FrameBound::UnboundedPreceding),
        "current-row" => Some(FrameBound::CurrentRow),
        "unbounded-following" => Some(FrameBound::UnboundedFollowing),
        _ => offset_word(word),
    }
}

// The bound that a number, a hyphen and a side spell.
fn offset_word(word: &str) -> Option<FrameBound>
    ensures { MatchOption result (IsNoOffset word.now) (λ bound. IsBound word.now bound) }
{
    let Some((number, side)) = word.split_once('-') else {
        return None;
    };
    let Ok(offset) = number.parse::<u128>() else {
        return None;
    };
    match side {
        "preceding" => Some(FrameBound::Preceding(offset)),
        "following" => Some(FrameBound::Following(offset)),
        _ => None,
    }
}

fn exclusion_word(word: &str) -> Option<FrameExclusion>
    ensures { MatchOption result (IsNoExclusion word.now) (λ exclusion. word.now ≡ exclusion_name exclusion) }
{
    match word {
        "current-row" => Some(FrameExclusion::CurrentRow),
        "group" => Some(FrameExclusion::Group),
        "ties" => Some(FrameExclusion::Ties),
        "no-others" => Some(FrameExclusion::NoOthers),
        _ => None,
    }
}

fn aggregate_word(word: &str) -> Option<Aggregate>
    ensures { MatchOption result (IsNoAggregate word.now) (λ aggregate. word.now ≡ aggregate_name aggregate) }
{
    match word {
        "count" => Some(Aggregate::Count),
        "sum" => Some(Aggregate::Sum),
        "min" => Some(Aggregate::Least),
        "max" => Some(Aggregate::Greatest),
        _ => None,
    }
}

// The frame clause that the words from the fourth to the seventh spell.
fn frame_words(words: &[&str]) -> Result<Frame, CaseFault>
    ensures frame { IfOk result (SpellsFrame words.now) }
    ensures fault { IfErr result (IsFrameFault words.now) }
{
    let Some(mode) = mode_word(word_at(words, 3)) else {
        return Err(CaseFault::Mode);
    };
    let Some(start) = bound_word(word_at(words, 4)) else {
        return Err(CaseFault::Start);
    };
    let Some(end) = bound_word(word_at(words, 5)) else {
        return Err(CaseFault::End);
    };
    let Some(exclusion) = exclusion_word(word_at(words, 6)) else {
        return Err(CaseFault::Exclusion);
    };
    Ok(Frame {
        mode,
        start,
        end,
        exclusion,
    })
}

impl Case {
    /// The case that words spell, or what is wrong with the first word that is not as it has to be.
    pub fn read(words: &[&str]) -> Result<Case, CaseFault>
        ensures case { IfOk result (SpellsCase words.now) }
        ensures fault { IfErr result (IsFault words.now) }
    {
        let Some(rows) = count_word(word_at(words, 0)) else {
            return Err(CaseFault::Rows);
        };
        let Some(partition) = positive_word(word_at(words, 1)) else {
            return Err(CaseFault::Partition);
        };
        let Some(peers) = positive_word(word_at(words, 2)) else {
            return Err(CaseFault::Peers);
        };
        let frame = match frame_words(words) {
            Ok(frame) => frame,
            Err(fault) => return Err(fault),
        };
        let Some(aggregate) = aggregate_word(word_at(words, 7)) else {
            return Err(CaseFault::Aggregate);
        };
        if words.len() > CASE_WORDS {
            return Err(CaseFault::Behind);
        }
        Ok(Case {
            rows,
            partition,
            peers,
            frame,
            aggregate,
        })
    }
}
