//! Aggregates of groups that are fed alike, in one pass over the rows.
ghost use Rattle.std.specs.Prelude.{◌≡◌, ◌<◌, ◌^◌, ℕ, List, All, IfOk, IfNone, IfSome, None, length, map, replicate, slice_index_or, true};
ghost use Rattle.std.specs.Ordering.{is_lt};
ghost use Rattle.wvalues.specs.Meaning.{Int, Meaning, Null, meaning};
ghost use Rattle.wslide.specs.Aggregates.{IsInRange, by_value_in};
ghost use Rattle.wslide.specs.Counts.{counts_joined};
ghost use Rattle.wrows.specs.Columns.{in_range};
ghost use Rattle.wrows.specs.Outcomes.{Gives};
ghost use Rattle.waggregate.specs.Aggregating.{aggregate_of};
ghost use Rattle.waggregate.specs.Feeding.{rows_of, value_or_none, values_of};
ghost use Rattle.waggregate.specs.FrameAnswers.{answer_or_out_of_range};
ghost use Rattle.waggregate.specs.Grouped.{rows_of_group};
ghost use Rattle.waggregate.specs.Summaries.{AreSummaries, AreSummed, IsEmpty, IsKnownFor, IsUnknownFor, IsWith, answer_at, answer_in};
ghost use Rattle.waggregate.specs.Summaries.{are_enough, covers, first_in, group_count, no_extremes, text_of, value_in, with_asked};
ghost use Rattle.waggregate.specs.declared.summaries.Summary as summary;

use crate::answers::{count_value, sum_value};
use crate::feeding::Argument;
use crate::lent_text::LentText;
use std::alloc::{AllocError, Global};
use wframe::stable_sorts_agree;
use wplan::AggregateFunction;
use wrows::AnswerFault;
use wslide::{PartialSum, counts_are_exact, places_are_least, sums_are_exact};
use wvalues::{Value, Whole};

/// Which extreme values of groups are looked for, beside their counts and sums.
#[derive(Clone, Copy, Debug)]
pub struct Extremes {
    /// The least value of each group.
    pub least: bool,
    /// The greatest one.
    pub greatest: bool,
}

/// The value that stands first among some, or null where there is none.
#[derive(Clone, Copy, Debug)]
enum First<'a> {
    Null,
    Number(Whole),
    Text(LentText<'a>),
}

/// What some rows come to.
#[derive(Clone, Copy, Debug)]
struct Summary<'a> {
    /// How many rows there are.
    rows: u64,
    /// How many values there are, without nulls.
    values: u64,
    sum: PartialSum,
    /// The least value, if it is looked for, and the greatest one.
    least: First<'a>,
    greatest: First<'a>,
}

/// What the rows of each group come to.
#[derive(Drop)]
pub struct Summaries<'a> {
    extremes: Extremes,
    groups: Vec<Summary<'a>>,
}

impl Extremes {
    /// None of them.
    pub fn none() -> Extremes
        ensures { result ≡ no_extremes }
    {
        Extremes {
            least: false,
            greatest: false,
        }
    }

    /// These, and what an aggregate asks for.
    pub fn with(self, function: AggregateFunction) -> Extremes
        ensures { result ≡ with_asked self function }
    {
        match function {
            AggregateFunction::CountRows | AggregateFunction::Count | AggregateFunction::Sum =>
                self,
            AggregateFunction::Min => Extremes {
                least: true,
                greatest: self.greatest,
            },
            AggregateFunction::Max => Extremes {
                least: self.least,
                greatest: true,
            },
        }
    }

    // Whether an aggregate can be answered where these are looked for.
    fn cover(self, function: AggregateFunction) -> bool
        ensures { result ≡ are_enough self function }
    {
        match function {
            AggregateFunction::CountRows | AggregateFunction::Count | AggregateFunction::Sum =>
                true,
            AggregateFunction::Min => self.least,
            AggregateFunction::Max => self.greatest,
        }
    }
}

// Takes a number in the place of the value that stands first, if it stands before that, from the least value on or from the greatest.
#[inline(always)]
fn note_number(first: &mut First<'_>, number: Whole, greatest: bool)
    ensures { value_in first.new ≡ first_in (by_value_in greatest) (value_in first.old) (Int number) }
{
    match first {
        First::Number(other) if greatest && number.cmp(other).is_le() => {}
        First::Number(other) if !greatest && number.cmp(other).is_ge() => {}
        _ => *first = First::Number(number),
    }
}

// The same of a text.
fn note_text<'a>(first: &mut First<'a>, text: LentText<'a>, greatest: bool)
    ensures { value_in first.new ≡ first_in (by_value_in greatest) (value_in first.old) (text_of text.entry) }
{
    if first.is_behind(text, greatest) {
        *first = First::Text(text);
    }
}

impl<'a> First<'a> {
    // Whether a text stands before it, from the least value on or from the greatest.
    fn is_behind(&self, text: LentText<'_>, greatest: bool) -> bool
        ensures { result ≡ is_lt (by_value_in greatest (text_of text.entry) (value_in self.now)) }
    {
        match self {
            First::Null => true,
            First::Number(_) => false,
            First::Text(other) if greatest => other.as_str().cmp(text.as_str()).is_lt(),
            First::Text(other) => text.as_str().cmp(other.as_str()).is_lt(),
        }
    }

    // The value, which shares its text.
    fn value(&self) -> Result<Value, AllocError>
        ensures { IfOk result (λ value. meaning value ≡ value_in self.now) }
    {
        match self {
            First::Null => Ok(Value::Null),
            First::Number(number) => Ok(Value::Int(*number)),
            First::Text(text) => text.value.duplicate(),
        }
    }
}

impl<'a> Summary<'a> {
    // What no row comes to.
    fn of_none() -> Summary<'a>
        ensures { IsEmpty result }
    {
        Summary {
            rows: 0,
            values: 0,
            sum: PartialSum::none(),
            least: First::Null,
            greatest: First::Null,
        }
    }

    // Takes a number to the others.
    #[inline(always)]
    fn add_number(&mut self, extremes: Extremes, number: Whole)
        ensures with { IsWith extremes (Int number) self.old self.new }
        ensures rows { self.new.rows ≡ self.old.rows }
        ensures range { IsInRange (Int number) }
    {
        self.values = self.values.wrapping_add(1);
        self.sum = self.sum.joined(PartialSum::of(number));
        if extremes.least {
            note_number(&mut self.least, number, false);
        }
        if extremes.greatest {
            note_number(&mut self.greatest, number, true);
        }
    }

    // Takes a text to the others.
    fn add_text(&mut self, extremes: Extremes, text: LentText<'a>)
        ensures with { IsWith extremes (text_of text.entry) self.old self.new }
        ensures rows { self.new.rows ≡ self.old.rows }
    {
        self.values = self.values.wrapping_add(1);
        self.sum = self.sum.joined(PartialSum::of(Whole::from(0)));
        if extremes.least {
            note_text(&mut self.least, text, false);
        }
        if extremes.greatest {
            note_text(&mut self.greatest, text, true);
        }
    }

    // Takes a row with this value to the others, or one with null, if there is none.
    #[inline(always)]
    fn add(&mut self, extremes: Extremes, value: Option<&'a Value>)
        ensures with { IsWith extremes (value_or_none value.entry) self.old self.new }
        ensures rows { self.new.rows ≡ counts_joined self.old.rows 1 }
        ensures range { IsInRange (value_or_none value.entry) }
    {
        self.rows = self.rows.wrapping_add(1);
        let Some(value) = value else {
            return;
        };
        match value {
            Value::Null => {}
            Value::Int(number) => self.add_number(extremes, *number),
            Value::Short(_) | Value::Shared(_) => self.add_text(extremes, LentText { value }),
        }
    }

    // What an aggregate answers, `OutOfRange` where it is so.
    fn answer(&self, function: AggregateFunction) -> Result<Value, AnswerFault>
        ensures { Gives meaning result (answer_or_out_of_range (answer_in function self.now)) }
    {
        match function {
            AggregateFunction::CountRows => Ok(count_value(self.rows)),
            AggregateFunction::Count => Ok(count_value(self.values)),
            AggregateFunction::Sum => sum_value(self.sum),
            AggregateFunction::Min => Ok(self.least.value()?),
            AggregateFunction::Max => Ok(self.greatest.value()?),
        }
    }
}

// So many copies of a part.
fn repeated<P: Copy>(alloc: Global, part: &P, count: usize) -> Result<Vec<P>, AllocError>
    ensures { IfOk result (λ parts. parts.items ≡ replicate count part.now) }
{
    let mut parts = Vec::with_capacity(alloc, count)?;
    for _ in 0..count {
        parts.push(*part)?;
    }
    Ok(parts)
}

// What the rows of each group come to, where an argument is what they feed. Each row is taken once, to its group.
fn summed_rows<'a>(
    alloc: Global,
    argument: Argument<'a>,
    extremes: Extremes,
    groups: &[u32],
    count: usize,
) -> Result<Vec<Summary<'a>>, AllocError>
    requires rows { length groups.now ≡ rows_of argument }
    requires below { All (λ g. g < count) groups.now }
    ensures summed { IfOk result (λ summaries. AreSummed (values_of argument.entry) extremes groups.now (length groups.now) count
        summaries.items) }
    ensures ranges { IfOk result (λ summaries. (i : ℕ) → i < length groups.now
        → IsInRange (slice_index_or (values_of argument.entry) i Null)) }
{
    let mut summaries = repeated(alloc, &Summary::of_none(), count)?;
    for row in 0..groups.len() {
        summaries[groups[row] as usize].add(extremes, argument.value(row));
    }
    Ok(summaries)
}

/// What the rows of each group come to, in one pass over the rows, where an argument is what they feed without a filter. It is
/// read where it lies. `groups` has the number of each row's group, of 32 bits, of so many groups.
pub fn summarize<'a>(
    alloc: Global,
    argument: Argument<'a>,
    extremes: Extremes,
    groups: &[u32],
    count: usize,
) -> Result<Summaries<'a>, AllocError>
    requires rows { length groups.now ≡ rows_of argument }
    requires below { All (λ g. g < count) groups.now }
    requires few { length groups.now < 2 ^ 31 }
    ensures summed { IfOk result (AreSummaries (values_of argument.entry) groups.now count) }
    ensures asked { IfOk result (λ summaries. summaries.extremes ≡ extremes) }
{
    // Laws, which do nothing.
    counts_are_exact();
    sums_are_exact();
    places_are_least();
    stable_sorts_agree();
    let groups = summed_rows(alloc, argument, extremes, groups, count)?;
    Ok(Summaries { extremes, groups })
}

impl<'a> Summaries<'a> {
    /// Whether an aggregate can be answered.
    pub fn cover(&self, function: AggregateFunction) -> bool
        ensures { result ≡ covers self.now function }
    {
        self.extremes.cover(function)
    }

    // What an aggregate answers for a group, `OutOfRange` where it is so.
    fn answer_of(&self, function: AggregateFunction, group: usize) -> Result<Value, AnswerFault>
        requires { group < group_count self.now }
        ensures { (none : summary.Summary) → Gives meaning result (answer_or_out_of_range
            (answer_at function self.now.groups.items group none)) }
    {
        self.groups[group].answer(function)
    }

    /// What an aggregate answers for some of the groups, in their order, `OutOfRange` where it is so for one.
    pub fn answers(
        &self,
        alloc: Global,
        function: AggregateFunction,
        order: &[u32],
    ) -> Result<Vec<Value>, AnswerFault>
        requires covered { covers self.now function ≡ true }
        requires ordered { All (λ g. g < group_count self.now) order.now }
        ensures gives { (values : List Meaning) (groups : List ℕ) (count : ℕ) → AreSummaries values groups count self.now
            → Gives (λ column. map meaning column.items) result (in_range (map (λ g. aggregate_of function
            (record { values = values; filter = None }) (rows_of_group groups g)) order.now)) }
        ensures len { IfOk result (λ column. length column.items ≡ length order.now) }
    {
        let mut column = Vec::with_capacity(alloc, order.len())?;
        for group in order {
            let answer = self.answer_of(function, *group as usize)?;
            column.push(answer)?;
        }
        Ok(column)
    }
}

/// What is known at a place of the rows of each group, if an aggregate with this filter can be answered by it, and else none.
pub fn summaries_for<'a, 'b>(
    known: &'b [Option<Summaries<'a>>],
    place: usize,
    function: AggregateFunction,
    filter: &Option<Vec<bool>>,
) -> Option<&'b Summaries<'a>>
    ensures found { IfSome result (IsKnownFor known.now place function filter.now) }
    ensures none { IfNone result (IsUnknownFor known.now place function filter.now) }
{
    if filter.is_some() || place >= known.len() {
        return None;
    }
    match &known[place] {
        Some(summaries) if summaries.cover(function) => Some(summaries),
        _ => None,
    }
}
