//! The items of rows, in order and cut.
ghost use Rattle.std.specs.Prelude.{◌≡◌, ◌≤◌, ◌<◌, ◌+◌, ◌-◌, true, All, None, IfOk, length, min, nat_le};
ghost use Rattle.wrows.specs.Outcomes.{Gives};
ghost use Rattle.wrows.specs.Laid.{formulas_seen, rows_in, rows_seen};
ghost use Rattle.wrows.specs.Columns.{beside, lists_of};
ghost use Rattle.wrows.specs.Extended.{extended_rows};
ghost use Rattle.wrows.specs.Plain.{at_most_limit, cut, is_selected, ordered_of};
ghost use Rattle.wrows.specs.Picked.{asked_of};

use crate::cells::Cells;
use crate::extended::ExtendedRows;
use crate::fault::AnswerFault;
use crate::first_rows::{MOST_SELECTED, first_by_keys};
use crate::listing::evaluated_beside;
use crate::presorted::items_at;
use std::alloc::{AllocError, Global};
use wplan::Expr;
use wvalues::{SortKey, Value};

/// Which rows of a list are asked for, by OFFSET and LIMIT.
#[derive(Clone, Copy)]
pub struct Asked {
    /// How many rows are left out first.
    pub offset: u128,
    /// How many of the others are answered at most; all of them, where there is none.
    pub limit: Option<u128>,
}

impl Asked {
    /// Whether the rows that are asked for, with those left out first, are so few that they are selected, without an order of
    /// all rows.
    pub fn is_selected(&self) -> bool
        ensures { result ≡ is_selected self.now.offset self.now.limit }
    {
        match self.limit {
            None => false,
            Some(limit) => is_few(self.offset, limit),
        }
    }
}

// Whether so many rows, with those left out first, are selected.
fn is_few(offset: u128, limit: u128) -> bool
    ensures { result ≡ nat_le (offset + limit) 1024 }
{
    let most = MOST_SELECTED as u128;
    offset <= most && limit <= most - offset
}

// A number, or a count where it is larger.
fn at_most(number: u128, count: usize) -> usize
    ensures { result ≡ min number count }
{
    if number < count as u128 {
        number as usize
    } else {
        count
    }
}

// How many rows are left of so many.
fn limited(limit: Option<u128>, count: usize) -> usize
    ensures value { result ≡ at_most_limit limit count }
    ensures within { result ≤ count }
{
    match limit {
        None => count,
        Some(limit) => at_most(limit, count),
    }
}

/// The place of the first of so many rows that is asked for, and how many are.
pub fn asked_for(asked: Asked, count: usize) -> (usize, usize)
    ensures first { result.0 ≡ min asked.offset count }
    ensures count { result.1 ≡ at_most_limit asked.limit (count - result.0) }
    ensures within { result.0 + result.1 ≤ count }
{
    let from = at_most(asked.offset, count);
    (from, limited(asked.limit, count - from))
}

/// The numbers that are asked for. Where none is left out first, the list is handed on.
pub(crate) fn cut_numbers(
    alloc: Global,
    numbers: Vec<u32>,
    asked: Asked,
) -> Result<Vec<u32>, AllocError>
    ensures { IfOk result (λ taken. taken.items ≡ cut asked.offset asked.limit numbers.items) }
{
    let (from, count) = asked_for(asked, numbers.len());
    if from == 0 {
        let mut taken = numbers;
        taken.truncate(count);
        return Ok(taken);
    }
    let taken = Vec::from_slice(alloc, &numbers[from..from + count])?;
    Ok(taken)
}

// The numbers of the rows that are asked for, by their keys and then by number.
fn asked_numbers(
    alloc: Global,
    key_exprs: &[&Expr],
    keys: &[SortKey],
    asked: Asked,
    extended: &ExtendedRows,
) -> Result<Vec<u32>, AnswerFault>
    requires { length key_exprs.now ≡ length keys.now }
    ensures gives { Gives (λ numbers. numbers.items) result (asked_of (formulas_seen key_exprs.now) keys.now asked.offset
        asked.limit (extended_rows extended.now)) }
    ensures below { IfOk result (λ numbers. All (λ i. i < length extended.now.rows.now) numbers.items) }
{
    let (from, count) = asked_for(asked, extended.rows.len());
    let first = first_by_keys(alloc, key_exprs, keys, from + count, extended)?;
    let numbers = cut_numbers(alloc, first, asked)?;
    Ok(numbers)
}

// Whether rows are asked for as they stand: by no key, and all of them.
fn asks_for_all(keys: &[SortKey], asked: Asked) -> bool
    ensures keys { result ≡ true → length keys.now ≡ 0 }
    ensures offset { result ≡ true → asked.offset ≡ 0 }
    ensures limit { result ≡ true → asked.limit ≡ None }
{
    if !keys.is_empty() {
        return false;
    }
    if asked.offset != 0 {
        return false;
    }
    asked.limit.is_none()
}

// The items of all rows, as they stand.
fn all_items(alloc: Global, items: &[&Expr], extended: &ExtendedRows) -> Result<Cells, AnswerFault>
    ensures width { IfOk result (λ cells. cells.width ≡ length items.now) }
    ensures rows { Gives rows_in result (lists_of (formulas_seen items.now) (extended_rows extended.now)) }
{
    let cells = evaluated_beside(alloc, items, extended)?;
    Ok(Cells {
        cells,
        width: items.len(),
        count: extended.rows.len(),
    })
}

/// The items of the rows that are asked for, in the order of the keys and then by number; behind each row's cells stand
/// the values of some columns: column `c` of a row is at place `row.len() + c`. All items and keys are evaluated on every row, asked
/// for or not; where all items are plain columns, which cannot be out of range, they are read of the rows that are asked for alone.
pub fn joined_items(
    alloc: Global,
    items: &[&Expr],
    key_exprs: &[&Expr],
    keys: &[SortKey],
    asked: Asked,
    rows: &[&[Value]],
    columns: &[&[Value]],
) -> Result<Cells, AnswerFault>
    requires { length key_exprs.now ≡ length keys.now }
    ensures width { IfOk result (λ cells. cells.width ≡ length items.now) }
    ensures rows { Gives rows_in result (ordered_of (formulas_seen items.now) (formulas_seen key_exprs.now) keys.now
        asked.offset asked.limit (beside (rows_seen rows.now) (rows_seen columns.now))) }
{
    let null = Value::Null;
    let extended = ExtendedRows {
        rows,
        columns,
        null: &null,
    };
    if asks_for_all(keys, asked) {
        return all_items(alloc, items, &extended);
    }
    let numbers = asked_numbers(alloc, key_exprs, keys, asked, &extended)?;
    items_at(alloc, items, &numbers, &extended)
}
