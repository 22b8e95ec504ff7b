//! What the rows of a partition feed, in its order.
ghost use Rattle.std.specs.Prelude.{◌≡◌, ◌<◌, ◌≤◌, ◌++◌, ℕ, All, IfOk, OnOk, length, map, option_map, slice_index_or, false};
ghost use Rattle.std.specs.List.{list_any};
ghost use Rattle.std.specs.Option.{ForSome};
ghost use Rattle.wvalues.specs.Meaning.{Null, meaning};
ghost use Rattle.wrows.specs.Picked.{is_text};
ghost use Rattle.wslide.specs.Aggregates.{picked_values, picked_tests, tests};
ghost use Rattle.waggregate.specs.Feeding.{rows_of, values_of};

use crate::feeding::Argument;
use std::alloc::{AllocError, Global};
use wrows::{batch_end, copy_of, is_text};
use wvalues::Value;

// Whether a filter is true on some rows.
fn tests_of(alloc: Global, tests: &[bool], rows: &[u32]) -> Result<Vec<bool>, AllocError>
    requires { All (λ i. i < length tests.now) rows.now }
    ensures value { IfOk result (λ picked. picked.items ≡ map (λ i. slice_index_or tests.now i false) rows.now) }
    ensures len { IfOk result (λ picked. length picked.items ≡ length rows.now) }
{
    let mut picked = Vec::with_capacity(alloc, rows.len())?;
    for row in rows {
        picked.push(tests[*row as usize])?;
    }
    Ok(picked)
}

/// Whether a filter is true on the rows of these numbers, if there is one.
pub(crate) fn filter_of(
    alloc: Global,
    filter: &Option<Vec<bool>>,
    rows: &[u32],
) -> Result<Option<Vec<bool>>, AllocError>
    requires { ForSome filter.now (λ tests. All (λ i. i < length tests.items) rows.now) }
    ensures value { IfOk result (λ picked. option_map (λ tests. tests.items) picked
        ≡ picked_tests (option_map (λ tests. tests.items) filter.now) rows.now) }
    ensures len { IfOk result (λ picked. ForSome picked (λ tests. length tests.items ≡ length rows.now)) }
{
    match filter {
        None => Ok(None),
        Some(tests) => {
            let picked = tests_of(alloc, tests, rows)?;
            Ok(Some(picked))
        }
    }
}

// Whether an argument has a text on a row.
#[inline(always)]
fn is_text_at(argument: Argument, row: usize) -> bool
    requires { row < rows_of argument }
    ensures { result ≡ is_text (slice_index_or (values_of argument.entry) row Null) }
{
    match argument.value(row) {
        None => false,
        Some(value) => is_text(value),
    }
}

// A copy of what an argument has on a row, which is no text.
#[inline(always)]
fn copy_at(argument: Argument, row: usize) -> Value
    requires below { row < rows_of argument }
    requires none { is_text (slice_index_or (values_of argument) row Null) ≡ false }
    ensures { meaning result ≡ slice_index_or (values_of argument.entry) row Null }
{
    match argument.value(row) {
        None => Value::Null,
        Some(value) => copy_of(value),
    }
}

// A copy of what an argument has on a row.
fn duplicate_at(argument: Argument, row: usize) -> Result<Value, AllocError>
    requires { row < rows_of argument }
    ensures { IfOk result (λ value. meaning value ≡ slice_index_or (values_of argument.entry) row Null) }
{
    match argument.value(row) {
        None => Ok(Value::Null),
        Some(value) => value.duplicate(),
    }
}

// Whether one of the rows of these numbers has a text. Each is read, whatever was found before.
fn has_text(argument: Argument, rows: &[u32]) -> bool
    requires { All (λ i. i < rows_of argument) rows.now }
    ensures { result ≡ list_any is_text (picked_values (values_of argument.entry) rows.now) }
{
    let mut found = false;
    for row in rows {
        if is_text_at(argument, *row as usize) {
            found = true;
        }
    }
    found
}

// Appends copies of the values of the rows of these numbers, of which none is a text.
fn push_without_texts(
    argument: Argument,
    rows: &[u32],
    copied: &mut Vec<Value>,
) -> Result<(), AllocError>
    requires below { All (λ i. i < rows_of argument) rows.now }
    requires none { list_any is_text (picked_values (values_of argument) rows.now) ≡ false }
    ensures { OnOk result (map meaning copied.new.items ≡ map meaning copied.old.items
        ++ picked_values (values_of argument.entry) rows.now) }
{
    for row in rows {
        copied.push(copy_at(argument, *row as usize))?;
    }
    Ok(())
}

// Appends copies of the values of the rows of these numbers.
fn push_with_texts(
    argument: Argument,
    rows: &[u32],
    copied: &mut Vec<Value>,
) -> Result<(), AllocError>
    requires { All (λ i. i < rows_of argument) rows.now }
    ensures { OnOk result (map meaning copied.new.items ≡ map meaning copied.old.items
        ++ picked_values (values_of argument.entry) rows.now) }
{
    for row in rows {
        copied.push(duplicate_at(argument, *row as usize)?)?;
    }
    Ok(())
}

// Appends copies of the values of the rows of these numbers. The rows are few: all values are read, and then copied, without a
// look at what they share where there is no text.
fn push_batch(argument: Argument, rows: &[u32], copied: &mut Vec<Value>) -> Result<(), AllocError>
    requires { All (λ i. i < rows_of argument) rows.now }
    ensures { OnOk result (map meaning copied.new.items ≡ map meaning copied.old.items
        ++ picked_values (values_of argument.entry) rows.now) }
{
    if has_text(argument, rows) {
        push_with_texts(argument, rows, copied)
    } else {
        push_without_texts(argument, rows, copied)
    }
}

/// Copies of what an argument has on the rows of these numbers, in that order. Rows that follow each other in an order lie far
/// apart, and what is read often is read side by side. A loop that reads alone goes ahead of the one that copies, so that the
/// processor has many of them on their way from memory at once.
pub(crate) fn copied_values(
    alloc: Global,
    argument: Argument,
    rows: &[u32],
) -> Result<Vec<Value>, AllocError>
    requires { All (λ i. i < rows_of argument) rows.now }
    ensures value { IfOk result (λ copied. map meaning copied.items ≡ picked_values (values_of argument.entry) rows.now) }
    ensures len { IfOk result (λ copied. length copied.items ≡ length rows.now) }
{
    let mut copied = Vec::with_capacity(alloc, rows.len())?;
    let mut done = 0;
    while done < rows.len() {
        let end = batch_end(done, rows.len());
        push_batch(argument, &rows[done..end], &mut copied)?;
        done = end;
    }
    Ok(copied)
}

/// A filter, lent.
pub(crate) fn lent(filter: &Option<Vec<bool>>) -> Option<&[bool]>
    ensures value { tests result ≡ option_map (λ tests. tests.items) filter.now }
    ensures len { (n : ℕ) → ForSome filter.now (λ tests. length tests.items ≡ n) → ForSome result (λ tests. length tests.now ≡ n) }
{
    match filter {
        None => None,
        Some(tests) => Some(tests.as_slice()),
    }
}
