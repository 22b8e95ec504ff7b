//! Codes of 32 bits for the values of a column.
ghost use Rattle.std.specs.Prelude.{◌≡◌, ◌↔◌, ◌≤◌, ◌^◌, All, IfOk, IfSome, IsTrue, None, false, is_some, length, map};
ghost use Rattle.wcodes.specs.Codes.{HasCode};
ghost use Rattle.wcodes.specs.CodedRows.{AreCodes, code_from, leads_with_text, values_seen};

use crate::codes::{base_of, code_of};
use crate::ranks::ranked_codes;
use std::alloc::{AllocError, Global};
use wvalues::{SortKey, Value, Whole};

/// How far before the first of its numbers a column is counted from.
const HALF: i128 = 1 << 31;

/// The codes of a column's values, counted from a base, where each has one. A value has the same code wherever it is counted
/// from the same base, so the codes of several columns are compared if they share it.
pub fn codes_from(
    alloc: Global,
    column: &[&Value],
    key: &SortKey,
    base: Whole,
) -> Result<Option<Vec<u32>>, AllocError>
    ensures codes { IfOk result (λ found. IfSome found (λ codes. codes.items ≡ map (code_from key.now base) (values_seen column.now))) }
    ensures have { IfOk result (λ found. IfSome found (λ codes. All (HasCode key.now base) (values_seen column.now))) }
    ensures none { IfOk result (λ found. found ≡ None → All (HasCode key.now base) (values_seen column.now) → ⊥) }
{
    let mut codes = Vec::with_capacity(alloc, column.len())?;
    for cell in column {
        let Some(code) = code_of(key, base, cell) else {
            return Ok(None);
        };
        codes.push(code)?;
    }
    Ok(Some(codes))
}

// Whether the first value of a column that is not null is a text. The values of one key are all texts or all numbers, but for
// nulls, so this tells before a look at all of them how they have their codes.
fn leads_with_text(column: &[&Value]) -> bool
    ensures { result ≡ leads_with_text (values_seen column.now) }
{
    'values: for value in column {
        match value {
            Value::Null => {}
            Value::Int(_) => return false,
            Value::Short(_) | Value::Shared(_) => return true,
        }
    }
    false
}

/// Codes for the values of a column: their distances from the first of them where they are nulls and integers that lie at
/// most 2^32 - 3 apart, and else their ranks.
#[tactic(auto, using(crate::proofs::CodeFacts::from_base))]
pub fn column_codes(alloc: Global, column: &[&Value], key: &SortKey) -> Result<Vec<u32>, AllocError>
    requires { length column.now ≤ 2 ^ 32 }
    ensures { IfOk result (λ codes. AreCodes key.now (values_seen column.now) codes.items) }
{
    if leads_with_text(column) {
        return ranked_codes(alloc, column, key);
    }
    match codes_from(alloc, column, key, base_of(key, column)) {
        Err(refused) => Err(refused),
        Ok(Some(codes)) => Ok(codes),
        Ok(None) => ranked_codes(alloc, column, key),
    }
}

// A number from which most columns' numbers can be counted: one that stands 2^31 before the first of them.
fn near_base(column: &[&Value], key: &SortKey) -> Whole {
    for value in column {
        if let Value::Int(number) = value {
            let step = if key.desc { HALF } else { -HALF };
            return Whole::new(number.get() + step).unwrap_or(*number);
        }
    }
    Whole::from(0)
}

/// Codes for the values of a column of numbers, and none where the first value that is not null is a text. They stand as those of
/// [`column_codes`] do, but need not begin near 0: where the numbers lie from 2^31 before the first of them to 2^31 - 3
/// behind it, they are counted from there, and each value is looked at once.
#[tactic(auto, using(crate::proofs::CodeFacts::from_base))]
pub fn number_codes(
    alloc: Global,
    column: &[&Value],
    key: &SortKey,
) -> Result<Option<Vec<u32>>, AllocError>
    requires { length column.now ≤ 2 ^ 32 }
    ensures codes { IfOk result (λ found. IfSome found (λ codes. AreCodes key.now (values_seen column.now) codes.items)) }
    ensures numbers { IfOk result (λ found. IsTrue (is_some found) ↔ (leads_with_text (values_seen column.now) ≡ false)) }
{
    if leads_with_text(column) {
        return Ok(None);
    }
    match codes_from(alloc, column, key, near_base(column, key)) {
        Err(refused) => Err(refused),
        Ok(Some(codes)) => Ok(Some(codes)),
        Ok(None) => {
            let codes = column_codes(alloc, column, key)?;
            Ok(Some(codes))
        }
    }
}
