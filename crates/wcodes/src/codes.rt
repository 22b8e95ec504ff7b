//! Values as integers of 32 bits that stand as a key orders them.
ghost use Rattle.std.specs.Prelude.{◌≡◌, IfSome, None, if◌then◌else◌, pos, ◌-ℤ◌, ◌+ℤ◌, ◌<ℤ◌, ◌-◌, ◌^◌};
ghost use Rattle.wvalues.specs.Meaning.{meaning, Int};
ghost use Rattle.wcodes.specs.Bases.{base_in, first_yet, sooner};
ghost use Rattle.wcodes.specs.Codes.{code, step, HasCode};
ghost use Rattle.wcodes.specs.CodedRows.{values_seen};

use wvalues::{SortKey, Value, Whole};

// How far one number lies behind another, and one more, where that is between the codes of nulls.
fn step_between(from: Whole, to: Whole) -> Option<u32>
    ensures above { IfSome result (λ c. pos 0 <ℤ (to -ℤ from +ℤ pos 1)) }
    ensures below { IfSome result (λ c. (to -ℤ from +ℤ pos 1) <ℤ pos (2 ^ 32 - 1)) }
    ensures code { IfSome result (λ c. pos c ≡ to -ℤ from +ℤ pos 1) }
    ensures none { result ≡ None → pos 0 <ℤ (to -ℤ from +ℤ pos 1) → (to -ℤ from +ℤ pos 1) <ℤ pos (2 ^ 32 - 1) → ⊥ }
{
    let step = to.get() - from.get() + 1;
    if 0 < step && step < u32::MAX as i128 {
        Some(step as u32)
    } else {
        None
    }
}

// The code of a number, where it is between the codes of nulls.
fn code_of_number(key: &SortKey, base: Whole, number: Whole) -> Option<u32>
    ensures has { IfSome result (λ c. HasCode key.now base (Int number)) }
    ensures code { IfSome result (λ c. pos c ≡ step key.now base number) }
    ensures none { result ≡ None → HasCode key.now base (Int number) → ⊥ }
{
    if key.desc {
        step_between(number, base)
    } else {
        step_between(base, number)
    }
}

// The code of nulls, below or above those of numbers.
fn code_of_null(key: &SortKey) -> u32
    ensures { pos result ≡ (if key.now.nulls_first then pos 0 else pos (2 ^ 32 - 1)) }
{
    if key.nulls_first { 0 } else { u32::MAX }
}

/// The code of a value under a key, counted from a base. Texts have none, nor have numbers that lie on the wrong side of the
/// base or too far from it.
pub fn code_of(key: &SortKey, base: Whole, cell: &Value) -> Option<u32>
    ensures has { IfSome result (λ c. HasCode key.now base (meaning cell.now)) }
    ensures code { IfSome result (λ c. pos c ≡ code key.now base (meaning cell.now)) }
    ensures none { result ≡ None → HasCode key.now base (meaning cell.now) → ⊥ }
{
    match cell {
        Value::Null => Some(code_of_null(key)),
        Value::Int(number) => code_of_number(key, base, *number),
        Value::Short(_) | Value::Shared(_) => None,
    }
}

// The one of two numbers that a key puts first.
fn sooner(key: &SortKey, a: Whole, b: Whole) -> Whole
    ensures { result ≡ sooner key.now a b }
{
    let before = if key.desc { b < a } else { a < b };
    if before { a } else { b }
}

// The number that a key puts first, of the one that it put first so far and a value.
fn first_yet(key: &SortKey, first: Option<Whole>, cell: &Value) -> Option<Whole>
    ensures { result ≡ first_yet key.now first (meaning cell.now) }
{
    match (first, cell) {
        (Some(other), Value::Int(number)) => Some(sooner(key, other, *number)),
        (None, Value::Int(number)) => Some(*number),
        _ => first,
    }
}

/// The number of a column that its key puts first; 0 where there is none.
pub fn base_of(key: &SortKey, column: &[&Value]) -> Whole
    ensures { result ≡ base_in key.now (values_seen column.now) }
{
    let mut first = None;
    for cell in column {
        first = first_yet(key, first, cell);
    }
    first.unwrap_or(Whole::from(0))
}
