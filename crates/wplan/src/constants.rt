//! The constants of a list, which are found without a walk over it.

ghost use Rattle.std.specs.Prelude.{◌≡◌, IfOk, map, ℕ, ℤ, List};
ghost use Rattle.std.specs.BTreeSet.{contains, contains_text};
ghost use Rattle.std.specs.List.{list_any};
ghost use Rattle.std.specs.Ordering.{int_cmp};
ghost use Rattle.wvalues.specs.Meaning.{meaning, Int, Text};
ghost use Rattle.wplan.specs.Constants.{are_equal, is_no_number, is_no_text, stand_apart};

use std::alloc::{AllocError, Global};
use std::collections::BTreeSet;
use std::marker::Model;
use wvalues::{Value, Whole};

/// Numbers, texts and nulls in the order in which they are written. In a contract they are the list of them. Whether one is equal
/// to a value is found in a time that grows with the logarithm of their number.
#[derive(Drop)]
pub struct Constants {
    written: Vec<Value>,
    numbers: BTreeSet<Whole>,
    texts: BTreeSet<String>,
    has_no_number: bool,
    has_no_text: bool,
}

impl Model for Constants {
    ghost use Rattle.std.specs.Prelude.{List};
    ghost use Rattle.wvalues.specs.Meaning.{Meaning};
    ghost use Rattle.wplan.specs.Constants.{AreFound, values_of};

    ghost Value = { List Meaning };

    ghost view = { values_of };

    ghost invariant = { AreFound };
}

fn is_no_number(value: &Value) -> bool
    ensures { result ≡ is_no_number (meaning value.now) }
{
    !matches!(value, Value::Int(_))
}

fn is_no_text(value: &Value) -> bool
    ensures { result ≡ is_no_text (meaning value.now) }
{
    matches!(value, Value::Null | Value::Int(_))
}

fn has_no_number(values: &[Value]) -> bool
    ensures { result ≡ list_any (λ v. is_no_number (meaning v)) values.now }
{
    values.iter().any(|value| is_no_number(value))
}

fn has_no_text(values: &[Value]) -> bool
    ensures { result ≡ list_any (λ v. is_no_text (meaning v)) values.now }
{
    values.iter().any(|value| is_no_text(value))
}

// The numbers among values.
fn numbers_in(alloc: Global, values: &[Value]) -> Result<BTreeSet<Whole>, AllocError>
    ensures { IfOk result (λ numbers. (x : ℤ) → contains int_cmp numbers x ≡ list_any (are_equal (Int x)) (map meaning values.now)) }
{
    let mut numbers = BTreeSet::new(alloc);
    'values: for value in values {
        if let Value::Int(number) = value {
            numbers.insert(*number)?;
        }
    }
    Ok(numbers)
}

// The texts among values.
fn texts_in(alloc: Global, values: &[Value]) -> Result<BTreeSet<String>, AllocError>
    ensures { IfOk result (λ texts. (x : List ℕ) → contains_text texts x ≡ list_any (are_equal (Text x)) (map meaning values.now)) }
{
    let mut texts = BTreeSet::new(alloc);
    'values: for value in values {
        if is_no_text(value) {
            continue;
        }
        texts.insert(String::from_str(alloc, value.text())?)?;
    }
    Ok(texts)
}

impl Constants {
    /// Values as constants of a list, with their numbers and texts found once.
    pub fn new(alloc: Global, written: Vec<Value>) -> Result<Constants, AllocError>
        ensures { IfOk result (λ constants. constants ≡ map meaning written.items) }
    {
        let numbers = numbers_in(alloc, written.as_slice())?;
        let texts = texts_in(alloc, written.as_slice())?;
        Ok(Constants {
            has_no_number: has_no_number(written.as_slice()),
            has_no_text: has_no_text(written.as_slice()),
            written,
            numbers,
            texts,
        })
    }

    /// The values, as they are written.
    pub fn values(&self) -> &[Value]
        ensures { map meaning result.now ≡ self.now }
    {
        self.written.as_slice()
    }

    /// Whether one of them is equal to a value. A null is equal to nothing.
    pub fn has_equal(&self, value: &Value) -> bool
        ensures { result ≡ list_any (are_equal (meaning value.now)) self.now }
    {
        match value {
            Value::Null => false,
            Value::Int(number) => self.numbers.contains(number),
            Value::Short(_) | Value::Shared(_) => self.texts.contains(value.text()),
        }
    }

    /// Whether one of them stands in no order to a value, as a null to all values, and a number to texts.
    pub fn has_apart(&self, value: &Value) -> bool
        ensures { result ≡ list_any (stand_apart (meaning value.now)) self.now }
    {
        match value {
            Value::Null => !self.values().is_empty(),
            Value::Int(_) => self.has_no_number,
            Value::Short(_) | Value::Shared(_) => self.has_no_text,
        }
    }
}
