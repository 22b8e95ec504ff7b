//! A cell, read by what its column holds.
ghost use Rattle.std.specs.Prelude.{◌≡◌, Err, IfOk, true};
ghost use Rattle.std.specs.Str.{IsUtf8};
ghost use Rattle.wvalues.specs.Meaning.{Text, meaning};
ghost use Rattle.wsegment.specs.Cells.{cell_of, number_cell, typed};
ghost use Rattle.wsegment.specs.declared.fault.SegmentFault.TheVariants.{RowNotUtf8};
ghost use Rattle.wsegment.specs.Integer.{integer_of};
ghost use Rattle.wsegment.specs.Outcome.{Gives};

use crate::fault::SegmentFault;
use crate::field::field_text;
use crate::kind::Kind;
use crate::texts::Texts;
use std::alloc::{AllocError, Global};
use wvalues::{ShortText, Value, Whole};

/// The 64-bit number that a text spells.
#[tactic(auto, using(crate::proofs::IntegerFacts::parsed))]
pub(crate) fn integer(text: &str) -> Option<i64>
    ensures { result ≡ integer_of text.now }
{
    text.parse::<i64>().ok()
}

// What a text says in a column of numbers.
fn number(row: u32, text: &str) -> Result<Value, SegmentFault>
    ensures { Gives meaning result (number_cell row (integer_of text.now)) }
{
    match integer(text) {
        Some(number) => Ok(Value::Int(Whole::from(number))),
        None => Err(SegmentFault::NotInteger { row }),
    }
}

// A text as a value, which is shared where it is not short.
fn text_value(alloc: Global, text: &str, texts: &mut Texts) -> Result<Value, AllocError>
    ensures { IfOk result (λ value. meaning value ≡ Text text.now) }
{
    match ShortText::new(text) {
        Some(short) => Ok(Value::Short(short)),
        None => Ok(Value::Shared(texts.shared(alloc, text)?)),
    }
}

// What a text that is not empty says, by what its column holds.
fn typed(
    alloc: Global,
    row: u32,
    kind: Kind,
    text: &str,
    texts: &mut Texts,
) -> Result<Value, SegmentFault>
    ensures { Gives meaning result (typed row kind text.now) }
{
    match kind {
        Kind::Text => Ok(text_value(alloc, text, texts)?),
        Kind::Integer => number(row, text),
    }
}

/// What a field of a row holds, which may be known to be ASCII. A text that was read lately is shared. A field that is no text
/// is refused without memory.
#[tactic(auto, unfolding(crate::specs::Cells::cell_of))]
pub(crate) fn cell(
    alloc: Global,
    row: u32,
    kind: Kind,
    field: &[u8],
    is_ascii: bool,
    texts: &mut Texts,
) -> Result<Value, SegmentFault>
    requires { is_ascii ≡ true → IsUtf8 field.now }
    ensures gives { Gives meaning result (cell_of row kind field.now) }
    ensures refused { (IsUtf8 field.now → ⊥) → result ≡ Err (RowNotUtf8 row) }
{
    let Some(text) = field_text(field, is_ascii) else {
        return Err(SegmentFault::RowNotUtf8 { row });
    };
    if text.is_empty() {
        return Ok(Value::Null);
    }
    typed(alloc, row, kind, text, texts)
}
