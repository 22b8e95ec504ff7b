//! Rows that lie far apart, some at a time.
//!
//! A loop that reads alone goes ahead of the one that copies, so that the processor has many values on their way from memory at
//! once. Where it finds no text, nothing is shared, and numbers are copied as they lie.
ghost use Rattle.std.specs.Prelude.{◌≡◌, ◌<◌, ◌≤◌, false};
ghost use Rattle.wvalues.specs.Meaning.{meaning};
ghost use Rattle.wrows.specs.Picked.{is_text};

use wvalues::Value;

// How many rows are read before they are copied, so few that a cache holds them until then.
const BATCH: usize = 256;

/// Whether a value is a text. Its length is looked at, which stands beside the count of its owners, so that both are near when it
/// is copied.
#[inline(always)]
pub fn is_text(value: &Value) -> bool
    ensures { result ≡ is_text (meaning value.now) }
{
    match value {
        Value::Short(_) => true,
        Value::Shared(text) => text.as_str().len() < usize::MAX,
        Value::Null | Value::Int(_) => false,
    }
}

/// A copy of a value that is no text, which takes no memory.
#[inline(always)]
pub fn copy_of(value: &Value) -> Value
    requires { is_text (meaning value.now) ≡ false }
    ensures { meaning result ≡ meaning value.now }
{
    match value {
        Value::Int(number) => Value::Int(*number),
        Value::Null | Value::Short(_) | Value::Shared(_) => Value::Null,
    }
}

/// Where the rows end that are taken next, of so many. How many they are is a matter of speed alone.
pub fn batch_end(done: usize, count: usize) -> usize
    requires { done < count }
    ensures some { done < result }
    ensures within { result ≤ count }
{
    if count - done < BATCH {
        count
    } else {
        done + BATCH
    }
}
