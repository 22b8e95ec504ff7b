ghost use Rattle.std.specs.Prelude.{◌≡◌};
ghost use Rattle.wvalues.specs.Meaning.{meaning};
ghost use Rattle.wvalues.specs.Order.{key_cmp};

use crate::value::Value;
use std::cmp::Ordering;

/// How the values of one column are ordered.
#[derive(Clone, Copy, Debug, PartialEq, Eq)]
pub struct SortKey {
    pub col: usize,
    pub desc: bool,
    pub nulls_first: bool,
}

/// The order of two values under a key.
pub fn compare(a: &Value, b: &Value, key: &SortKey) -> Ordering
    ensures { result ≡ key_cmp key.now (meaning a.now) (meaning b.now) }
{
    match (a, b) {
        (Value::Null, Value::Null) => Ordering::Equal,
        (Value::Null, _) if key.nulls_first => Ordering::Less,
        (Value::Null, _) => Ordering::Greater,
        (_, Value::Null) if key.nulls_first => Ordering::Greater,
        (_, Value::Null) => Ordering::Less,
        (Value::Int(x), Value::Int(y)) if key.desc => y.cmp(x),
        (Value::Int(x), Value::Int(y)) => x.cmp(y),
        (Value::Int(_), _) => Ordering::Less,
        (_, Value::Int(_)) => Ordering::Greater,
        _ if key.desc => b.text().cmp(a.text()),
        _ => a.text().cmp(b.text()),
    }
}
