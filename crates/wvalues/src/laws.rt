//! The laws of values and of the order of keys. The functions do nothing when run: each is the proof of its contract.
ghost use Rattle.std.specs.Prelude.{List};
ghost use Rattle.std.specs.Cmp.{IsTotalOrder};
ghost use Rattle.wvalues.specs.declared.key.SortKey.{SortKey};
ghost use Rattle.wvalues.specs.Meaning.{IsMeaning, meaning};
ghost use Rattle.wvalues.specs.Order.{keys_cmp};
ghost use Rattle.wvalues.specs.OrderLaws.{TiesAreSame};

use crate::value::Value;

/// The number that a value holds is in range.
pub fn value_is_in_range(value: &Value)
    ensures { IsMeaning (meaning value.now) }
{
    if let Value::Int(number) = value {
        let _ = number.get();
    }
}

/// A list of keys orders all lists of values totally.
pub fn keys_order_totally()
    ensures { (keys : List SortKey) → IsTotalOrder (keys_cmp keys) }
{}

/// Values that no key tells apart are the same, and so are lists of a value for each key.
pub fn ties_are_same()
    ensures { TiesAreSame }
{}
