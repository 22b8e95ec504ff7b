//! Values that other rows have.
ghost use Rattle.std.specs.Prelude.{◌≡◌, map, slice_index_or};
ghost use Rattle.wvalues.specs.Meaning.{Null, meaning};
ghost use Rattle.wcolumns.specs.Columns.{read_in, value_of_number, values_seen};

use crate::values::{ColumnValues, value_of_row};
use wvalues::Value;

/// For each row the value that another row has, of which the number is kept.
#[derive(Drop)]
pub struct OtherRows<'a> {
    /// For each row one more than the number of the row whose value it has, or 0 where it has the default.
    pub numbers: Vec<u32>,
    pub values: ColumnValues<'a>,
    pub default: Value,
}

// Whether a value is a text that lies apart from it, of which the length is looked at.
fn is_apart(value: &Value) -> bool {
    match value {
        Value::Shared(text) => text.as_str().len() < usize::MAX,
        Value::Null | Value::Int(_) | Value::Short(_) => false,
    }
}

impl<'a> OtherRows<'a> {
    /// What a kept number stands for, lent.
    #[inline(always)]
    pub fn read<'b>(&'b self, null: &'b Value, number: u32) -> &'b Value
        requires { meaning null.now ≡ Null }
        ensures { meaning result.now ≡ value_of_number (values_seen self.now.values) (meaning self.now.default) number }
    {
        match number {
            0 => &self.default,
            _ => value_of_row(&self.values, null, number as usize - 1),
        }
    }

    /// The value that the row of a number has, lent, and this null where there is no such row.
    #[inline(always)]
    pub fn value<'b>(&'b self, null: &'b Value, row: usize) -> &'b Value
        requires { meaning null.now ≡ Null }
        ensures { meaning result.now ≡ slice_index_or (read_in self.now) row Null }
    {
        if row < self.numbers.len() {
            self.read(null, self.numbers[row])
        } else {
            null
        }
    }

    /// Whether one of the values that some kept numbers stand for is a text that lies apart from it. Each is read, whatever was found
    /// before, and nothing else is done, so that the processor has many of them on their way from memory at once. The length of such a
    /// text is looked at, which stands beside the count of its owners and before its bytes.
    pub fn hold_text(&self, null: &Value, numbers: &[u32]) -> bool
        requires { meaning null.now ≡ Null }
    {
        let mut found = false;
        for number in numbers {
            if is_apart((&*self).read(&*null, *number)) {
                found = true;
            }
        }
        found
    }
}
