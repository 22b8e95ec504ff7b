//! The bytes of an answer.
ghost use Rattle.std.specs.Prelude.{◌≡◌, ◌≤◌, ◌++◌, IfOk, OnOk, map};
ghost use Rattle.std.specs.List.{flat_map};
ghost use Rattle.std.specs.Rc.{rc_str_bytes};
ghost use Rattle.wprinted.specs.Printing.{field_text, line_text, table_text, text_field, values_at};

use crate::ahead::look_ahead;
use crate::batch::{BATCH, Batch, LINES, push_batch};
use crate::field::push_text;
use crate::printed::Printed;
use crate::rows::Rows;
use std::alloc::{AllocError, Global};
use std::rc::RcStr;
use wvalues::Value;

// Adds the header line.
fn push_names(bytes: &mut Vec<u8>, names: &[RcStr]) -> Result<(), AllocError>
    ensures { OnOk result (bytes.new.items ≡ bytes.old.items ++ line_text (map (λ name. text_field (rc_str_bytes name)) names.now)) }
{
    for (i, name) in names.iter().enumerate() {
        if i > 0 {
            bytes.push(b',')?;
        }
        push_text(bytes, name.as_str().as_bytes())?;
    }
    bytes.push(b'\n')?;
    Ok(())
}

/// How many rows are printed before room is made for all that are left: so many that much is known of their lines, and so few that what
/// they were printed into, which is let go then, takes little memory beside the answer.
const FORESEEN_AT: usize = 65_536;

// Makes room for the lines of the rows that are left of so many, as if they were longer by a quarter than those of the rows that are
// done, in the mean. Where they find none, or are longer, they make room as they are added. This is a matter of speed alone.
fn foresee(bytes: &mut Vec<u8>, done: usize, count: usize)
    requires { done ≤ count }
    ensures { bytes.new.items ≡ bytes.old.items }
{
    if done == FORESEEN_AT {
        let line = bytes.len() / FORESEEN_AT;
        let longer = line.saturating_add(line / 4).saturating_add(1);
        let _ = bytes.reserve(longer.saturating_mul(count - done));
    }
}

// Adds the lines of the values of all rows at some places.
fn push_rows<R: Rows>(bytes: &mut Vec<u8>, printed: &Printed<'_, R>) -> Result<(), AllocError>
    ensures { OnOk result (bytes.new.items ≡ bytes.old.items ++ flat_map (λ row. line_text (map field_text row))
        (map (values_at printed.now.places.now) (R.rows printed.now.rows.now))) }
{
    let mut lines = [0u8; LINES];
    let count = printed.rows.count();
    let mut row = 0;
    while row < count {
        foresee(bytes, row, count);
        look_ahead(bytes, printed, row);
        let end = count.min(row.saturating_add(BATCH));
        push_batch(bytes, printed, Batch { from: row, end }, &mut lines)?;
        row = end;
    }
    Ok(())
}

/// The bytes of an answer: the header line with the output names, then one line a row with its values at some places. Fields
/// are parted by commas, and each line ends in LF. A null is an empty field and an empty text is `""`; a text stands in quotes
/// just where it is empty or holds a comma, a quote, CR or LF, and quotes inside are doubled. A number is a plain decimal, with
/// `-` where it is negative. The one error is that memory was refused.
pub fn print_rows<R: Rows>(
    alloc: Global,
    names: &[RcStr],
    places: &[usize],
    rows: &R,
) -> Result<Vec<u8>, AllocError>
    ensures { IfOk result (λ bytes. bytes.items ≡ table_text (map rc_str_bytes names.now) (map (values_at places.now) (R.rows rows.now))) }
{
    let mut bytes = Vec::new(alloc);
    push_names(&mut bytes, names)?;
    let null = Value::Null;
    let printed = Printed {
        rows,
        null: &null,
        places,
    };
    push_rows(&mut bytes, &printed)?;
    Ok(bytes)
}
