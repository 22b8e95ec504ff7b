//! The bytes of an answer.
ghost use Rattle.std.specs.Prelude.{◌≡◌, IfOk};
ghost use Rattle.wprinted.specs.Printing.{table_text};

use crate::table::Table;
use std::alloc::{AllocError, Global};
use wprinted::{Layout, Row, Rows, print_rows};

impl Rows for Table {
    ghost rows = { λ table. table.rows };

    fn count(&self) -> usize {
        self.rows()
    }

    fn row(&self, number: usize) -> Row<'_> {
        Row {
            cells: self.row(number),
            columns: &[],
            number,
        }
    }

    fn layout(&self, _from: usize, _end: usize) -> Layout {
        Layout::Contiguous
    }
}

/// The bytes of an answer: the header line with the output names, then one line a row. Fields are parted by commas, and
/// each line ends in LF. A null is an empty field and an empty text is `""`; a text stands in quotes just where it is
/// empty or holds a comma, a quote, CR or LF, and quotes inside are doubled. A number is a plain decimal, with `-` where
/// it is negative. The one error is that memory was refused.
pub fn print(alloc: Global, table: &Table) -> Result<Vec<u8>, AllocError>
    ensures { IfOk result (λ bytes. bytes.items ≡ table_text table.now.names table.now.rows) }
{
    let places = table.places(alloc)?;
    let bytes = print_rows(alloc, table.names(), &places, table)?;
    Ok(bytes)
}
