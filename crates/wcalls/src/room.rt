//! Room for columns.
ghost use Rattle.std.specs.Prelude.{◌≡◌, []};

use std::alloc::{AllocError, Global};
use wplan::WindowFunction;
use wvalues::Value;

/// An empty list reserved for one function's column; its capacity is speed alone.
#[derive(Drop)]
pub(crate) struct Room {
    pub(crate) numbers: Vec<u32>,
    pub(crate) values: Vec<Value>,
    ghost no_number: { numbers.items ≡ [] },
    ghost no_value: { values.items ≡ [] },
}

impl Room {
    /// No room.
    pub(crate) fn none(alloc: Global) -> Room {
        Room {
            numbers: Vec::new(alloc),
            values: Vec::new(alloc),
        }
    }

    // Room for the column of a function on so many rows.
    fn of(alloc: Global, function: &WindowFunction, rows: usize) -> Result<Room, AllocError> {
        let mut room = Room::none(alloc);
        match function {
            WindowFunction::Aggregated(_) => room.values = Vec::with_capacity(alloc, rows)?,
            _ => room.numbers = Vec::with_capacity(alloc, rows)?,
        }
        Ok(room)
    }
}

/// Room for the columns of functions on so many rows, that of the first function last.
pub(crate) fn rooms(
    alloc: Global,
    functions: &[&WindowFunction],
    rows: usize,
) -> Result<Vec<Room>, AllocError> {
    let mut rooms = Vec::with_capacity(alloc, functions.len())?;
    for function in functions.iter().rev() {
        rooms.push(Room::of(alloc, function, rows)?)?;
    }
    Ok(rooms)
}
