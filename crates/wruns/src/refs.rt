//! References to rows of several segments.
ghost use Rattle.std.specs.Prelude.{◌≡◌};
ghost use Rattle.std.specs.Iterator.{YieldsFirst, item_count};
ghost use Rattle.wruns.specs.Lists.{run_refs};

use crate::run::Run;
use std::iter::Iterator;
use std::marker::Model;

/// A row of one of several segments: the number of the segment among them, and the row's place in it, both from 0.
#[derive(Clone, Copy, Debug, PartialEq, Eq, Drop)]
pub struct RowRef {
    pub segment: u32,
    pub row: u32,
}

/// The rows of a run of the segment of a number, in order. In a contract it is the list of those that are left.
#[derive(Drop)]
pub(crate) struct RunRefs<'a> {
    segment: u32,
    rows: &'a [u32],
}

impl<'a> Model for RunRefs<'a> {
    ghost use Rattle.std.specs.Prelude.{List, map};
    ghost use Rattle.wruns.specs.Lists.{ref};
    ghost use Rattle.wruns.specs.declared.refs.RowRef.{RowRef};

    ghost Value = { List RowRef };

    ghost view = { λ r. map (ref r.segment) r.rows.now };
}

impl<'a> RunRefs<'a> {
    /// All rows of the run.
    pub(crate) fn new(segment: u32, run: &'a Run) -> RunRefs<'a>
        ensures { result ≡ run_refs segment run.now }
    {
        RunRefs {
            segment,
            rows: run.rows(),
        }
    }
}

impl<'a> Iterator for RunRefs<'a> {
    type Item = RowRef;

    ghost next_gives = { YieldsFirst (λ left. left) };

    ghost remaining = { item_count (λ left. left) };

    fn next(&mut self) -> Option<RowRef> {
        let (row, rows) = self.rows.split_first()?;
        self.rows = rows;
        Some(RowRef {
            segment: self.segment,
            row: *row,
        })
    }
}
