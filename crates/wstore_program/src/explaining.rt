//! Refusals, explained on standard error.

use crate::work::Work;
use wact::{Acted, REFUSED};
use wbatch::Batch;
use wcommand::Choice;
use wexplain::{Given, Input, NameWords, Stream, explain};

// The words of the name in a choice, if it has one.
fn name_of<'w>(choice: &Choice<'w>) -> Option<NameWords<'w>> {
    match *choice {
        Choice::Take { origin, number, .. } => Some(NameWords { origin, number }),
        Choice::Retire { origin, number, .. } => Some(NameWords { origin, number }),
        Choice::Floor { origin, number, .. } => Some(NameWords { origin, number }),
        _ => None,
    }
}

// The query of a choice, where it has one and no other.
fn query_of<'w>(choice: &Choice<'w>) -> Option<&'w str> {
    match choice {
        Choice::Ask { queries, .. } if queries.len() == 1 => Some(queries[0]),
        _ => None,
    }
}

// Whether what is printed is one refusal: of several queries it may be one of many.
fn tells_one(choice: &Choice<'_>) -> bool {
    match choice {
        Choice::Ask { queries, .. } => queries.len() == 1,
        _ => true,
    }
}

// CSV of a choice, with its bytes.
fn segment_of<'w, 'o>(choice: &Choice<'w>, bytes: &'o [u8]) -> Option<Input<'w, 'o>> {
    match *choice {
        Choice::Take { csv, .. } => Some(Input { path: csv, bytes }),
        _ => None,
    }
}

// OTHER of a choice, with its bytes.
fn other_of<'w, 'o>(choice: &Choice<'w>, bytes: &'o [u8]) -> Option<Input<'w, 'o>> {
    match *choice {
        Choice::Join { other, .. } => Some(Input { path: other, bytes }),
        _ => None,
    }
}

// The store, if there was one.
fn store_of<'w, 'a>(work: &Work<'a, 'w>) -> Option<Input<'w, 'a>> {
    match work.store {
        Some(bytes) => Some(Input {
            path: work.paths.store,
            bytes: bytes.as_slice(),
        }),
        None => None,
    }
}

// Writes why something was refused that was given this and printed that, if it was.
fn write_explanation<R: AllocGlobal + Eprint>(
    rt: &R,
    acted: &Acted,
    given: &Given<'_, '_, '_, '_, '_>,
) {
    if acted.status != REFUSED {
        return;
    }
    if let Ok(Some(text)) = explain(rt.alloc(), acted.output.as_slice(), given) {
        let _ = eprint!(rt; "{text}");
    }
}

// The table.
fn table_of<'w, 'a>(work: &Work<'a, 'w>) -> Input<'w, 'a> {
    Input {
        path: work.paths.table,
        bytes: work.table,
    }
}

/// Writes why a subcommand was refused, with these bytes of CSV or OTHER, to standard error; nothing where it was not.
pub(crate) fn explain_refusal<R: AllocGlobal + Eprint>(
    rt: &R,
    work: &Work<'_, '_>,
    other: &[u8],
    acted: &Acted,
) {
    let choice = work.choice;
    if !tells_one(choice) {
        return;
    }
    let given = Given {
        table: table_of(work),
        store: store_of(work),
        segment: segment_of(choice, other),
        stream: None,
        other: other_of(choice, other),
        name: name_of(choice),
        query: query_of(choice),
    };
    write_explanation(rt, acted, &given);
}

/// Writes why a stream was refused, where the batch stopped that was filled from it, to standard error.
pub(crate) fn explain_stream<R: AllocGlobal + Eprint>(
    rt: &R,
    work: &Work<'_, '_>,
    stream: &str,
    batch: &Batch,
    acted: &Acted,
) {
    let given = Given {
        table: table_of(work),
        store: None,
        segment: None,
        stream: Some(Stream {
            path: stream,
            place: batch.place(),
        }),
        other: None,
        name: None,
        query: None,
    };
    write_explanation(rt, acted, &given);
}
