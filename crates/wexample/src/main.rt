//! A node as a library: a program that takes a segment and asks for a running sum.
#![tactic(auto)]

use std::alloc::Global;
use std::io::{self, Write};
use std::process::ExitCode;
use thiserror::Error;
use wsegment::{Schema, SchemaFault, SegmentFault};
use wstore::{AskFault, Node};
use wvalues::{Name, NameFault};

/// Why there is no answer.
#[derive(Debug, Drop, Error)]
pub enum Failure {
    /// The declaration of the table is none.
    #[error("{0}")]
    Table(#[from] SchemaFault),
    /// The words of a name spell none.
    #[error("{0}")]
    Name(#[from] NameFault),
    /// The bytes of a segment are none of the table.
    #[error("{0}")]
    Segment(#[from] SegmentFault),
    /// The query is refused.
    #[error("{0}")]
    Query(#[from] AskFault),
}

/// What each day's sales come to with those of the days before, as CSV.
fn running_sums(alloc: Global) -> Result<Vec<u8>, Failure> {
    let schema = Schema::read(alloc, b"table sales\nday integer\namount integer\n")?;
    let mut node = Node::new(alloc, schema);
    let name = Name::read(b"east", b"1")?;
    node.take(name, b"day,amount\n1,10\n2,20\n3,5\n")?;
    let answer = node.ask(b"SELECT day, sum(amount) OVER (ORDER BY day) AS so_far FROM sales")?;
    Ok(answer)
}

fn main(rt: HostRuntime) -> ExitCode {
    match running_sums(rt.alloc()) {
        Ok(answer) => match io::writer(&rt).write_all(answer.as_slice()) {
            Ok(()) => ExitCode::SUCCESS,
            Err(_) => ExitCode::FAILURE,
        },
        Err(failure) => {
            let _ = eprintln!(rt; "{failure}");
            ExitCode::FAILURE
        }
    }
}
