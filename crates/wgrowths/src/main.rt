//! The program of `tests/run_calls`: makes calls of the crates, each of them with one growth of memory after another refused.
//!
//! A case is told by seven paragraphs of standard input with a line `----` between them, and a line `====` stands between two
//! cases: ROUNDS, CALL, TABLE, STORE, STREAM, TEXT and OTHER, as `case.rt` has them. Of each case the state is written first,
//! then what the call is told and the state behind it. Then the case is begun again for each number up to ROUNDS: the line
//! `call NUMBER` asks who started the program to refuse that growth, counted from the line on, and none behind the next thing
//! that is written; what the call is told then, and the state, are written. Then it is begun again, the growth is refused,
//! and the call is made twice.
#![tactic(auto)]

mod calls;
mod case;
mod failure;
mod orders;
mod replies;
mod state;
mod windows;

use calls::{Lent, make};
use case::Case;
use failure::Failure;
use state::State;
use std::alloc::{AllocError, Global};
use std::io::{self, Write};
use std::process::ExitCode;
use wreplies::Text;

/// The number of the growth that is refused, and whether the call is made again behind it.
#[derive(Clone, Copy)]
struct Round {
    refused: u32,
    is_again: bool,
}

impl Round {
    fn new(refused: u32, is_again: bool) -> Round {
        Round { refused, is_again }
    }
}

// Writes the line that asks for a refusal.
fn show_call<W: Write>(alloc: Global, output: &mut W, refused: u32) -> Result<(), Failure> {
    let line = format!(in alloc; "call {refused}\n")?;
    output.write_all(line.as_bytes())?;
    Ok(())
}

// Writes bytes behind a word and their number.
fn show<W: Write>(alloc: Global, output: &mut W, word: &str, bytes: &[u8]) -> Result<(), Failure> {
    let head = format!(in alloc; "{word} {}\n", bytes.len())?;
    output.write_all(head.as_bytes())?;
    output.write_all(bytes)?;
    Ok(())
}

// Writes what a call was told.
fn show_told<W: Write>(
    alloc: Global,
    output: &mut W,
    told: Result<Text, AllocError>,
) -> Result<(), Failure> {
    match told {
        Ok(text) => show(alloc, output, "told", text.as_slice()),
        Err(_) => show(alloc, output, "told", b"no memory\n"),
    }
}

// Writes what the state is.
fn show_state<W: Write>(alloc: Global, output: &mut W, state: &mut State) -> Result<(), Failure> {
    let mut text = Vec::new(alloc);
    match state.tell(alloc, &mut text) {
        Ok(()) => show(alloc, output, "state", text.as_slice()),
        Err(refused) => Err(Failure::NoMemory(refused)),
    }
}

// Makes the call of a round on its state, and then once more where it is to be made again.
fn show_calls<W: Write>(
    alloc: Global,
    output: &mut W,
    case: &Case<'_>,
    round: Round,
    state: &mut State,
    lent: &Lent,
) -> Result<(), Failure> {
    show_call(alloc, output, round.refused)?;
    let told = make(alloc, state, case, lent);
    output.write_all(b"end\n")?;
    show_told(alloc, output, told)?;
    if round.is_again {
        show_told(alloc, output, make(alloc, state, case, lent))?;
    }
    show_state(alloc, output, state)
}

// Makes the call of a round where its state is made.
fn show_lent<W: Write>(
    alloc: Global,
    output: &mut W,
    case: &Case<'_>,
    round: Round,
    state: &mut State,
) -> Result<(), Failure> {
    match Lent::new(alloc, state, case) {
        Ok(lent) => show_calls(alloc, output, case, round, state, &lent),
        Err(failure) => Err(failure),
    }
}

fn show_round<W: Write>(
    alloc: Global,
    output: &mut W,
    case: &Case<'_>,
    round: Round,
) -> Result<(), Failure> {
    match State::new(alloc, case) {
        Ok(mut state) => show_lent(alloc, output, case, round, &mut state),
        Err(failure) => Err(failure),
    }
}

fn show_before<W: Write>(alloc: Global, output: &mut W, case: &Case<'_>) -> Result<(), Failure> {
    match State::new(alloc, case) {
        Ok(mut state) => show_state(alloc, output, &mut state),
        Err(failure) => Err(failure),
    }
}

fn show_case<W: Write>(alloc: Global, output: &mut W, case: &Case<'_>) -> Result<(), Failure> {
    show_before(alloc, output, case)?;
    show_round(alloc, output, case, Round::new(0, false))?;
    for refused in 1..=case.rounds {
        show_round(alloc, output, case, Round::new(refused, false))?;
        show_round(alloc, output, case, Round::new(refused, true))?;
    }
    Ok(())
}

fn show_text<W: Write>(alloc: Global, output: &mut W, text: &str) -> Result<(), Failure> {
    let paragraphs: Vec<&str> = text.split("\n----\n").collect(alloc)?;
    match Case::read(alloc, paragraphs.as_slice()) {
        Ok(case) => show_case(alloc, output, &case),
        Err(failure) => Err(failure),
    }
}

fn run(rt: &(impl Input + Print + AllocGlobal)) -> Result<(), Failure> {
    let alloc = rt.alloc();
    let text = io::read_to_string(alloc, rt.reader())?;
    let mut output = io::writer(rt);
    for told in text.as_str().split("\n====\n") {
        show_text(alloc, &mut output, told)?;
    }
    Ok(())
}

fn main(rt: HostRuntime) -> ExitCode {
    match run(&rt) {
        Ok(()) => ExitCode::SUCCESS,
        Err(failure) => {
            let _ = eprintln!(rt; "{failure}");
            ExitCode::FAILURE
        }
    }
}
