//! The program of `bench/frames`: folds the frames of partitions that it makes itself.
//!
//! Each line of standard input is a case, of which `case.rt` tells the words. Its line on standard output has the
//! rows, the joins that the meter counted, and the sum of what the frames come to. With the word `times` behind the
//! program's name the nanoseconds follow that building the frames took, and those that folding them took.
//! Status 2: a line that is no case, or another word. Status 3: a fault of the system, or want of memory.
#![tactic(auto)]

mod case;
mod columns;
mod failure;
mod measure;
mod words;

use case::Case;
use failure::Failure;
use measure::{Outcome, measured};
use std::alloc::Global;
use std::env::{self, Env};
use std::io;
use std::process::ExitCode;
use std::rt::Clock;

/// The status of a line that is no case, and of words that the program does not take.
const REFUSED: u8 = 2;

/// The status of a fault.
const FAILED: u8 = 3;

/// What is printed of a case.
#[derive(Clone, Copy, Debug, PartialEq, Eq)]
enum Shown {
    /// What is the same in each run.
    Results,
    /// That, and the times.
    ResultsAndTimes,
}

// What the words behind the program's name ask for.
fn read_words(rt: &(impl Env + Alloc)) -> Result<Shown, Failure> {
    let mut words = env::args(rt)?;
    let _program = words.next();
    let Some(word) = words.next() else {
        return Ok(Shown::Results);
    };
    if word.as_str() == "times" && words.next().is_none() {
        Ok(Shown::ResultsAndTimes)
    } else {
        Err(Failure::Words)
    }
}

fn print_outcome(rt: &impl Print, shown: Shown, outcome: &Outcome) -> io::Result<()> {
    print!(rt; "{} {} {}", outcome.rows, outcome.joins, outcome.sum)?;
    if shown == Shown::ResultsAndTimes {
        let building = outcome.building.as_nanos();
        let folding = outcome.folding.as_nanos();
        print!(rt; " {building} {folding}")?;
    }
    println!(rt; "")
}

// The case that a line spells; lines are counted from 1.
fn read_case(alloc: Global, line: usize, text: &str) -> Result<Case, Failure> {
    let words: Vec<&str> = text.split_whitespace().collect(alloc)?;
    Case::read(&words).map_err(|fault| Failure::Line { line, fault })
}

fn run(rt: &(impl Input + Print + Env + Clock + AllocGlobal)) -> Result<(), Failure> {
    let shown = read_words(rt)?;
    for (i, line) in rt.lines(rt.alloc()).enumerate() {
        let line = line?;
        let case = read_case(rt.alloc(), i + 1, line.as_str())?;
        print_outcome(rt, shown, &measured(rt, &case)?)?;
    }
    Ok(())
}

// The status that the program ends with.
fn status_of(failure: &Failure) -> u8 {
    match failure {
        Failure::Words | Failure::Line { .. } => REFUSED,
        Failure::Order | Failure::NoMemory(_) | Failure::System(_) => FAILED,
    }
}

fn main(rt: HostRuntime) -> ExitCode {
    match run(&rt) {
        Ok(()) => ExitCode::SUCCESS,
        Err(failure) => {
            let _ = eprintln!(rt; "{failure}");
            ExitCode::from(status_of(&failure))
        }
    }
}
