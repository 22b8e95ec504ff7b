//! The program. Its words choose a subcommand on files, or a script from standard input.
//!
//! It ends with status 0 where all was done, 1 where a subcommand was refused, 2 at a bad script and at words that are
//! not understood, and 3 at a fault, whose name and reason it writes to standard error. There it also explains a refusal.
#![tactic(auto)]

ghost use Rattle.std.specs.Prelude.{◌≡◌, Some, map, true};
ghost use Rattle.std.specs.Process.{exit_status};
ghost use Rattle.wcommand.specs.Inputs.{is_act, paths_of};
ghost use Rattle.wfolder.specs.Calls.{NothingFailed};
ghost use Rattle.wlines.specs.Pending.{IsNew};
ghost use Rattle.wstore_program.specs.Program.{DoesChoice, DoesWords, HasScriptStatus};
ghost use Rattle.wstore_program.specs.Shelling.{HasShellStatus};
ghost use Rattle.wstore_program.specs.Statuses.{HasFileStatus, HasWordsStatus, IsPrinted, script_status};

mod acting;
mod explaining;
mod feeding;
mod given;
mod opening;
mod printing;
mod shelling;
mod work;

use acting::perform;
use printing::write_whole;
use shelling::run_shell;
use std::alloc::{AllocError, Global};
use std::env;
use std::fs::File;
use std::io::{self, ErrorKind, Read, Write};
use std::process::ExitCode;
use std::rt::{Clock, Files};
use wcommand::{Choice, Paths, WordsFault, choose};
use wfiles::{Record, System};
use wfolder::Fault;
use wstore::{End, RunFault, run};
use wvalues::Counted;

/// The status of what was done.
const DONE: u8 = 0;

/// The status of a bad script, and of words that are not understood.
const MISUNDERSTOOD: u8 = 2;

/// The status of a fault.
const FAILED: u8 = 3;

/// The bytes of the largest piece that the GNU C library learns to keep: 32 MB, with its own words and whole pages.
const LARGEST_KEPT: usize = (32 << 20) - (8 << 10);

// The status of a fault.
fn fault_status() -> ExitCode
    ensures { exit_status result ≡ 3 }
{
    ExitCode::from(FAILED)
}

// The status of a fault, whose name is written to standard error.
fn failed(rt: &impl Eprint, fault: Fault) -> ExitCode
    ensures { exit_status result ≡ 3 }
{
    let _ = eprintln!(rt; "{fault}");
    fault_status()
}

// The status of a fault whose name and reason are written to standard error.
fn failed_for(rt: &impl Eprint, fault: Fault, reason: io::Error) -> ExitCode
    ensures { exit_status result ≡ 3 }
{
    let _ = eprintln!(rt; "{fault}: {reason}");
    fault_status()
}

// The status of a fault on files, whose name and reason are written to standard error.
fn failed_on<R>(rt: &impl Eprint, system: &System<'_, R>, fault: Fault) -> ExitCode
    ensures { exit_status result ≡ 3 }
{
    match system.reason() {
        Some(reason) => failed_for(rt, fault, reason),
        None => failed(rt, fault),
    }
}

// The status of a script's end.
fn ended(rt: &impl Eprint, end: Result<End, RunFault>) -> ExitCode
    ensures { exit_status result ≡ script_status end }
{
    match end {
        Ok(End::Done) => ExitCode::SUCCESS,
        Ok(End::Bad) => ExitCode::from(MISUNDERSTOOD),
        Err(RunFault::Read) => failed(rt, Fault::Read),
        Err(RunFault::Write) => failed(rt, Fault::Write),
        Err(RunFault::NoMemory) => failed(rt, Fault::NoMemory),
    }
}

/// What a run of the program comes to: its status, and the input and the output as it leaves them, with what was counted of
/// them.
#[derive(Drop)]
struct Outcome<I, W> {
    status: ExitCode,
    input: Counted<I>,
    output: Counted<W>,
}

// Runs a script, whose commands the input has.
fn run_session<I: Read, W: Write>(
    rt: &(impl AllocGlobal + Eprint),
    input: Counted<I>,
    output: Counted<W>,
) -> Outcome<I, W>
    requires input { IsNew input }
    requires output { IsNew output }
    ensures { HasScriptStatus (I.remaining input.inner) result.input (W.contents output.inner)
        (W.contents result.output.inner) result.output (exit_status result.status) }
{
    let mut input = input;
    let mut output = output;
    let status = ended(rt, run(rt.alloc(), &mut input, &mut output));
    Outcome {
        status,
        input,
        output,
    }
}

// Prints a text, with the status of what was done.
fn print<W: Write>(rt: &impl Eprint, output: &mut Counted<W>, text: &[u8], done: u8) -> ExitCode
    requires { IsNew output.old }
    ensures { IsPrinted text.now done (W.contents output.old.inner) (W.contents output.new.inner) output.new.failures
        (exit_status result) }
{
    match write_whole(output, text) {
        Ok(()) => ExitCode::from(done),
        Err(reason) => failed_for(rt, Fault::Write, reason),
    }
}

// Runs a subcommand on its files, and prints its reply.
fn run_on_files<R: Files<File = File> + AllocGlobal + Clock + Eprint, W: Write>(
    rt: &R,
    system: &mut System<'_, R>,
    calls: &mut Record,
    output: &mut Counted<W>,
    choice: &Choice<'_>,
    paths: Paths<'_>,
) -> ExitCode
    requires choice { is_act choice.now ≡ true }
    requires named { paths_of choice.now ≡ Some paths }
    requires sound { NothingFailed system.old }
    requires output { IsNew output.old }
    ensures { HasFileStatus choice.now system.new calls.old.calls calls.new.calls (W.contents output.old.inner)
        (W.contents output.new.inner) output.new.failures (exit_status result) }
{
    match perform(rt, system, calls, choice, paths) {
        Ok(acted) => print(rt, output, acted.output.as_slice(), acted.status),
        Err(fault) => failed_on(rt, system, fault),
    }
}

// Prints why the words choose nothing, or what they ask for.
fn tell<W: Write>(rt: &impl Eprint, output: &mut Counted<W>, fault: WordsFault) -> ExitCode
    requires { IsNew output.old }
    ensures { HasWordsStatus fault (W.contents output.old.inner) (W.contents output.new.inner) output.new.failures
        (exit_status result) }
{
    match fault {
        WordsFault::Help(text) => print(rt, output, text.as_bytes(), DONE),
        WordsFault::Refused(text) => {
            let _ = eprint!(rt; "{text}");
            ExitCode::from(MISUNDERSTOOD)
        }
        WordsFault::NoMemory => failed(rt, Fault::NoMemory),
    }
}

// Answers the queries that the input has.
fn answer_input<R: Files<File = File> + AllocGlobal + Eprint, I: Read, W: Write>(
    rt: &R,
    system: &mut System<'_, R>,
    calls: &mut Record,
    input: Counted<I>,
    output: Counted<W>,
    paths: Paths<'_>,
) -> Outcome<I, W>
    requires sound { NothingFailed system.old }
    requires input { IsNew input }
    requires output { IsNew output }
    ensures { HasShellStatus paths.entry system.new calls.old.calls calls.new.calls (I.remaining input.inner)
        (I.remaining result.input.inner) result.input (W.contents output.inner) (W.contents result.output.inner)
        result.output (exit_status result.status) }
{
    let mut input = input;
    let mut output = output;
    let status = run_shell(rt, system, calls, &mut input, &mut output, paths);
    Outcome {
        status,
        input,
        output,
    }
}

// Does what is chosen: a script or a shell goes on for as long as the input does, and any other subcommand leaves the input alone.
fn run_choice<R: Files<File = File> + AllocGlobal + Clock + Eprint, I: Read, W: Write>(
    rt: &R,
    system: &mut System<'_, R>,
    calls: &mut Record,
    input: Counted<I>,
    output: Counted<W>,
    choice: &Choice<'_>,
) -> Outcome<I, W>
    requires sound { NothingFailed system.old }
    requires input { IsNew input }
    requires output { IsNew output }
    ensures { DoesChoice choice.now system.new calls.old.calls calls.new.calls (I.remaining input.inner)
        (I.remaining result.input.inner) result.input (W.contents output.inner) (W.contents result.output.inner)
        result.output (exit_status result.status) }
{
    let Some(paths) = choice.paths() else {
        return run_session(rt, input, output);
    };
    if !choice.is_act() {
        return answer_input(rt, system, calls, input, output, paths);
    }
    let mut output = output;
    let status = run_on_files(rt, system, calls, &mut output, choice, paths);
    Outcome {
        status,
        input,
        output,
    }
}

// Does what the words behind the program's name ask for, with this standard input and output.
fn run_words<R: Files<File = File> + AllocGlobal + Clock + Eprint, I: Read, W: Write>(
    rt: &R,
    system: &mut System<'_, R>,
    calls: &mut Record,
    input: Counted<I>,
    output: Counted<W>,
    words: &[&str],
) -> Outcome<I, W>
    requires sound { NothingFailed system.old }
    requires input { IsNew input }
    requires output { IsNew output }
    ensures { DoesWords (map (λ word. word.now) words.now) system.new calls.old.calls calls.new.calls
        (I.remaining input.inner) (I.remaining result.input.inner) result.input (W.contents output.inner)
        (W.contents result.output.inner) result.output (exit_status result.status) }
{
    let fault = match choose(rt.alloc(), words) {
        Ok(choice) => return run_choice(rt, system, calls, input, output, &choice),
        Err(fault) => fault,
    };
    let mut output = output;
    let status = tell(rt, &mut output, fault);
    Outcome {
        status,
        input,
        output,
    }
}

// Has the C library keep pieces of memory that are let go: it gives back to the system each that is larger than the largest
// that was let go before, and what takes its place is mapped anew, page by page. Where there is no memory, all is as before.
fn keep_memory(alloc: Global) {
    let piece: Result<Vec<u8>, AllocError> = Vec::with_capacity(alloc, LARGEST_KEPT);
    drop(piece);
}

fn main(rt: HostRuntime) -> ExitCode {
    let alloc = rt.alloc();
    keep_memory(alloc);
    let words = match env::args(&rt) {
        Ok(words) => words,
        Err(error) if error.kind() == ErrorKind::InvalidData => {
            let _ = eprintln!(rt; "error: a word is not UTF-8");
            return ExitCode::from(MISUNDERSTOOD);
        }
        Err(_) => return failed(&rt, Fault::NoMemory),
    };
    let Ok(words) = words.skip(1).collect::<Vec<String>>(alloc) else {
        return failed(&rt, Fault::NoMemory);
    };
    let Ok(texts) = words
        .iter()
        .map(|word| word.as_str())
        .collect::<Vec<&str>>(alloc)
    else {
        return failed(&rt, Fault::NoMemory);
    };
    let mut system = System::new(&rt);
    let mut calls = Record::new();
    let outcome = run_words(
        &rt,
        &mut system,
        &mut calls,
        Counted::new(rt.stdin()),
        Counted::new(rt.stdout()),
        texts.as_slice(),
    );
    outcome.status
}
