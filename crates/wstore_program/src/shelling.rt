//! A shell on the files of a table and a store.
ghost use Rattle.std.specs.Prelude.{◌≡◌, IfErr, IfOk, OnOk};
ghost use Rattle.std.specs.Process.{exit_status};
ghost use Rattle.wfolder.specs.Calls.{HasCause, NothingFailed};
ghost use Rattle.wlines.specs.Pending.{IsNew};
ghost use Rattle.wstore_program.specs.Shelling.{Answers, HasShellStatus, IsOpened, IsUnopened, shell_status};

use crate::opening::{LONGEST_DECLARATION, hashed_of, opened};
use crate::{DONE, failed, failed_on, print};
use std::fs::File;
use std::io::{Read, Write};
use std::process::ExitCode;
use std::rt::Files;
use wact::{Opened, Purpose};
use wcommand::Paths;
use wfiles::{Record, System, read_at_most, read_if_there};
use wfolder::Fault;
use wshell::{ShellFault, run};
use wstore::Node;
use wvalues::Counted;

/// The status of a refusal.
const REFUSED: u8 = 1;

// What the files of a table and a store open.
fn open_files<R: Files<File = File> + AllocGlobal>(
    rt: &R,
    system: &mut System<'_, R>,
    calls: &mut Record,
    paths: Paths<'_>,
) -> Result<Opened, Fault>
    requires { NothingFailed system.old }
    ensures opened { IfOk result (λ opened. IsOpened paths.entry opened calls.old.calls calls.new.calls) }
    ensures unopened { IfErr result (λ fault. IsUnopened paths.entry fault calls.old.calls calls.new.calls) }
    ensures sound { OnOk result (NothingFailed system.new) }
    ensures cause { IfErr result (λ fault. HasCause fault system.new) }
{
    let alloc = rt.alloc();
    let table = read_at_most(alloc, system, calls, paths.table, LONGEST_DECLARATION)?;
    let store = read_if_there(alloc, system, calls, paths.store)?;
    opened(
        alloc,
        system,
        table.as_slice(),
        &hashed_of(&store),
        Purpose::Asking,
    )
}

// The status of a shell's end.
fn ended(rt: &impl Eprint, end: Result<bool, ShellFault>) -> ExitCode
    ensures { exit_status result ≡ shell_status end }
{
    match end {
        Ok(false) => ExitCode::from(DONE),
        Ok(true) => ExitCode::from(REFUSED),
        Err(ShellFault::Read) => failed(rt, Fault::Read),
        Err(ShellFault::Write) => failed(rt, Fault::Write),
        Err(ShellFault::NoMemory) => failed(rt, Fault::NoMemory),
    }
}

// Answers the queries of an input on what a node knows.
fn answer<R: AllocGlobal + Eprint, I: Read, W: Write>(
    rt: &R,
    node: Node,
    input: &mut Counted<I>,
    output: &mut Counted<W>,
) -> ExitCode
    requires input { IsNew input.old }
    requires output { IsNew output.old }
    ensures { Answers node (I.remaining input.old.inner) (I.remaining input.new.inner) input.new
        (W.contents output.old.inner) (W.contents output.new.inner) output.new (exit_status result) }
{
    let mut node = node;
    let end = run(rt.alloc(), &mut node, input, output);
    ended(rt, end)
}

/// Reads the table and the store, and answers the queries of an input on what the store knows, or tells why the table or
/// the store is refused. It ends with status 0 where each query was answered, 1 where one or the table or the store was
/// refused, and 3 at a fault.
pub(crate) fn run_shell<R: Files<File = File> + AllocGlobal + Eprint, I: Read, W: Write>(
    rt: &R,
    system: &mut System<'_, R>,
    calls: &mut Record,
    input: &mut Counted<I>,
    output: &mut Counted<W>,
    paths: Paths<'_>,
) -> ExitCode
    requires sound { NothingFailed system.old }
    requires input { IsNew input.old }
    requires output { IsNew output.old }
    ensures { HasShellStatus paths.entry system.new calls.old.calls calls.new.calls (I.remaining input.old.inner)
        (I.remaining input.new.inner) input.new (W.contents output.old.inner) (W.contents output.new.inner) output.new
        (exit_status result) }
{
    match open_files(rt, system, calls, paths) {
        Ok(Opened::Node(node)) => answer(rt, node, input, output),
        Ok(Opened::Refused(text)) => print(rt, output, text.as_slice(), REFUSED),
        Err(fault) => failed_on(rt, system, fault),
    }
}
