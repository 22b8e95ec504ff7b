//! Runs a script.
ghost use Rattle.std.specs.Prelude.{[], false, ◌≡◌, ℕ, ◌<◌, ◌≤◌, length, take, List, Some, None};
ghost use Rattle.std.specs.Prelude.{IfOk, IfErr, OnOk, OnErr, IfSome, IsNone, is_some, true};
ghost use Rattle.std.specs.Io.KnownBytes.{Appends};
ghost use Rattle.wlines.specs.Pending.{left, budget, IsNew, IsSound, IsSoundWriter};
ghost use Rattle.wlines.specs.Failing.{IsReady};
ghost use Rattle.wlines.specs.Sent.{Says, sent};
ghost use Rattle.wscript.specs.Commands.{Command as Spelled, Declare, IsAllowed, longest_text};
ghost use Rattle.wscript.specs.Requests.{IsCommandOf, IsFeedOf, IsOrderAt, IsRefusedAs, GoesOn, RequestReads};
ghost use Rattle.wstore.specs.History.{Step, is_declared};
ghost use Rattle.wstore.specs.Runs.{Replies, RepliesBegun};
ghost use Rattle.wstore.specs.Sessions.{Stands, MayStand};
ghost use Rattle.wstore.specs.Steps.{HasCause, HasStepCause, HasWriteCause, Answered, Unanswered, StepLeads, StepFails};

use crate::session::{Session, refuse};
use std::alloc::Global;
use std::io::{Read, Write};
use thiserror::Error;
use wlines::{BlockReader, Outbox, ReadFault};
use wscript::{Command, NodeNumber, Order, Refusal, Request, read_command};
use wvalues::Counted;

/// How a run ended.
#[derive(Clone, Copy, Debug, PartialEq, Eq)]
pub enum End {
    /// The input ended between two commands.
    Done,
    /// A command was malformed. `bad script` was written behind the replies.
    Bad,
}

/// Why a run did not end. What was written is a beginning of the replies to the commands that were read.
#[derive(Clone, Copy, Debug, PartialEq, Eq, Error)]
pub enum RunFault {
    /// The reader failed, or has not ended within 2^40 reads.
    #[error("read fault")]
    Read,
    /// The writer failed.
    #[error("write fault")]
    Write,
    /// A growth was refused before anything was read, or at a declaration within its limit.
    #[error("no memory")]
    NoMemory,
}

/// Says a reply, or fails as a run does.
pub(crate) fn send<W: Write>(
    outbox: &mut Outbox,
    output: &mut Counted<W>,
    reply: &[u8],
) -> Result<(), RunFault>
    requires { IsSoundWriter output.old }
    ensures ok { OnOk result (Says (sent W.contents outbox.old output.old) (sent W.contents outbox.new output.new) reply.now) }
    ensures answered { OnOk result (outbox.new.is_answered ≡ true) }
    ensures sound { OnOk result (IsSoundWriter output.new) }
    ensures fault { IfErr result (λ e. e ≡ RunFault.Write) }
    ensures front { OnErr result ((n : ℕ)
        × Says (sent W.contents outbox.old output.old) (sent W.contents outbox.new output.new) (take n reply.now)) }
    ensures cause { OnErr result (output.new.failures ≡ 1) }
{
    match outbox.say(output, reply) {
        Ok(()) => Ok(()),
        Err(_) => Err(RunFault::Write),
    }
}

/// Declares the table, and writes the reply. A declaration over its limit is refused as it is read, without memory.
fn declare<W: Write>(
    outbox: &mut Outbox,
    output: &mut Counted<W>,
    session: &mut Session,
    bytes: &[u8],
) -> Result<(), RunFault>
    requires { IsSoundWriter output.old }
    ensures ok { OnOk result ((h : List Step) → is_declared h ≡ false → Stands session.old h
        → Answered session.new h (Declare bytes.now) (sent W.contents outbox.old output.old) (sent W.contents outbox.new output.new)) }
    ensures answered { OnOk result (outbox.new.is_answered ≡ true) }
    ensures sound { OnOk result (IsSoundWriter output.new) }
    ensures part { IfErr result (λ fault. (h : List Step) → length bytes.now ≤ longest_text → is_declared h ≡ false
        → Stands session.old h → Unanswered fault h (Declare bytes.now) (sent W.contents outbox.old output.old)
        (sent W.contents outbox.new output.new)) }
    ensures cause { IfErr result (λ e. HasWriteCause e output.new) }
{
    let Ok(text) = session.declare(bytes) else {
        return Err(RunFault::NoMemory);
    };
    if let Err(fault) = send(outbox, output, text.as_slice()) {
        return Err(fault);
    }
    Ok(())
}

/// Speaks to a node, and writes the reply.
fn speak<W: Write>(
    outbox: &mut Outbox,
    output: &mut Counted<W>,
    session: &mut Session,
    node: NodeNumber,
    order: &Order,
) -> Result<(), RunFault>
    requires output { IsSoundWriter output.old }
    requires declared { is_some session.old.cluster ≡ true }
    ensures ok { OnOk result ((h : List Step) (c : Spelled) → IsOrderAt node order.now c → Stands session.old h
        → Answered session.new h c (sent W.contents outbox.old output.old) (sent W.contents outbox.new output.new)) }
    ensures answered { OnOk result (outbox.new.is_answered ≡ true) }
    ensures sound { OnOk result (IsSoundWriter output.new) }
    ensures part { IfErr result (λ fault. (h : List Step) (c : Spelled) → IsOrderAt node order.now c → Stands session.old h
        → Unanswered fault h c (sent W.contents outbox.old output.old) (sent W.contents outbox.new output.new)) }
    ensures cause { IfErr result (λ e. HasWriteCause e output.new) }
{
    let text = session.reply(node, order);
    if let Err(fault) = send(outbox, output, text.as_slice()) {
        return Err(fault);
    }
    Ok(())
}

/// Feeds a node, and writes the reply.
fn feed<W: Write>(
    outbox: &mut Outbox,
    output: &mut Counted<W>,
    session: &mut Session,
    node: NodeNumber,
    piece: &[u8],
) -> Result<(), RunFault>
    requires output { IsSoundWriter output.old }
    requires declared { is_some session.old.cluster ≡ true }
    ensures ok { OnOk result ((h : List Step) (c : Spelled) → IsFeedOf node piece.now c → Stands session.old h
        → Answered session.new h c (sent W.contents outbox.old output.old) (sent W.contents outbox.new output.new)) }
    ensures answered { OnOk result (outbox.new.is_answered ≡ true) }
    ensures sound { OnOk result (IsSoundWriter output.new) }
    ensures part { IfErr result (λ fault. (h : List Step) (c : Spelled) → IsFeedOf node piece.now c → Stands session.old h
        → Unanswered fault h c (sent W.contents outbox.old output.old) (sent W.contents outbox.new output.new)) }
    ensures cause { IfErr result (λ e. HasWriteCause e output.new) }
{
    if let Err(fault) = session.feed(outbox, output, node, piece) {
        return Err(fault);
    }
    Ok(())
}

/// Writes the refusal of a command whose form alone refuses it.
fn turn_down<W: Write>(
    outbox: &mut Outbox,
    output: &mut Counted<W>,
    refusal: Refusal,
) -> Result<(), RunFault>
    requires { IsSoundWriter output.old }
    ensures ok { OnOk result ((session : Session) (h : List Step) (c : Spelled) → IsRefusedAs refusal c
        → IsAllowed (is_declared h) c → Stands session h → Answered session h c (sent W.contents outbox.old output.old)
        (sent W.contents outbox.new output.new)) }
    ensures answered { OnOk result (outbox.new.is_answered ≡ true) }
    ensures sound { OnOk result (IsSoundWriter output.new) }
    ensures part { IfErr result (λ fault. (session : Session) (h : List Step) (c : Spelled) → IsRefusedAs refusal c
        → IsAllowed (is_declared h) c → Stands session h → Unanswered fault h c (sent W.contents outbox.old output.old)
        (sent W.contents outbox.new output.new)) }
    ensures cause { IfErr result (λ e. HasWriteCause e output.new) }
{
    if let Err(fault) = send(outbox, output, refuse(refusal)) {
        return Err(fault);
    }
    Ok(())
}

/// Answers a command, and writes the reply.
fn answer_command<W: Write>(
    outbox: &mut Outbox,
    output: &mut Counted<W>,
    session: &mut Session,
    command: &Command,
) -> Result<(), RunFault>
    requires output { IsSoundWriter output.old }
    requires suits { MayStand session.old command.now }
    ensures ok { OnOk result ((h : List Step) (c : Spelled) → IsCommandOf command.now c → IsAllowed (is_declared h) c
        → Stands session.old h → Answered session.new h c (sent W.contents outbox.old output.old) (sent W.contents outbox.new output.new)) }
    ensures answered { OnOk result (outbox.new.is_answered ≡ true) }
    ensures sound { OnOk result (IsSoundWriter output.new) }
    ensures part { IfErr result (λ fault. (h : List Step) (c : Spelled) → IsCommandOf command.now c
        → IsAllowed (is_declared h) c → Stands session.old h → Unanswered fault h c (sent W.contents outbox.old output.old)
        (sent W.contents outbox.new output.new)) }
    ensures cause { IfErr result (λ e. HasWriteCause e output.new) }
{
    match command {
        Command::Declare(bytes) => declare(outbox, output, session, bytes),
        Command::Refused(refusal) => turn_down(outbox, output, *refusal),
        Command::At(node, order) => speak(outbox, output, session, *node, order),
        Command::Feed(node, piece) => feed(outbox, output, session, *node, piece),
    }
}

/// Reads the next command, or fails as a run does. The command before it is answered.
#[tactic(auto, using(crate::proofs::Stepping::read_fails, crate::proofs::Stepping::write_fails))]
fn next_request<R: Read, W: Write>(
    alloc: Global,
    source: &mut BlockReader,
    input: &mut Counted<R>,
    outbox: &mut Outbox,
    output: &mut Counted<W>,
    declared: bool,
) -> Result<Request, RunFault>
    requires input { IsSound input.old }
    requires output { IsSoundWriter output.old }
    requires answered { outbox.old.is_answered ≡ true }
    ensures says { Says (sent W.contents outbox.old output.old) (sent W.contents outbox.new output.new) [] }
    ensures ready { OnOk result (IsReady source.new input.new output.new) }
    ensures reads { IfOk result (λ request. RequestReads request declared (left R.remaining source.old.held input.old)
        (left R.remaining source.new.held input.new)) }
    ensures falls { IfOk result (λ request. GoesOn request → budget source.new.held input.new < budget source.old.held input.old) }
    ensures fails { IfErr result (λ fault. (h : List Step) → StepFails fault h (left R.remaining source.old.held input.old)
        (sent W.contents outbox.old output.old) (sent W.contents outbox.new output.new)) }
    ensures cause { IfErr result (λ e. HasStepCause e input.new outbox.new output.new) }
{
    match read_command(alloc, source, input, outbox, output, declared) {
        Ok(request) => Ok(request),
        Err(ReadFault::Reader) => Err(RunFault::Read),
        Err(ReadFault::Writer) => Err(RunFault::Write),
    }
}

/// Reads the next command, answers it, and says the reply. Nothing is read that the command does not need.
fn step<R: Read, W: Write>(
    alloc: Global,
    source: &mut BlockReader,
    input: &mut Counted<R>,
    outbox: &mut Outbox,
    output: &mut Counted<W>,
    session: &mut Session,
) -> Result<Option<End>, RunFault>
    requires input { IsSound input.old }
    requires output { IsSoundWriter output.old }
    requires answered { outbox.old.is_answered ≡ true }
    ensures leads { IfOk result (λ end. (h : List Step) → Stands session.old h
        → StepLeads end session.new h (left R.remaining source.old.held input.old)
        (left R.remaining source.new.held input.new) (sent W.contents outbox.old output.old) (sent W.contents outbox.new output.new)) }
    ensures answered { IfOk result (λ end. IsNone end → outbox.new.is_answered ≡ true) }
    ensures ready { OnOk result (IsReady source.new input.new output.new) }
    ensures falls { IfOk result (λ end. IsNone end → budget source.new.held input.new < budget source.old.held input.old) }
    ensures fails { IfErr result (λ fault. (h : List Step) → Stands session.old h
        → StepFails fault h (left R.remaining source.old.held input.old) (sent W.contents outbox.old output.old)
        (sent W.contents outbox.new output.new)) }
    ensures cause { IfErr result (λ e. HasStepCause e input.new outbox.new output.new) }
{
    let declared = session.is_declared();
    let request = match next_request(alloc, source, input, outbox, output, declared) {
        Ok(request) => request,
        Err(fault) => return Err(fault),
    };
    match request {
        Request::Closed => Ok(Some(End::Done)),
        Request::Malformed => {
            send(outbox, output, b"bad script\n")?;
            Ok(Some(End::Bad))
        }
        Request::NoRoom => Err(RunFault::NoMemory),
        Request::NoMemory => {
            send(outbox, output, b"no memory\n")?;
            Ok(None)
        }
        Request::Whole(command) => {
            answer_command(outbox, output, session, &command)?;
            Ok(None)
        }
    }
}

/// Reads the commands of a script, and says a reply to each.
fn answer_all<R: Read, W: Write>(
    alloc: Global,
    source: &mut BlockReader,
    input: &mut Counted<R>,
    outbox: &mut Outbox,
    output: &mut Counted<W>,
) -> Result<End, RunFault>
    requires input { IsSound input.old }
    requires output { IsSoundWriter output.old }
    requires answered { outbox.old.is_answered ≡ true }
    ensures replies { IfOk result (λ end. IfSome (left R.remaining source.old.held input.old) (λ bytes.
        (written : List ℕ) × Says (sent W.contents outbox.old output.old) (sent W.contents outbox.new output.new) written
        × Replies end bytes written)) }
    ensures begun { IfErr result (λ fault. IfSome (left R.remaining source.old.held input.old) (λ bytes.
        (written : List ℕ) × Says (sent W.contents outbox.old output.old) (sent W.contents outbox.new output.new) written
        × RepliesBegun fault input.new.reads bytes written)) }
    ensures sound { OnOk result (IsSound input.new × IsSoundWriter output.new) }
    ensures cause { IfErr result (λ fault. HasStepCause fault input.new outbox.new output.new) }
{
    let mut session = Session::new(alloc);
    'commands: loop {
        match step(alloc, source, input, outbox, output, &mut session) {
            Ok(None) => {}
            Ok(Some(end)) => return Ok(end),
            Err(fault) => return Err(fault),
        }
    }
}

/// Writes what waits, or fails as a run does.
fn write_rest<W: Write>(outbox: &mut Outbox, output: &mut Counted<W>) -> Result<(), RunFault>
    requires { IsSoundWriter output.old }
    ensures says { Says (sent W.contents outbox.old output.old) (sent W.contents outbox.new output.new) [] }
    ensures ok { OnOk result (outbox.new.bytes ≡ []) }
    ensures sound { OnOk result (IsSoundWriter output.new) }
    ensures fault { IfErr result (λ e. e ≡ RunFault.Write) }
    ensures cause { OnErr result (output.new.failures ≡ 1) }
{
    if outbox.flush(output).is_err() {
        return Err(RunFault::Write);
    }
    Ok(())
}

/// Runs a script: reads its commands, and writes a reply to each.
pub fn run<R: Read, W: Write>(
    alloc: Global,
    input: &mut Counted<R>,
    output: &mut Counted<W>,
) -> Result<End, RunFault>
    requires input { IsNew input.old }
    requires output { IsNew output.old }
    // The output is the replies to the input.
    ensures replies { IfOk result (λ end. IfSome (R.remaining input.old.inner) (λ bytes.
        (written : List ℕ) × Appends (W.contents output.old.inner) (W.contents output.new.inner) written × Replies end bytes written)) }
    // At a fault it is a beginning of them.
    ensures begun { IfErr result (λ fault. IfSome (R.remaining input.old.inner) (λ bytes.
        (written : List ℕ) × Appends (W.contents output.old.inner) (W.contents output.new.inner) written
        × RepliesBegun fault input.new.reads bytes written)) }
    // A run that ends has seen no failure.
    ensures sound { OnOk result (IsSound input.new × IsSoundWriter output.new) }
    // A read fault comes only where a read failed or the reads are used up, a write fault only where a write failed,
    // and nothing else has failed.
    ensures cause { IfErr result (λ fault. HasCause fault input.new output.new) }
{
    let Ok(mut source) = BlockReader::new(alloc) else {
        return Err(RunFault::NoMemory);
    };
    let Ok(mut outbox) = Outbox::new(alloc) else {
        return Err(RunFault::NoMemory);
    };
    match answer_all(alloc, &mut source, input, &mut outbox, output) {
        Ok(end) => {
            write_rest(&mut outbox, output)?;
            Ok(end)
        }
        Err(RunFault::NoMemory) => {
            write_rest(&mut outbox, output)?;
            Err(RunFault::NoMemory)
        }
        // What waited was written before the reader failed, and cannot be after the writer did.
        Err(RunFault::Read) => Err(RunFault::Read),
        Err(RunFault::Write) => Err(RunFault::Write),
    }
}
