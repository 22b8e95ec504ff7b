//! Reads an input to its end, and answers each of its queries as soon as it is whole.
ghost use Rattle.std.specs.Prelude.{◌≡◌, ◌+◌, ◌-◌, ◌<◌, ◌≤◌, ◌∷◌, ℕ, List, [], length, take, IfErr, IfOk, IfSome, MatchBool, OnErr, OnOk};
ghost use Rattle.std.specs.Io.KnownBytes.{Appends, Consumes, IsAtEnd, Keeps};
ghost use Rattle.wlines.specs.Pending.{IsNew, IsSound, IsSoundWriter, ReadFailed, most_reads};
ghost use Rattle.wshell.specs.Splitting.{EndsAt};
ghost use Rattle.wshell.specs.Pending.{IsPending};
ghost use Rattle.wshell.specs.Replying.{HasReplyCause, RepliesOne, RepliesPart};
ghost use Rattle.wshell.specs.Runs.{GivesUp, GoesOn, HasCause, KeepsUp, Replies, RepliesBegun, StandsAfter, StandsBehind, TakesFront};

use crate::fault::ShellFault;
use crate::pending::Pending;
use crate::replying::{Replied, reply_to};
use std::alloc::Global;
use std::io::{Read, Write};
use wstore::Node;
use wvalues::Counted;

/// How many bytes a read may give.
const BLOCK: usize = 65_536;

/// How many reads a run may make.
const MOST_READS: u64 = 1 << 40;

// Whether a byte behind the text is the semicolon that ends the query.
fn ends(pending: &Pending, byte: u8) -> bool
    ensures { MatchBool result (EndsAt pending.now.mode byte) (¬ (EndsAt pending.now.mode byte)) }
{
    byte == b';' && pending.may_end()
}

// Answers the query that has ended, and begins the next one.
fn end_query<W: Write>(
    alloc: Global,
    node: &mut Node,
    output: &mut Counted<W>,
    replied: &mut Replied,
    pending: &mut Pending,
) -> Result<(), ShellFault>
    requires { IsSoundWriter output.old }
    ensures same { node.new ≡ node.old }
    ensures ok { OnOk result (RepliesOne node.old.schema node.old.view pending.old.text (W.contents output.old.inner)
        (W.contents output.new.inner) replied.old replied.new) }
    ensures empty { OnOk result (IsPending pending.new []) }
    ensures sound { OnOk result (IsSoundWriter output.new) }
    ensures part { IfErr result (RepliesPart node.old.schema node.old.view pending.old.text (W.contents output.old.inner)
        (W.contents output.new.inner) replied.old) }
    ensures cause { IfErr result (λ fault. HasReplyCause fault output.new) }
{
    if let Err(fault) = reply_to(alloc, node, output, replied, pending.as_slice()) {
        return Err(fault);
    }
    pending.clear();
    Ok(())
}

// Takes the next byte of the input: it ends the query, which is answered then, or belongs to it.
fn take_byte<W: Write>(
    alloc: Global,
    node: &mut Node,
    output: &mut Counted<W>,
    replied: &mut Replied,
    pending: &mut Pending,
    byte: u8,
) -> Result<(), ShellFault>
    requires { IsSoundWriter output.old }
    ensures same { node.new ≡ node.old }
    ensures ok { OnOk result (GoesOn node.old.schema node.old.view (byte ∷ []) (W.contents output.old.inner)
        (W.contents output.new.inner) pending.old pending.new replied.old replied.new) }
    ensures sound { OnOk result (IsSoundWriter output.new) }
    ensures part { IfErr result (GivesUp node.old.schema node.old.view (byte ∷ []) (W.contents output.old.inner)
        (W.contents output.new.inner) pending.old replied.old) }
    ensures cause { IfErr result (λ fault. HasReplyCause fault output.new) }
{
    if ends(pending, byte) {
        return end_query(alloc, node, output, replied, pending);
    }
    pending.add(byte);
    Ok(())
}

// Takes the next bytes of the input.
fn take_block<W: Write>(
    alloc: Global,
    node: &mut Node,
    output: &mut Counted<W>,
    replied: &mut Replied,
    pending: &mut Pending,
    block: &[u8],
) -> Result<(), ShellFault>
    requires { IsSoundWriter output.old }
    ensures same { node.new ≡ node.old }
    ensures ok { OnOk result (GoesOn node.old.schema node.old.view block.now (W.contents output.old.inner)
        (W.contents output.new.inner) pending.old pending.new replied.old replied.new) }
    ensures sound { OnOk result (IsSoundWriter output.new) }
    ensures part { IfErr result (GivesUp node.old.schema node.old.view block.now (W.contents output.old.inner)
        (W.contents output.new.inner) pending.old replied.old) }
    ensures cause { IfErr result (λ fault. HasReplyCause fault output.new) }
{
    'bytes: for byte in block {
        match take_byte(alloc, node, output, replied, pending, *byte) {
            Ok(()) => {}
            Err(fault) => return Err(fault),
        }
    }
    Ok(())
}

// Reads the next bytes of the input. It answers how many there are, and none at its end.
fn read_block<R: Read>(input: &mut Counted<R>, block: &mut [u8]) -> Result<usize, ShellFault>
    requires sound { IsSound input.old }
    requires room { 0 < length block.old }
    ensures bytes { IfOk result (λ count. Consumes (R.remaining input.old.inner) (R.remaining input.new.inner)
        (take count block.new) × (count ≤ length block.new)) }
    ensures end { IfOk result (λ count. count ≡ 0 → IsAtEnd (R.remaining input.new.inner)) }
    ensures sound { OnOk result (IsSound input.new) }
    ensures once { OnOk result (input.new.reads ≡ input.old.reads + 1) }
    ensures falls { OnOk result (most_reads - input.new.reads < most_reads - input.old.reads) }
    ensures kept { OnErr result (Keeps (R.remaining input.old.inner) (R.remaining input.new.inner)) }
    ensures fault { IfErr result (λ fault. fault ≡ ShellFault.Read) }
    ensures cause { OnErr result (ReadFailed input.new) }
{
    if input.reads() >= MOST_READS {
        return Err(ShellFault::Read);
    }
    match input.read(block) {
        Ok(count) => Ok(count),
        Err(_) => Err(ShellFault::Read),
    }
}

// Reads the input to its end, and answers each query that is whole.
fn take_all<R: Read, W: Write>(
    alloc: Global,
    node: &mut Node,
    input: &mut Counted<R>,
    output: &mut Counted<W>,
    replied: &mut Replied,
    pending: &mut Pending,
) -> Result<(), ShellFault>
    requires input { IsSound input.old }
    requires output { IsSoundWriter output.old }
    requires stands { StandsBehind node.old.schema node.old.view (W.contents output.old.inner) []
        (W.contents output.old.inner) pending.old replied.old }
    ensures same { node.new ≡ node.old }
    ensures ok { OnOk result (StandsAfter node.old.schema node.old.view (R.remaining input.old.inner)
        (R.remaining input.new.inner) (W.contents output.old.inner) (W.contents output.new.inner) pending.new replied.new) }
    ensures end { OnOk result (IsAtEnd (R.remaining input.new.inner)) }
    ensures sound { OnOk result (IsSound input.new × IsSoundWriter output.new) }
    ensures part { IfErr result (TakesFront node.old.schema node.old.view (R.remaining input.old.inner)
        (W.contents output.old.inner) (W.contents output.new.inner)) }
    ensures read { IfErr result (λ fault. fault ≡ ShellFault.Read
        → KeepsUp node.old.schema node.old.view (R.remaining input.old.inner) (R.remaining input.new.inner)
        (W.contents output.old.inner) (W.contents output.new.inner)) }
    ensures cause { IfErr result (λ fault. HasCause fault input.new output.new) }
{
    let mut block = [0u8; BLOCK];
    'reads: loop {
        let count = match read_block(input, &mut block) {
            Ok(count) => count,
            Err(fault) => return Err(fault),
        };
        if count == 0 {
            return Ok(());
        }
        if let Err(fault) = take_block(alloc, node, output, replied, pending, &block[..count]) {
            return Err(fault);
        }
    }
}

/// Reads queries from an input, and writes the reply to each. It answers whether one of them was refused.
pub fn run<R: Read, W: Write>(
    alloc: Global,
    node: &mut Node,
    input: &mut Counted<R>,
    output: &mut Counted<W>,
) -> Result<bool, ShellFault>
    requires input { IsNew input.old }
    requires output { IsNew output.old }
    // What the node knows stays as it is.
    ensures same { node.new ≡ node.old }
    // The output is the replies to the queries of the input.
    ensures replies { IfOk result (λ is_refused. IfSome (R.remaining input.old.inner) (λ bytes.
        (written : List ℕ) × Appends (W.contents output.old.inner) (W.contents output.new.inner) written
        × Replies node.old.schema node.old.view bytes written is_refused)) }
    // At a fault it is a beginning of them, in which a reply is cut where writing failed alone.
    ensures begun { IfErr result (λ fault. IfSome (R.remaining input.old.inner) (λ bytes.
        (written : List ℕ) × Appends (W.contents output.old.inner) (W.contents output.new.inner) written
        × RepliesBegun node.old.schema node.old.view fault bytes written)) }
    // Where a read fails, each query that ended in what was read before was answered, and its reply written.
    ensures prompt { IfErr result (λ fault. fault ≡ ShellFault.Read
        → KeepsUp node.old.schema node.old.view (R.remaining input.old.inner) (R.remaining input.new.inner)
        (W.contents output.old.inner) (W.contents output.new.inner)) }
    // A run that ends has seen no failure, and a fault has its cause.
    ensures sound { OnOk result (IsSound input.new × IsSoundWriter output.new) }
    ensures cause { IfErr result (λ fault. HasCause fault input.new output.new) }
{
    let Ok(mut pending) = Pending::new(alloc) else {
        return Err(ShellFault::NoMemory);
    };
    let mut replied = Replied {
        is_any: false,
        is_refused: false,
    };
    if let Err(fault) = take_all(alloc, node, input, output, &mut replied, &mut pending) {
        return Err(fault);
    }
    match reply_to(alloc, node, output, &mut replied, pending.as_slice()) {
        Ok(()) => Ok(replied.is_refused),
        Err(fault) => Err(fault),
    }
}
