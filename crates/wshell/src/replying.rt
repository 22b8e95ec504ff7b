//! Answers a query, and writes the reply.
ghost use Rattle.std.specs.Prelude.{◌≡◌, ◌↔◌, ◌||◌, ◌∷◌, ℕ, take, true, IfErr, IfOk, IsTrue, OnErr, OnOk};
ghost use Rattle.std.specs.Io.KnownBytes.{Appends};
ghost use Rattle.wlines.specs.Pending.{IsSoundWriter};
ghost use Rattle.wreplies.specs.Texts.{bytes_of};
ghost use Rattle.wshell.specs.Replying.{HasReplyCause, IsBlank, RepliesOne, RepliesPart, reply_behind};

use crate::fault::ShellFault;
use std::alloc::{AllocError, Global};
use std::io::Write;
use wact::{QueryReply, reply};
use wlexer::{LexFault, lex};
use wlines::write_reply;
use wstore::Node;
use wvalues::Counted;

/// Whether a reply was written, and whether one was a refusal.
#[derive(Clone, Copy)]
pub(crate) struct Replied {
    pub(crate) is_any: bool,
    pub(crate) is_refused: bool,
}

// Whether a text holds blanks and comments alone.
fn is_blank(alloc: Global, text: &[u8]) -> Result<bool, AllocError>
    ensures { IfOk result (λ blank. IsTrue blank ↔ IsBlank text.now) }
{
    match lex(alloc, text) {
        Ok(tokens) => Ok(tokens.as_slice().is_empty()),
        Err(LexFault::NoMemory) => Err(AllocError),
        Err(_) => Ok(false),
    }
}

// Writes a text, or fails as a shell does.
fn write_text<W: Write>(output: &mut Counted<W>, text: &[u8]) -> Result<(), ShellFault>
    requires { IsSoundWriter output.old }
    ensures ok { OnOk result (Appends (W.contents output.old.inner) (W.contents output.new.inner) text.now) }
    ensures sound { OnOk result (IsSoundWriter output.new) }
    ensures front { OnErr result ((n : ℕ) × Appends (W.contents output.old.inner) (W.contents output.new.inner) (take n text.now)) }
    ensures failed { OnErr result (output.new.failures ≡ 1) }
    ensures fault { IfErr result (λ e. e ≡ ShellFault.Write) }
{
    match write_reply(output, text) {
        Ok(()) => Ok(()),
        Err(_) => Err(ShellFault::Write),
    }
}

// Writes a text behind an empty line.
fn write_next<W: Write>(output: &mut Counted<W>, text: &[u8]) -> Result<(), ShellFault>
    requires { IsSoundWriter output.old }
    ensures ok { OnOk result (Appends (W.contents output.old.inner) (W.contents output.new.inner) (10 ∷ text.now)) }
    ensures sound { OnOk result (IsSoundWriter output.new) }
    ensures front { OnErr result ((n : ℕ) × Appends (W.contents output.old.inner) (W.contents output.new.inner) (take n (10 ∷ text.now))) }
    ensures failed { OnErr result (output.new.failures ≡ 1) }
    ensures fault { IfErr result (λ e. e ≡ ShellFault.Write) }
{
    if let Err(fault) = write_text(output, b"\n") {
        return Err(fault);
    }
    write_text(output, text)
}

// Writes a reply, behind an empty line where it is not the first.
fn write_behind<W: Write>(
    output: &mut Counted<W>,
    is_any: bool,
    text: &[u8],
) -> Result<(), ShellFault>
    requires { IsSoundWriter output.old }
    ensures ok { OnOk result (Appends (W.contents output.old.inner) (W.contents output.new.inner) (reply_behind is_any text.now)) }
    ensures sound { OnOk result (IsSoundWriter output.new) }
    ensures front { OnErr result ((n : ℕ) × Appends (W.contents output.old.inner) (W.contents output.new.inner)
        (take n (reply_behind is_any text.now))) }
    ensures failed { OnErr result (output.new.failures ≡ 1) }
    ensures fault { IfErr result (λ e. e ≡ ShellFault.Write) }
{
    if is_any {
        return write_next(output, text);
    }
    write_text(output, text)
}

// Writes the reply to a query.
fn write_query_reply<W: Write>(
    output: &mut Counted<W>,
    replied: &mut Replied,
    reply: &QueryReply,
) -> Result<(), ShellFault>
    requires { IsSoundWriter output.old }
    ensures ok { OnOk result (Appends (W.contents output.old.inner) (W.contents output.new.inner)
        (reply_behind replied.old.is_any (bytes_of reply.now.text))
        × (replied.new ≡ record { is_any = true; is_refused = replied.old.is_refused || reply.now.is_refused })) }
    ensures sound { OnOk result (IsSoundWriter output.new) }
    ensures front { OnErr result ((n : ℕ) × Appends (W.contents output.old.inner) (W.contents output.new.inner)
        (take n (reply_behind replied.old.is_any (bytes_of reply.now.text)))) }
    ensures failed { OnErr result (output.new.failures ≡ 1) }
    ensures fault { IfErr result (λ e. e ≡ ShellFault.Write) }
{
    if let Err(fault) = write_behind(output, replied.is_any, reply.text.as_slice()) {
        return Err(fault);
    }
    replied.is_any = true;
    replied.is_refused = replied.is_refused || reply.is_refused;
    Ok(())
}

/// Answers a text and writes the reply, unless it holds blanks and comments alone.
pub(crate) fn reply_to<W: Write>(
    alloc: Global,
    node: &mut Node,
    output: &mut Counted<W>,
    replied: &mut Replied,
    text: &[u8],
) -> Result<(), ShellFault>
    requires { IsSoundWriter output.old }
    ensures same { node.new ≡ node.old }
    ensures ok { OnOk result (RepliesOne node.old.schema node.old.view text.now (W.contents output.old.inner)
        (W.contents output.new.inner) replied.old replied.new) }
    ensures sound { OnOk result (IsSoundWriter output.new) }
    ensures part { IfErr result (RepliesPart node.old.schema node.old.view text.now (W.contents output.old.inner)
        (W.contents output.new.inner) replied.old) }
    ensures cause { IfErr result (λ fault. HasReplyCause fault output.new) }
{
    match is_blank(alloc, text) {
        Ok(false) => {}
        Ok(true) => return Ok(()),
        Err(_) => return Err(ShellFault::NoMemory),
    }
    match reply(alloc, node, text) {
        Ok(reply) => write_query_reply(output, replied, &reply),
        Err(_) => Err(ShellFault::NoMemory),
    }
}
