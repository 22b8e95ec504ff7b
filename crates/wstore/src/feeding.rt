//! Handles the messages of a node's delivery stream, and writes what they are told.
ghost use Rattle.std.specs.Prelude.{◌≡◌, ◌++◌, ℕ, [], ◌∷◌, take, decimal, true, false, IfErr, OnOk, OnErr};
ghost use Rattle.wlines.specs.Pending.{IsSoundWriter};
ghost use Rattle.wlines.specs.Sent.{Says, sent};
ghost use Rattle.wreplies.specs.Texts.{bytes_of};
ghost use Rattle.wstore.specs.Replies.{fed_text};
ghost use Rattle.wstore.specs.Feeding.{Feeds, FeedsPart, IsTextOf, SendsAll, SendsPart};

use crate::node::{Node, Reply};
use crate::script_run::{RunFault, send};
use itoa::Buffer;
use std::alloc::Global;
use std::io::Write;
use wlines::Outbox;
use wreplies::{Text, refused_segment, retired, taken};
use wstream::PushFault;
use wvalues::Counted;

// What a message was told, as it is spelled. A refusal with the number of a row that finds no memory is told as a message that found
// none; any other needs none.
fn reply_text(alloc: Global, reply: Reply) -> Text
    ensures { IsTextOf reply (bytes_of result) }
{
    match reply {
        Reply::Taken(word) => Text::Fixed(taken(word)),
        Reply::Retired(word) => Text::Fixed(retired(word)),
        Reply::Refused(fault) => match refused_segment(alloc, fault) {
            Ok(text) => text,
            Err(_) => Text::Fixed(b"no memory\n"),
        },
        Reply::NoMemory => Text::Fixed(b"no memory\n"),
    }
}

// Writes the digits of a number.
fn send_digits<W: Write>(
    outbox: &mut Outbox,
    output: &mut Counted<W>,
    number: usize,
) -> Result<(), RunFault>
    requires { IsSoundWriter output.old }
    ensures ok { OnOk result (Says (sent W.contents outbox.old output.old) (sent W.contents outbox.new output.new) (decimal number)) }
    ensures answered { OnOk result (outbox.new.is_answered ≡ true) }
    ensures sound { OnOk result (IsSoundWriter output.new) }
    ensures fault { IfErr result (λ e. e ≡ RunFault.Write) }
    ensures front { OnErr result ((n : ℕ)
        × Says (sent W.contents outbox.old output.old) (sent W.contents outbox.new output.new) (take n (decimal number))) }
    ensures cause { OnErr result (output.new.failures ≡ 1) }
{
    let mut buffer = Buffer::new();
    send(outbox, output, buffer.format(number).as_bytes())
}

// Writes a number and a line feed.
fn send_number<W: Write>(
    outbox: &mut Outbox,
    output: &mut Counted<W>,
    number: usize,
) -> Result<(), RunFault>
    requires { IsSoundWriter output.old }
    ensures ok { OnOk result (Says (sent W.contents outbox.old output.old) (sent W.contents outbox.new output.new)
        (decimal number ++ 10 ∷ [])) }
    ensures answered { OnOk result (outbox.new.is_answered ≡ true) }
    ensures sound { OnOk result (IsSoundWriter output.new) }
    ensures fault { IfErr result (λ e. e ≡ RunFault.Write) }
    ensures front { OnErr result ((n : ℕ)
        × Says (sent W.contents outbox.old output.old) (sent W.contents outbox.new output.new) (take n (decimal number ++ 10 ∷ []))) }
    ensures cause { OnErr result (output.new.failures ≡ 1) }
{
    if let Err(fault) = send_digits(outbox, output, number) {
        return Err(fault);
    }
    send(outbox, output, b"\n")
}

// Writes the last line of a piece whose stream is good.
fn send_fed<W: Write>(
    outbox: &mut Outbox,
    output: &mut Counted<W>,
    count: usize,
) -> Result<(), RunFault>
    requires { IsSoundWriter output.old }
    ensures ok { OnOk result (Says (sent W.contents outbox.old output.old) (sent W.contents outbox.new output.new) (fed_text count false)) }
    ensures answered { OnOk result (outbox.new.is_answered ≡ true) }
    ensures sound { OnOk result (IsSoundWriter output.new) }
    ensures fault { IfErr result (λ e. e ≡ RunFault.Write) }
    ensures front { OnErr result ((n : ℕ)
        × Says (sent W.contents outbox.old output.old) (sent W.contents outbox.new output.new) (take n (fed_text count false))) }
    ensures cause { OnErr result (output.new.failures ≡ 1) }
{
    if let Err(fault) = send(outbox, output, b"fed ") {
        return Err(fault);
    }
    send_number(outbox, output, count)
}

// Handles the messages that are whole, and writes what each is told, and then their number, or that the stream is bad.
fn tell_messages<W: Write>(
    alloc: Global,
    outbox: &mut Outbox,
    output: &mut Counted<W>,
    node: &mut Node,
) -> Result<(), RunFault>
    requires output { IsSoundWriter output.old }
    requires good { node.old.is_bad ≡ false }
    ensures ok { OnOk result (SendsAll node.old node.new (sent W.contents outbox.old output.old) (sent W.contents outbox.new output.new)) }
    ensures answered { OnOk result (outbox.new.is_answered ≡ true) }
    ensures sound { OnOk result (IsSoundWriter output.new) }
    ensures part { OnErr result (SendsPart node.old (sent W.contents outbox.old output.old) (sent W.contents outbox.new output.new)) }
    ensures fault { IfErr result (λ e. e ≡ RunFault.Write) }
    ensures cause { OnErr result (output.new.failures ≡ 1) }
{
    let _most = node.pending();
    let mut count: usize = 0;
    'messages: loop {
        let reply = match node.next_reply() {
            Ok(Some(reply)) => reply,
            Ok(None) => return send_fed(outbox, output, count),
            Err(_) => return send(outbox, output, b"refused B1\n"),
        };
        let text = reply_text(alloc, reply);
        if let Err(fault) = send(outbox, output, text.as_slice()) {
            return Err(fault);
        }
        count += 1;
    }
}

/// Feeds a node a piece of its delivery stream, and writes what its messages are told.
pub(crate) fn feed_node<W: Write>(
    alloc: Global,
    outbox: &mut Outbox,
    output: &mut Counted<W>,
    node: &mut Node,
    piece: &[u8],
) -> Result<(), RunFault>
    requires { IsSoundWriter output.old }
    ensures ok { OnOk result (Feeds node.old piece.now node.new (sent W.contents outbox.old output.old)
        (sent W.contents outbox.new output.new)) }
    ensures answered { OnOk result (outbox.new.is_answered ≡ true) }
    ensures sound { OnOk result (IsSoundWriter output.new) }
    ensures part { OnErr result (FeedsPart node.old piece.now (sent W.contents outbox.old output.old)
        (sent W.contents outbox.new output.new)) }
    ensures fault { IfErr result (λ e. e ≡ RunFault.Write) }
    ensures cause { OnErr result (output.new.failures ≡ 1) }
{
    match node.feed(piece) {
        Ok(()) => tell_messages(alloc, outbox, output, node),
        Err(PushFault::Bad) => send(outbox, output, b"refused B1\n"),
        Err(PushFault::NoMemory) => send(outbox, output, b"no memory\n"),
    }
}
