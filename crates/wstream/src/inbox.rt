//! Keeps what has come of a delivery stream.
ghost use Rattle.std.specs.Prelude.{◌≡◌, ◌<◌, ◌≤◌, ◌-◌, ◌⊎◌, [], ◌++◌, true, false, Some, None, Err, IsOk, OnOk, OnErr, drop, length};
ghost use Rattle.std.specs.Prelude.{vec_len};
ghost use Rattle.std.specs.Borrow.{sem};
ghost use Rattle.std.specs.Io.BufRead.{Rests};
ghost use Rattle.wstream.specs.contracts.inbox.Inbox.{the_row};
ghost use Rattle.wstream.specs.Inboxes.{HasBody, IsHanded, LendsOut, MovesOn, Steps};

use crate::found::{Found, first_of};
use crate::message::{BadStream, Message, PushFault};
use std::alloc::Global;
use std::marker::Model;
use wvalues::Name;

/// The bytes of a delivery stream that were not handed out, and whether the stream was found bad. Contracts see it
/// as these two, and what was handed out last, which is lent from it.
///
/// Handing out a message moves nothing. The bytes that were handed out are let go at a later push, once they are
/// at least as many as those that are held, so a byte is moved once for each that was pushed, at most.
#[derive(Drop)]
pub struct Inbox {
    bytes: Vec<u8>,
    start: usize,
    is_bad: bool,
    step: Step,
}

impl Model for Inbox {
    ghost use Rattle.std.specs.Prelude.{◌≤◌, drop, vec_len};
    ghost use Rattle.wstream.specs.Inboxes.{Inbox as Held, HasBody, handed_of};

    ghost Value = { Held };

    ghost view = { λ i. record { held = drop i.start i.bytes.items; is_bad = i.is_bad; handed = handed_of i.bytes.items i.step } };

    ghost invariant = { λ i. (i.start ≤ vec_len i.bytes) × HasBody i.bytes.items i.step };
}

// Lets the bytes before a place go, where they are at least as many as those behind it. It answers the place where
// the others begin.
fn let_go(bytes: &mut Vec<u8>, start: usize) -> usize
    requires { start ≤ vec_len bytes.old }
    ensures within { result ≤ vec_len bytes.new }
    ensures held { drop result bytes.new.items ≡ drop start bytes.old.items }
    ensures half { (result ≡ 0) ⊎ (result < vec_len bytes.new - result) }
    ensures lazy { start < vec_len bytes.old - start → (result ≡ start) × (bytes.new ≡ bytes.old) }
{
    let held = bytes.len() - start;
    if start < held {
        return start;
    }
    bytes.copy_within(start.., 0);
    bytes.truncate(held);
    0
}

/// What handing out the next message comes to, by the places of its body.
#[derive(Clone, Copy)]
enum Step {
    Bad,
    Open,
    Take(Name, usize, usize),
    Retire(Name),
    RetireTo(Name),
}

// Moves the start behind the message that stands first, if it is whole.
fn advance(bytes: &[u8], start: &mut usize, is_bad: &mut bool) -> Step
    requires { start.old ≤ length bytes.now }
    ensures within { start.new ≤ length bytes.now }
    ensures steps { Steps bytes.now start.old is_bad.old start.new is_bad.new result }
{
    if *is_bad {
        return Step::Bad;
    }
    let held = &bytes[*start..];
    match first_of(held) {
        Found::Open => Step::Open,
        Found::Bad => {
            *is_bad = true;
            Step::Bad
        }
        Found::Retire(name, taken) => {
            *start += taken;
            Step::Retire(name)
        }
        Found::RetireTo(name, taken) => {
            *start += taken;
            Step::RetireTo(name)
        }
        Found::Take(name, len, taken) => {
            let end = *start + taken - 1;
            *start += taken;
            Step::Take(name, end - len, end)
        }
    }
}

// The message of a step.
fn lend<'a>(bytes: &'a [u8], step: &'a Step) -> Result<Option<Message<'a>>, BadStream>
    requires { HasBody bytes.now step.now }
    ensures { LendsOut bytes.now step.now result }
{
    match step {
        Step::Bad => Err(BadStream),
        Step::Open => Ok(None),
        Step::Retire(name) => Ok(Some(Message::Retire(name))),
        Step::RetireTo(name) => Ok(Some(Message::RetireTo(name))),
        Step::Take(name, from, to) => Ok(Some(Message::Take(name, &bytes[*from..*to]))),
    }
}

impl Inbox {
    /// An inbox that holds nothing. It takes no memory.
    pub fn new(alloc: Global) -> Inbox
        ensures { result ≡ record { held = []; is_bad = false; handed = Some None } }
    {
        Inbox {
            bytes: Vec::new(alloc),
            start: 0,
            is_bad: false,
            step: Step::Open,
        }
    }

    /// Adds a piece of the stream at the end. Where the stream was found bad, the inbox stays as it is; where memory runs out, what
    /// it holds does. Else nothing was handed out since. An empty piece needs no memory.
    pub fn push(&mut self, piece: &[u8]) -> Result<(), PushFault>
        ensures ok { OnOk result (self.new.held ≡ self.old.held ++ piece.now) }
        ensures good { OnOk result (self.old.is_bad ≡ false) }
        ensures is_bad { self.new.is_bad ≡ self.old.is_bad }
        ensures bad { result ≡ Err PushFault.Bad → self.old.is_bad ≡ true }
        ensures stays_bad { self.old.is_bad ≡ true → result ≡ Err PushFault.Bad }
        ensures err { OnErr result (self.new.held ≡ self.old.held) }
        ensures kept { self.old.is_bad ≡ true → self.new ≡ self.old }
        ensures handed { self.old.is_bad ≡ false → self.new.handed ≡ Some None }
        ensures needless { self.old.is_bad ≡ false → piece.now ≡ [] → IsOk result }
    {
        if self.is_bad {
            return Err(PushFault::Bad);
        }
        self.step = Step::Open;
        self.start = let_go(&mut self.bytes, self.start);
        let Ok(()) = self.bytes.extend_from_slice(piece) else {
            return Err(PushFault::NoMemory);
        };
        Ok(())
    }

    /// How many bytes are held.
    pub fn pending(&self) -> usize
        ensures { result ≡ length self.now.held }
    {
        self.bytes.len() - self.start
    }

    // Moves on behind the message that stands first.
    fn move_on(&mut self)
        ensures { MovesOn self.old self.new }
    {
        self.step = advance(&self.bytes, &mut self.start, &mut self.is_bad);
    }

    /// The bytes that are held, as many as `pending` says.
    pub fn rest(&self) -> &[u8]
        ensures { result.now ≡ self.now.held }
    {
        &self.bytes[self.start..]
    }

    /// What was handed out last, once more. Nothing was since a push.
    pub fn handed(&self) -> Result<Option<Message<'_>>, BadStream>
        ensures { IsHanded self.now.handed result }
    {
        lend(&self.bytes, &self.step)
    }

    /// Hands out the message that stands first, if it is whole, and takes it off the stream. Where no message can
    /// stand there the stream is bad, and stays so. It takes no memory, and moves no byte.
    pub fn next(&mut self) -> Result<Option<Message<'_>>, BadStream>
        ensures* rests { sem 𝓛 (Rests the_row self.entry (λ new. MovesOn self.old new × IsHanded new.handed result)) }
    {
        self.move_on();
        self.handed()
    }
}
