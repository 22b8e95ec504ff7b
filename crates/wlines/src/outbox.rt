//! Replies that wait to be written.
ghost use Rattle.std.specs.Prelude.{◌≡◌, ◌↔◌, ℕ, [], take, length, true, IsTrue, IfOk, OnOk, OnErr};
ghost use Rattle.wlines.specs.Pending.{IsSoundWriter};

use crate::writing::{WriteFault, write_front, write_reply};
use std::alloc::{AllocError, Global};
use std::io::Write;
use std::marker::Model;
use wvalues::Counted;

/// How many bytes may wait.
const ROOM: usize = 65_536;

/// Replies that are written before the next read, or once they find no room among 65,536 bytes that wait. Contracts
/// see it as these bytes, and whether the line that was read last is answered.
#[derive(Drop)]
pub struct Outbox {
    bytes: Vec<u8>,
    is_answered: bool,
}

impl Model for Outbox {
    ghost use Rattle.std.specs.Prelude.{vec_len, vec_capacity, ◌≤◌};
    ghost use Rattle.wlines.specs.Sent.{Waiting, coded_waiting};

    ghost Value = { Waiting };

    ghost coded = { coded_waiting };

    ghost view = { λ o. record { bytes = o.bytes.items; is_answered = o.is_answered } };

    ghost invariant = { λ o. (vec_len o.bytes ≤ 65536) × (65536 ≤ vec_capacity o.bytes) };
}

impl Outbox {
    ghost use Rattle.std.specs.Prelude.{◌+◌, ◌++◌, ◌<◌, ◌≤◌, false};
    ghost use Rattle.wlines.specs.Sent.{Says, sent, waiting};

    /// Nothing waits, and nothing is to be answered.
    pub fn new(alloc: Global) -> Result<Outbox, AllocError>
        ensures { IfOk result (λ o. o ≡ waiting [] true) }
    {
        let bytes = Vec::with_capacity(alloc, ROOM)?;
        Ok(Outbox {
            bytes,
            is_answered: true,
        })
    }

    /// Whether nothing waits.
    pub(crate) fn is_empty(&self) -> bool
        ensures { IsTrue result ↔ (self.now.bytes ≡ []) }
    {
        self.bytes.is_empty()
    }

    /// Whether the line that was read last is answered.
    pub(crate) fn is_answered(&self) -> bool
        ensures { result ≡ self.now.is_answered }
    {
        self.is_answered
    }

    /// A line was read, which is not answered.
    pub(crate) fn owe(&mut self)
        ensures { self.new ≡ waiting self.old.bytes false }
    {
        self.is_answered = false;
    }

    // Whether so many bytes more may wait.
    fn has_room(&self, len: usize) -> bool
        ensures { IsTrue result ↔ (length self.now.bytes + len ≤ 65536) }
    {
        len <= ROOM - self.bytes.len()
    }

    // Adds a piece, for which there is room.
    fn push(&mut self, piece: &[u8])
        requires { length self.old.bytes + length piece.now ≤ 65536 }
        ensures { self.new ≡ waiting (self.old.bytes ++ piece.now) true }
    {
        self.bytes.extend_from_slice(piece).unwrap();
        self.is_answered = true;
    }

    /// Writes what waits. After a fault the rest waits still.
    pub fn flush<W: Write>(&mut self, output: &mut Counted<W>) -> Result<(), WriteFault>
        requires { IsSoundWriter output.old }
        ensures says { Says (sent W.contents self.old output.old) (sent W.contents self.new output.new) [] }
        ensures ok { OnOk result (self.new.bytes ≡ []) }
        ensures owed { self.new.is_answered ≡ self.old.is_answered }
        ensures sound { OnOk result (IsSoundWriter output.new) }
        ensures failed { OnErr result (output.new.failures ≡ 1) }
    {
        let count = write_front(output, &self.bytes);
        if count < self.bytes.len() {
            self.bytes.drain(..count);
            return Err(WriteFault);
        }
        self.bytes.clear();
        Ok(())
    }

    // Writes a piece that is too long to wait, where nothing waits.
    fn write_through<W: Write>(
        &mut self,
        output: &mut Counted<W>,
        piece: &[u8],
    ) -> Result<(), WriteFault>
        requires sound { IsSoundWriter output.old }
        requires empty { self.old.bytes ≡ [] }
        ensures ok { OnOk result (Says (sent W.contents self.old output.old) (sent W.contents self.new output.new) piece.now) }
        ensures answered { OnOk result (self.new.is_answered ≡ true) }
        ensures sound { OnOk result (IsSoundWriter output.new) }
        ensures front { OnErr result ((n : ℕ)
            × Says (sent W.contents self.old output.old) (sent W.contents self.new output.new) (take n piece.now)) }
        ensures failed { OnErr result (output.new.failures ≡ 1) }
    {
        self.is_answered = true;
        write_reply(output, piece)
    }

    // Writes what waits, where no so many bytes more may wait.
    #[tactic(auto, using(crate::proofs::Saying::says_nothing, crate::proofs::Saying::says_still, crate::proofs::Saying::says_front))]
    fn make_room<W: Write>(&mut self, output: &mut Counted<W>, len: usize) -> Result<(), WriteFault>
        requires { IsSoundWriter output.old }
        ensures says { Says (sent W.contents self.old output.old) (sent W.contents self.new output.new) [] }
        ensures ok { OnOk result (65536 < length self.new.bytes + len → self.new.bytes ≡ []) }
        ensures sound { OnOk result (IsSoundWriter output.new) }
        ensures failed { OnErr result (output.new.failures ≡ 1) }
    {
        if self.has_room(len) {
            return Ok(());
        }
        self.flush(output)
    }

    /// Says a reply, or a piece of one: it is written before the next read at the latest, or its front and then a fault.
    #[tactic(auto, using(crate::proofs::Saying::says_nothing, crate::proofs::Saying::says_still, crate::proofs::Saying::says_front))]
    pub fn say<W: Write>(&mut self, output: &mut Counted<W>, piece: &[u8]) -> Result<(), WriteFault>
        requires { IsSoundWriter output.old }
        ensures ok { OnOk result (Says (sent W.contents self.old output.old) (sent W.contents self.new output.new) piece.now) }
        ensures answered { OnOk result (self.new.is_answered ≡ true) }
        ensures sound { OnOk result (IsSoundWriter output.new) }
        ensures front { OnErr result ((n : ℕ)
            × Says (sent W.contents self.old output.old) (sent W.contents self.new output.new) (take n piece.now)) }
        ensures failed { OnErr result (output.new.failures ≡ 1) }
    {
        if let Err(fault) = self.make_room(output, piece.len()) {
            return Err(fault);
        }
        if !self.has_room(piece.len()) {
            return self.write_through(output, piece);
        }
        self.push(piece);
        Ok(())
    }
}
