//! Reads in blocks, and hands the bytes out.
ghost use Rattle.std.specs.Prelude.{take, vec_len, ◌-◌, ◌≡◌, ◌≢◌, ◌+◌, ◌<◌, ◌≤◌, ◌↔◌, List, ℕ, [], ◌∷◌};
ghost use Rattle.std.specs.Prelude.{length, drop, OnOk, IfOk, IfErr, IfSome, IfNone, IsTrue, false};
ghost use Rattle.std.specs.Io.KnownBytes.{Keeps, Consumes, IsAtEnd};
ghost use Rattle.wlines.specs.Pending.{block, left, budget, IsSound, IsSoundWriter, ReadFailed};

use crate::fault::ReadFault;
use crate::outbox::Outbox;
use std::alloc::{AllocError, Global};
use std::io::{Read, Write};
use std::marker::Model;
use wvalues::Counted;

/// How many bytes a read may give.
const BLOCK: usize = 65_536;

/// How many reads a run may make.
const MOST_READS: u64 = 1 << 40;

/// The bytes that were read and not yet handed out. Contracts see it as the list of these bytes, and how many bytes of
/// the last read were handed out.
#[derive(Drop)]
pub struct BlockReader {
    bytes: Vec<u8>,
    start: usize,
    end: usize,
}

impl Model for BlockReader {
    ghost use Rattle.std.specs.Prelude.{◌-◌, ◌≡◌, ◌≤◌, take, drop, vec_len};
    ghost use Rattle.wlines.specs.Sent.{Block, coded_block};

    ghost Value = { Block };

    ghost coded = { coded_block };

    ghost view = { λ s. record { held = take (s.end - s.start) (drop s.start s.bytes.items); taken = s.start } };

    ghost invariant = { λ s. (s.start ≤ s.end) × (s.end ≤ vec_len s.bytes) × (vec_len s.bytes ≡ 65536) };
}

impl BlockReader {
    ghost use Rattle.wlines.specs.Failing.{HasFailed, Leaves};
    ghost use Rattle.wlines.specs.Sent.{Says, handed, sent};

    /// A source that holds nothing.
    pub fn new(alloc: Global) -> Result<BlockReader, AllocError>
        ensures { IfOk result (λ s. s ≡ handed [] 0) }
    {
        let bytes = vec![in alloc; 0u8; BLOCK]?;
        Ok(BlockReader {
            bytes,
            start: 0,
            end: 0,
        })
    }

    /// Asks the reader for a block, where nothing is held and nothing waits to be written. It answers false at the end
    /// of the input.
    fn ask<R: Read>(&mut self, input: &mut Counted<R>, outbox: &Outbox) -> Result<bool, ReadFault>
        requires empty { self.old.held ≡ [] }
        requires written { outbox.now.bytes ≡ [] }
        requires sound { IsSound input.old }
        ensures bytes { Keeps (left R.remaining self.old.held input.old) (left R.remaining self.new.held input.new) }
        ensures sound { OnOk result (IsSound input.new) }
        ensures reads { input.old.reads ≤ input.new.reads }
        ensures once { OnOk result (input.new.reads ≡ input.old.reads + 1) }
        ensures more { IfOk result (λ more. IsTrue more → (0 < length self.new.held) × (length self.new.held ≤ block)) }
        ensures end { IfOk result (λ more. (more ≡ false) → (self.new.held ≡ []) × IsAtEnd (R.remaining input.new.inner)) }
        ensures fault { IfErr result (λ fault. (fault ≡ ReadFault.Reader) × ReadFailed input.new) }
    {
        prove!(outbox.is_empty());
        if input.reads() >= MOST_READS {
            return Err(ReadFault::Reader);
        }
        match input.read(&mut self.bytes) {
            Ok(n) => {
                self.start = 0;
                self.end = n;
                Ok(n > 0)
            }
            Err(_) => Err(ReadFault::Reader),
        }
    }

    /// Sees to it that a byte is held. Before the reader is asked, all that waits is written. It answers false at the
    /// end of the input.
    #[tactic(auto, using(crate::proofs::Saying::says_nothing))]
    pub(crate) fn top_up<R: Read, W: Write>(
        &mut self,
        input: &mut Counted<R>,
        outbox: &mut Outbox,
        output: &mut Counted<W>,
    ) -> Result<bool, ReadFault>
        requires input { IsSound input.old }
        requires output { IsSoundWriter output.old }
        ensures bytes { Keeps (left R.remaining self.old.held input.old) (left R.remaining self.new.held input.new) }
        ensures says { Says (sent W.contents outbox.old output.old) (sent W.contents outbox.new output.new) [] }
        ensures owed { outbox.new.is_answered ≡ outbox.old.is_answered }
        ensures input { OnOk result (IsSound input.new) }
        ensures output { OnOk result (IsSoundWriter output.new) }
        ensures more { IfOk result (λ more. IsTrue more → self.new.held ≢ []) }
        ensures end { IfOk result (λ more. (more ≡ false) → (self.new.held ≡ []) × IsAtEnd (left R.remaining self.new.held input.new)) }
        ensures falls { OnOk result (budget self.new.held input.new ≤ budget self.old.held input.old) }
        ensures fault { IfErr result (λ fault. HasFailed fault input.new outbox.new output.new) }
    {
        if !self.is_empty() {
            return Ok(true);
        }
        let Ok(()) = outbox.flush(output) else {
            return Err(ReadFault::Writer);
        };
        let more = self.ask(input, outbox)?;
        Ok(more)
    }

    /// Whether nothing is held.
    pub(crate) fn is_empty(&self) -> bool
        ensures { IsTrue result ↔ (self.now.held ≡ []) }
    {
        self.start == self.end
    }

    /// The bytes that are held.
    pub(crate) fn held(&self) -> &[u8]
        ensures { result.now ≡ self.now.held }
    {
        &self.bytes[self.start..self.end]
    }

    /// Hands out the first n bytes that are held.
    pub(crate) fn advance(&mut self, n: usize)
        requires { n ≤ length self.old.held }
        ensures { self.new ≡ handed (drop n self.old.held) (self.old.taken + n) }
    {
        self.start += n;
    }

    fn take_first(&mut self) -> u8
        requires { self.old.held ≢ [] }
        ensures byte { self.old.held ≡ result ∷ self.new.held }
        ensures taken { self.new.taken ≡ self.old.taken + 1 }
    {
        let byte = self.bytes[self.start];
        self.start += 1;
        byte
    }

    /// The next byte, or nothing at the end of the input.
    pub(crate) fn next<R: Read, W: Write>(
        &mut self,
        input: &mut Counted<R>,
        outbox: &mut Outbox,
        output: &mut Counted<W>,
    ) -> Result<Option<u8>, ReadFault>
        requires input { IsSound input.old }
        requires output { IsSoundWriter output.old }
        ensures leaves { Leaves W.contents result outbox.old output.old self.new input.new outbox.new output.new }
        ensures some { IfOk result (λ o. IfSome o (λ b. Consumes (left R.remaining self.old.held input.old)
            (left R.remaining self.new.held input.new) (b ∷ []))) }
        ensures falls { IfOk result (λ o. IfSome o (λ _. budget self.new.held input.new < budget self.old.held input.old)) }
        ensures kept { IfOk result (λ o. IfNone o (Keeps (left R.remaining self.old.held input.old)
            (left R.remaining self.new.held input.new))) }
        ensures end { IfOk result (λ o. IfNone o (IsAtEnd (left R.remaining self.new.held input.new))) }
    {
        if !self.top_up(input, outbox, output)? {
            return Ok(None);
        }
        Ok(Some(self.take_first()))
    }
}
