//! A reader or a writer that counts its reads and its failures.
ghost use Rattle.std.specs.Prelude.{◌≡◌, ◌+◌, ◌-◌, ◌^◌, ◌<◌, length, OnOk, OnErr, MatchResult};
ghost use Rattle.std.specs.Io.{ReadsAtMost, WritesAtMost};
ghost use Rattle.std.specs.Io.KnownBytes.{ReadConsumes, WriteAppends};

use std::io;
use std::io::{Read, Write};
use std::marker::Model;

/// Counts the reads of what it wraps, and the calls that failed.
#[derive(Drop)]
pub struct Counted<T> {
    inner: T,
    reads: u64,
    failures: u64,
}

impl<T> Model for Counted<T> {
    ghost use Rattle.wvalues.specs.Counts.{Counts};

    ghost Value = { Counts T };

    ghost view = { λ c. record { inner = c.inner; reads = c.reads; failures = c.failures } };
}

impl<T> Counted<T> {
    pub fn new(inner: T) -> Self
        ensures { result ≡ record { inner = inner; reads = 0; failures = 0 } }
    {
        Counted {
            inner,
            reads: 0,
            failures: 0,
        }
    }

    pub fn into_inner(self) -> T
        ensures { result ≡ self.inner }
    {
        self.inner
    }

    pub fn reads(&self) -> u64
        ensures { result ≡ self.now.reads }
    {
        self.reads
    }

    pub fn failures(&self) -> u64
        ensures { result ≡ self.now.failures }
    {
        self.failures
    }
}

impl<R: Read> Counted<R> {
    /// Reads once. An answer that is a fault is a failure.
    pub fn read(&mut self, buf: &mut [u8]) -> io::Result<usize>
        requires reads { self.old.reads < 2 ^ 64 - 1 }
        requires failures { self.old.failures < 2 ^ 64 - 1 }
        ensures bound { ReadsAtMost result buf.new }
        ensures bytes { ReadConsumes (R.remaining self.old.inner) (R.remaining self.new.inner) result buf.new }
        ensures reads { self.new.reads ≡ self.old.reads + 1 }
        ensures ok { OnOk result (self.new.failures ≡ self.old.failures) }
        ensures err { OnErr result (self.new.failures ≡ self.old.failures + 1) }
    {
        self.reads += 1;
        let answer = self.inner.read(buf);
        if answer.is_err() {
            self.failures += 1;
        }
        answer
    }
}

impl<W: Write> Counted<W> {
    /// Writes once. A fault is a failure, and so is a piece with bytes of which none was taken.
    pub fn write(&mut self, piece: &[u8]) -> io::Result<usize>
        requires reads { self.old.reads < 2 ^ 64 - 1 }
        requires failures { self.old.failures < 2 ^ 64 - 1 }
        ensures bound { WritesAtMost result piece.now }
        ensures bytes { WriteAppends (W.contents self.old.inner) (W.contents self.new.inner) result piece.now }
        ensures reads { self.new.reads ≡ self.old.reads }
        ensures failures { MatchResult result
            (λ n. (n ≡ 0 → 0 < length piece.now → self.new.failures ≡ self.old.failures + 1)
            × (0 < n → self.new.failures ≡ self.old.failures) × (length piece.now ≡ 0 → self.new.failures ≡ self.old.failures))
            (λ _. self.new.failures ≡ self.old.failures + 1) }
    {
        let answer = self.inner.write(piece);
        let is_failure = match &answer {
            Ok(n) => *n == 0 && !piece.is_empty(),
            Err(_) => true,
        };
        if is_failure {
            self.failures += 1;
        }
        answer
    }
}
