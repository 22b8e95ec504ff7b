//! Writes replies.
ghost use Rattle.std.specs.Prelude.{◌≡◌, ◌<◌, ◌≤◌, ℕ, take, length, OnOk, OnErr};
ghost use Rattle.std.specs.Io.KnownBytes.{Appends};
ghost use Rattle.wlines.specs.Pending.{IsSoundWriter};

use std::io::Write;
use wvalues::Counted;

/// The writer failed.
#[derive(Debug, Drop)]
pub struct WriteFault;

/// Writes bytes until all are written or a write fails, and tells how many were written.
pub(crate) fn write_front<W: Write>(output: &mut Counted<W>, bytes: &[u8]) -> usize
    requires { IsSoundWriter output.old }
    ensures within { result ≤ length bytes.now }
    ensures appends { Appends (W.contents output.old.inner) (W.contents output.new.inner) (take result bytes.now) }
    ensures sound { result ≡ length bytes.now → IsSoundWriter output.new }
    ensures failed { result < length bytes.now → output.new.failures ≡ 1 }
{
    let mut written = 0;
    while written < bytes.len() {
        let Ok(count) = output.write(&bytes[written..]) else {
            return written;
        };
        if count == 0 {
            return written;
        }
        written += count;
    }
    written
}

/// Writes a whole reply, or its front and then a fault.
pub fn write_reply<W: Write>(output: &mut Counted<W>, reply: &[u8]) -> Result<(), WriteFault>
    requires { IsSoundWriter output.old }
    ensures ok { OnOk result (Appends (W.contents output.old.inner) (W.contents output.new.inner) reply.now) }
    ensures sound { OnOk result (IsSoundWriter output.new) }
    ensures front { OnErr result ((n : ℕ) × Appends (W.contents output.old.inner) (W.contents output.new.inner) (take n reply.now)) }
    ensures failed { OnErr result (output.new.failures ≡ 1) }
{
    if write_front(output, reply) < reply.len() {
        return Err(WriteFault);
    }
    Ok(())
}
