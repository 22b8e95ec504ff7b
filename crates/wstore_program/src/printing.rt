//! A text, written to an output that counts its failures.
ghost use Rattle.std.specs.Prelude.{◌≡◌, OnErr, OnOk};
ghost use Rattle.std.specs.Io.KnownBytes.{Appends};
ghost use Rattle.wlines.specs.Pending.{IsNew};
ghost use Rattle.wstore_program.specs.Statuses.{WritesFront};

use std::io::{self, ErrorKind, Write};
use wvalues::Counted;

/// Writes a text, all of it; or a front of it, and then the writer fails, for this reason.
pub(crate) fn write_whole<W: Write>(output: &mut Counted<W>, text: &[u8]) -> io::Result<()>
    requires { IsNew output.old }
    ensures whole { OnOk result (Appends (W.contents output.old.inner) (W.contents output.new.inner) text.now) }
    ensures sound { OnOk result (output.new.failures ≡ 0) }
    ensures front { OnErr result (WritesFront text.now (W.contents output.old.inner) (W.contents output.new.inner)) }
    ensures failed { OnErr result (output.new.failures ≡ 1) }
{
    let mut written = 0;
    while written < text.len() {
        let count = match output.write(&text[written..]) {
            Ok(count) => count,
            Err(reason) => return Err(reason),
        };
        if count == 0 {
            return Err(io::Error::from(ErrorKind::WriteZero));
        }
        written += count;
    }
    Ok(())
}
