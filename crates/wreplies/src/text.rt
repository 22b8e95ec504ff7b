//! The bytes of a reply, and what they are made of.
ghost use Rattle.std.specs.Prelude.{◌≡◌, ◌++◌, decimal, OnOk};
ghost use Rattle.wreplies.specs.Spelling.{at_number};
ghost use Rattle.wreplies.specs.Texts.{bytes_of};

use itoa::Buffer;
use std::alloc::AllocError;

/// The bytes of a reply: fixed ones, which take no memory, or such as were made.
#[derive(Drop)]
pub enum Text {
    /// Bytes that stand in the program.
    Fixed(&'static [u8]),
    /// Bytes that were put together.
    Made(Vec<u8>),
}

impl Text {
    /// The bytes.
    pub fn as_slice(&self) -> &[u8]
        ensures { result.now ≡ bytes_of self.now }
    {
        match self {
            Text::Fixed(bytes) => bytes,
            Text::Made(bytes) => bytes.as_slice(),
        }
    }
}

/// Adds the digits of a number.
pub(crate) fn push_number(text: &mut Vec<u8>, number: u64) -> Result<(), AllocError>
    ensures { OnOk result (text.new.items ≡ text.old.items ++ decimal number) }
{
    let mut buffer = Buffer::new();
    text.extend_from_slice(buffer.format(number).as_bytes())?;
    Ok(())
}

/// Adds words, a number and a line feed.
pub(crate) fn push_at(text: &mut Vec<u8>, words: &[u8], number: u64) -> Result<(), AllocError>
    ensures { OnOk result (text.new.items ≡ text.old.items ++ at_number words.now number) }
{
    text.extend_from_slice(words)?;
    push_number(text, number)?;
    text.push(b'\n')?;
    Ok(())
}
