//! Texts and values, cut and without control characters.
ghost use Rattle.std.specs.Prelude.{◌≡◌, ◌++◌, OnOk, string_bytes};
ghost use Rattle.std.specs.Fmt.{decimal};
ghost use Rattle.wshown.specs.Shown.{is_hidden, shown_bytes, shown_character, shown_path, shown_text, shown_value};

use itoa::Buffer;
use std::alloc::{AllocError, Global};
use std::fmt::Write;

/// The most characters of a line, a value or a list that are shown.
pub(crate) const MOST_SHOWN: usize = 60;

/// The most bytes that are looked at: more than these characters take, and one character more.
const MOST_BYTES: usize = 4 * MOST_SHOWN + 4;

// Whether a terminal shows nothing for a character, or turns what stands beside it.
fn is_hidden(c: char) -> bool
    ensures { result ≡ is_hidden c }
{
    match c {
        '\u{ad}' => true,
        '\u{61c}' => true,
        '\u{180e}' => true,
        '\u{200b}'..='\u{200f}' => true,
        '\u{2028}'..='\u{202e}' => true,
        '\u{2060}'..='\u{206f}' => true,
        '\u{feff}' => true,
        '\u{e0000}'..='\u{e007f}' => true,
        _ => false,
    }
}

/// Adds a character, by its number where a terminal would obey it or hide it.
pub(crate) fn push_character(text: &mut String, c: char) -> Result<(), AllocError>
    ensures { OnOk result (string_bytes text.new ≡ string_bytes text.old ++ shown_character c) }
{
    if c.is_control() || is_hidden(c) {
        let number = u32::from(c);
        write!(text, "\\u{{{number:x}}}")?;
        return Ok(());
    }
    text.push(c)
}

/// Adds a text as it is shown, cut behind its first characters.
pub fn push_text(text: &mut String, value: &str) -> Result<(), AllocError>
    ensures { OnOk result (string_bytes text.new ≡ string_bytes text.old ++ shown_text value.now) }
{
    let mut left = MOST_SHOWN;
    'characters: for c in value.chars() {
        if left == 0 {
            return text.push_str("..");
        }
        push_character(text, c)?;
        left -= 1;
    }
    Ok(())
}

/// Adds the path of a file as it is shown, whole.
pub fn push_path(text: &mut String, path: &str) -> Result<(), AllocError>
    ensures { OnOk result (string_bytes text.new ≡ string_bytes text.old ++ shown_path path.now) }
{
    'characters: for c in path.chars() {
        push_character(text, c)?;
    }
    Ok(())
}

/// Adds bytes as they are shown, cut behind their first characters. Those that are not UTF-8 are replaced.
pub fn push_bytes(alloc: Global, text: &mut String, value: &[u8]) -> Result<(), AllocError>
    ensures { OnOk result (string_bytes text.new ≡ string_bytes text.old ++ shown_bytes value.now) }
{
    let most = MOST_BYTES.min(value.len());
    let shown = String::from_utf8_lossy(alloc, &value[..most])?;
    push_text(text, shown.as_str())
}

/// Adds a value between quotes, cut behind its first characters.
pub fn push_value(alloc: Global, text: &mut String, value: &[u8]) -> Result<(), AllocError>
    ensures { OnOk result (string_bytes text.new ≡ string_bytes text.old ++ shown_value value.now) }
{
    text.push('"')?;
    push_bytes(alloc, text, value)?;
    text.push('"')
}

/// Adds a number.
pub fn push_number(text: &mut String, number: u64) -> Result<(), AllocError>
    ensures { OnOk result (string_bytes text.new ≡ string_bytes text.old ++ decimal number) }
{
    let mut buffer = Buffer::new();
    text.push_str(buffer.format(number))
}
