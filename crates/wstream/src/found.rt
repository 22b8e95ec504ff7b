//! What stands first in a delivery stream.
ghost use Rattle.std.specs.Prelude.{◌≡◌, true, false, ◌≤◌, ◌<◌, ◌∷◌, ◌++◌};
ghost use Rattle.wvalues.specs.Names.{IsName};
ghost use Rattle.wlines.specs.Words.{Lacks};
ghost use Rattle.wrecords.specs.Forms.{IsForm, IsNumber, line_of};
ghost use Rattle.wstream.specs.Inboxes.{Finds};

use wrecords::{Body, Form, cut_body, cut_line, cut_within, read_form};
use wsegment::LONGEST_SEGMENT;
use wvalues::Name;

/// The longest header line, without its line feed.
const LONGEST_LINE: usize = 200;

/// What stands first in the bytes that are held.
#[derive(Clone, Copy, Debug)]
pub(crate) enum Found {
    /// Less than a message, and more may make it one.
    Open,
    /// No message, whatever follows.
    Bad,
    /// A content of the name: the number of its bytes, and that of the whole message's.
    Take(Name, usize, usize),
    /// The name is retired: the number of the message's bytes.
    Retire(Name, usize),
    /// All names of its origin up to this one are retired: the number of the message's bytes.
    RetireTo(Name, usize),
}

// Whether a content of so many bytes is none of a message.
fn is_too_long(len: u32) -> bool
    ensures long { result ≡ true → 67108864 < len }
    ensures short { result ≡ false → len ≤ 67108864 }
{
    len as usize > LONGEST_SEGMENT
}

// What stands first where the line of a content does.
fn content_found(bytes: &[u8], rest: &[u8], name: Name, len: u32) -> Found
    requires name { IsName name }
    requires number { IsNumber len }
    requires line { bytes.now ≡ line_of (Form.Content name len) ++ (10 ∷ rest.now) }
    ensures { Finds bytes.now result }
{
    if is_too_long(len) {
        return Found::Bad;
    }
    match cut_body(rest, len) {
        Body::Whole(body, behind) => Found::Take(name, body.len(), bytes.len() - behind.len()),
        Body::Short => Found::Open,
        Body::Unfed => Found::Bad,
    }
}

// What stands first where this line does.
fn form_found(bytes: &[u8], rest: &[u8], form: Form) -> Found
    requires form { IsForm form }
    requires line { bytes.now ≡ line_of form ++ (10 ∷ rest.now) }
    ensures { Finds bytes.now result }
{
    match form {
        Form::Content(name, len) => content_found(bytes, rest, name, len),
        Form::Retirement(name) => Found::Retire(name, bytes.len() - rest.len()),
        Form::Floor(name) => Found::RetireTo(name, bytes.len() - rest.len()),
        Form::Table(_) => Found::Bad,
        Form::Dispute(_) => Found::Bad,
        Form::End(_) => Found::Bad,
        Form::Digest(_) => Found::Bad,
    }
}

// What stands first where a whole line does.
fn line_found(bytes: &[u8], line: &[u8], rest: &[u8]) -> Found
    requires lacks { Lacks 10 line.now }
    requires line { bytes.now ≡ line.now ++ (10 ∷ rest.now) }
    ensures { Finds bytes.now result }
{
    let Some(form) = read_form(line) else {
        return Found::Bad;
    };
    form_found(bytes, rest, form)
}

/// What stands first in a stream. That it looks at no more than a header line and the byte behind a body, no clause says.
pub(crate) fn first_of(bytes: &[u8]) -> Found
    ensures { Finds bytes.now result }
{
    if bytes.len() <= LONGEST_LINE {
        return match cut_line(bytes) {
            Some((line, rest)) => line_found(bytes, line, rest),
            None => Found::Open,
        };
    }
    match cut_within(bytes, LONGEST_LINE + 1) {
        Some((line, rest)) => line_found(bytes, line, rest),
        None => Found::Bad,
    }
}
