//! Lines of exchange files and streams, with their bodies.
ghost use Rattle.std.specs.Prelude.{◌≡◌, ◌++◌, ℕ, List, IfErr, IfOk, IfSome, Some};
ghost use Rattle.wexplain.specs.Items.{IsCutShort, IsItem, HasBody, body_length};

use wrecords::{Body, Form, cut_body, cut_line, read_form};
use wsegment::LONGEST_SEGMENT;
use wvalues::Name;

/// The most bytes of a line.
pub(crate) const LONGEST_LINE: usize = 200;

/// A line with its body, which has no bytes where the line has none.
#[derive(Clone, Copy)]
pub(crate) struct Item<'a> {
    pub(crate) form: Form,
    pub(crate) body: &'a [u8],
    /// What stands behind it.
    pub(crate) rest: &'a [u8],
}

// How many bytes the body of a line has, if it has one.
fn body_length(form: &Form) -> Option<u32>
    ensures { result ≡ body_length form.now }
{
    match form {
        Form::Table(len) => Some(*len),
        Form::Content(_, len) => Some(*len),
        _ => None,
    }
}

// Whether the body of a line is longer than a segment may be.
fn has_long_body(form: &Form) -> bool {
    body_length(form).is_some_and(|len| len as usize > LONGEST_SEGMENT)
}

// The body behind a line, or what stands where its line feed is missing.
fn with_body<'a>(form: Form, len: u32, rest: &'a [u8]) -> Result<Item<'a>, &'a [u8]>
    ensures form { IfOk result (λ item. item.form ≡ form) }
    ensures body { IfOk result (λ item. HasBody (Some len) rest.now item.body.now item.rest.now) }
    ensures missing { IfErr result (λ place. (read : List ℕ) × (rest.now ≡ read ++ place.now)) }
{
    match cut_body(rest, len) {
        Body::Whole(body, rest) => Ok(Item { form, body, rest }),
        Body::Short => Err(rest),
        Body::Unfed => Err(&rest[len as usize..]),
    }
}

/// The line in front of some bytes, with its body; or what stands where none can be read.
pub(crate) fn cut_item(bytes: &[u8]) -> Result<Item<'_>, &[u8]>
    ensures item { IfOk result (λ item. IsItem bytes.now item.form item.body.now item.rest.now) }
    ensures missing { IfErr result (λ place. (read : List ℕ) × (bytes.now ≡ read ++ place.now)) }
{
    let Some((line, rest)) = cut_line(bytes) else {
        return Err(bytes);
    };
    if line.len() > LONGEST_LINE {
        return Err(bytes);
    }
    let Some(form) = read_form(line) else {
        return Err(bytes);
    };
    if has_long_body(&form) {
        return Err(bytes);
    }
    match body_length(&form) {
        Some(len) => with_body(form, len, rest),
        None => Ok(Item {
            form,
            body: b"",
            rest,
        }),
    }
}

/// The name of the segment in front of some bytes, where they end inside it or before its line feed.
pub(crate) fn cut_short(bytes: &[u8]) -> Option<Name>
    ensures { IfSome result (λ name. IsCutShort bytes.now name) }
{
    let (line, rest) = cut_line(bytes)?;
    match read_form(line)? {
        Form::Content(name, len) if len as usize <= LONGEST_SEGMENT && rest.len() <= len as usize =>
            Some(name),
        _ => None,
    }
}
