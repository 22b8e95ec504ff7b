//! Cuts lines and bodies off the front of bytes that lie in memory.
ghost use Rattle.std.specs.Prelude.{◌≡◌, ◌<◌, ◌≤◌, ◌∷◌, ◌++◌, length, take, IfSome, IfNone};
ghost use Rattle.wlines.specs.Words.{Lacks};
ghost use Rattle.wrecords.specs.Cuts.{CutsBody};

/// What stands before the first line feed among so many bytes, and what stands behind it.
pub fn cut_within(bytes: &[u8], most: usize) -> Option<(&[u8], &[u8])>
    requires { most ≤ length bytes.now }
    ensures found { IfSome result (λ parts. bytes.now ≡ parts.0.now ++ (10 ∷ parts.1.now)) }
    ensures first { IfSome result (λ parts. Lacks 10 parts.0.now) }
    ensures within { IfSome result (λ parts. length parts.0.now < most) }
    ensures none { IfNone result (Lacks 10 (take most bytes.now)) }
{
    for i in 0..most {
        if bytes[i] == b'\n' {
            return Some((&bytes[..i], &bytes[i + 1..]));
        }
    }
    None
}

/// What stands before the first line feed, and what stands behind it.
pub fn cut_line(bytes: &[u8]) -> Option<(&[u8], &[u8])>
    ensures found { IfSome result (λ parts. bytes.now ≡ parts.0.now ++ (10 ∷ parts.1.now)) }
    ensures first { IfSome result (λ parts. Lacks 10 parts.0.now) }
    ensures none { IfNone result (Lacks 10 bytes.now) }
{
    cut_within(bytes, bytes.len())
}

/// A body and the line feed behind it, cut off the front of bytes.
#[derive(Clone, Copy)]
pub enum Body<'a> {
    /// The body, and what stands behind its line feed.
    Whole(&'a [u8], &'a [u8]),
    /// There are fewer bytes.
    Short,
    /// Another byte than a line feed stands behind the body.
    Unfed,
}

/// Cuts a body of this many bytes off.
pub fn cut_body(bytes: &[u8], len: u32) -> Body<'_>
    ensures { CutsBody len bytes.now result }
{
    let len = len as usize;
    if bytes.len() <= len {
        return Body::Short;
    }
    if bytes[len] != b'\n' {
        return Body::Unfed;
    }
    Body::Whole(&bytes[..len], &bytes[len + 1..])
}
