//! Where a text of queries stands: within quotes, within a comment, or outside.
ghost use Rattle.std.specs.Prelude.{◌≡◌};
ghost use Rattle.wshell.specs.Splitting.{may_end, outside, step};

/// How a text stands at its end.
#[derive(Clone, Copy)]
pub(crate) enum Mode {
    /// Outside quotes and comments.
    Outside,
    /// Outside, behind a `-` with which a comment may begin.
    Dash,
    /// Within a name or a text, which this byte closes.
    Quotes(u8),
    /// Within a comment.
    Comment,
}

// How a text stands that stood outside, behind a byte that is no `-`.
fn outside(byte: u8) -> Mode
    ensures { result ≡ outside byte }
{
    match byte {
        b'\'' | b'"' => Mode::Quotes(byte),
        _ => Mode::Outside,
    }
}

impl Mode {
    /// How a text stands behind one byte more.
    pub(crate) fn step(self, byte: u8) -> Mode
        ensures { result ≡ step self byte }
    {
        match (self, byte) {
            (Mode::Outside, b'-') => Mode::Dash,
            (Mode::Dash, b'-') => Mode::Comment,
            (Mode::Outside | Mode::Dash, _) => outside(byte),
            (Mode::Quotes(quote), _) if byte == quote => Mode::Outside,
            (Mode::Quotes(quote), _) => Mode::Quotes(quote),
            (Mode::Comment, b'\n' | b'\r') => Mode::Outside,
            (Mode::Comment, _) => Mode::Comment,
        }
    }

    /// Whether a `;` behind the text ends a query.
    pub(crate) fn may_end(self) -> bool
        ensures { result ≡ may_end self }
    {
        match self {
            Mode::Outside => true,
            Mode::Dash => true,
            _ => false,
        }
    }
}
