//! What bytes are to tokens and to what stands between them.

ghost use Rattle.std.specs.Prelude.{◌≡◌};
ghost use Rattle.wlexer.specs.Bytes.{begins_word, continues_word, spoils_number, is_blank, ends_line, continues, kind_of};

/// Bytes that belong together up to the first that does not: those of a word, digits, those of a comment.
#[derive(Clone, Copy, Debug, PartialEq, Eq)]
pub enum Stretch {
    Word,
    Digits,
    Comment,
}

/// What a token can be, by its first byte.
#[derive(Clone, Copy, Debug, PartialEq, Eq)]
pub enum TokenKind {
    Word,
    Number,
    QuotedName,
    Text,
    Symbol,
}

fn begins_word(byte: u8) -> bool
    ensures { result ≡ begins_word byte }
{
    byte.is_ascii_alphabetic() || byte == b'_'
}

fn continues_word(byte: u8) -> bool
    ensures { result ≡ continues_word byte }
{
    byte.is_ascii_alphanumeric() || byte == b'_'
}

/// Whether a number may not stand before this byte.
pub fn spoils_number(byte: u8) -> bool
    ensures { result ≡ spoils_number byte }
{
    begins_word(byte) || byte == b'.'
}

const FORM_FEED: u8 = 12;

/// Space, tab, LF, CR, form feed.
pub fn is_blank(byte: u8) -> bool
    ensures { result ≡ is_blank byte }
{
    byte == b' ' || byte == b'\t' || byte == b'\n' || byte == b'\r' || byte == FORM_FEED
}

fn ends_line(byte: u8) -> bool
    ensures { result ≡ ends_line byte }
{
    byte == b'\n' || byte == b'\r'
}

/// Whether a stretch goes on over this byte.
pub fn continues(stretch: Stretch, byte: u8) -> bool
    ensures { result ≡ continues stretch byte }
{
    match stretch {
        Stretch::Word => continues_word(byte),
        Stretch::Digits => byte.is_ascii_digit(),
        Stretch::Comment => !ends_line(byte),
    }
}

/// The kind of token that can begin with this byte.
pub fn kind_of(byte: u8) -> TokenKind
    ensures { result ≡ kind_of byte }
{
    if begins_word(byte) {
        TokenKind::Word
    } else if byte.is_ascii_digit() {
        TokenKind::Number
    } else if byte == b'"' {
        TokenKind::QuotedName
    } else if byte == b'\'' {
        TokenKind::Text
    } else {
        TokenKind::Symbol
    }
}
