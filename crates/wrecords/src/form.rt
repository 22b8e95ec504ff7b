//! Header lines.
ghost use Rattle.std.specs.Prelude.{◌≡◌, ℕ, List, ◌<◌, IfSome, decimal, Some};
ghost use Rattle.wvalues.specs.Names.{NameParts, IsName};
ghost use Rattle.std.specs.List.{list_all};
ghost use Rattle.wrecords.specs.Forms.{IsForm, IsNumber, is_digest_digit, line_of, name_words, content_words};

use wlines::split_word;
use wvalues::{Name, number_word};

/// The digits of a digest.
pub const DIGITS: usize = 64;

/// What a header line says.
#[derive(Clone, Copy, Debug)]
pub enum Form {
    /// The declaration of the table has this many bytes.
    Table(u32),
    /// The name has a content of this many bytes.
    Content(Name, u32),
    /// The name is disputed.
    Dispute(Name),
    /// The name is retired.
    Retirement(Name),
    /// All names of its origin up to this one are retired.
    Floor(Name),
    /// There were this many records.
    End(u32),
    /// The digits of the digest of all before this line.
    Digest([u8; 64]),
}

// The number that a word tells.
fn read_number(word: &[u8]) -> Option<u32>
    ensures found { IfSome result (λ n. (word.now ≡ decimal n) × IsNumber n) }
    ensures only { (n : ℕ) → IsNumber n → word.now ≡ decimal n → result ≡ Some n }
{
    number_word(word)
}

// The name of two words.
fn name_of(origin: &[u8], number: &[u8]) -> Option<Name>
    ensures found { IfSome result (λ n. IsName n × (origin.now ≡ n.origin) × (number.now ≡ decimal n.number)) }
    ensures only { (n : NameParts) → IsName n → origin.now ≡ n.origin → number.now ≡ decimal n.number → result ≡ Some n }
{
    match Name::read(origin, number) {
        Ok(name) => Some(name),
        Err(_) => None,
    }
}

// The name of all words.
fn read_name(words: &[u8]) -> Option<Name>
    ensures found { IfSome result (λ n. IsName n × (words.now ≡ name_words n)) }
    ensures only { (n : NameParts) → IsName n → words.now ≡ name_words n → result ≡ Some n }
{
    let Some((origin, number)) = split_word(words) else {
        return None;
    };
    name_of(origin, number)
}

// The words behind `S`: a name and a length.
fn read_content(words: &[u8]) -> Option<(Name, u32)>
    ensures found { IfSome result (λ p. IsName p.0 × IsNumber p.1 × (words.now ≡ content_words p.0 p.1)) }
    ensures only { (n : NameParts) (len : ℕ) → IsName n → IsNumber len → words.now ≡ content_words n len → result ≡ Some (n, len) }
{
    let Some((origin, rest)) = split_word(words) else {
        return None;
    };
    let Some((number, last)) = split_word(rest) else {
        return None;
    };
    let Some(name) = name_of(origin, number) else {
        return None;
    };
    let Some(len) = read_number(last) else {
        return None;
    };
    Some((name, len))
}

// The words behind `T`.
fn table_form(words: &[u8]) -> Option<Form>
    ensures found { IfSome result (λ f. (n : ℕ) × IsForm (Form.Table n) × (f ≡ Form.Table n) × (words.now ≡ decimal n)) }
    ensures only { (n : ℕ) → IsForm (Form.Table n) → words.now ≡ decimal n → result ≡ Some (Form.Table n) }
{
    match read_number(words) {
        Some(n) => Some(Form::Table(n)),
        None => None,
    }
}

// The words behind `S`.
fn content_form(words: &[u8]) -> Option<Form>
    ensures found { IfSome result (λ f. (name : NameParts) × (len : ℕ) × IsForm (Form.Content name len)
        × (f ≡ Form.Content name len) × (words.now ≡ content_words name len)) }
    ensures only { (name : NameParts) (len : ℕ) → IsForm (Form.Content name len) → words.now ≡ content_words name len
        → result ≡ Some (Form.Content name len) }
{
    match read_content(words) {
        Some((name, len)) => Some(Form::Content(name, len)),
        None => None,
    }
}

// The words behind `D`.
fn dispute_form(words: &[u8]) -> Option<Form>
    ensures found { IfSome result (λ f. (name : NameParts) × IsForm (Form.Dispute name) × (f ≡ Form.Dispute name)
        × (words.now ≡ name_words name)) }
    ensures only { (name : NameParts) → IsForm (Form.Dispute name) → words.now ≡ name_words name → result ≡ Some (Form.Dispute name) }
{
    match read_name(words) {
        Some(name) => Some(Form::Dispute(name)),
        None => None,
    }
}

// The words behind `R`.
fn retirement_form(words: &[u8]) -> Option<Form>
    ensures found { IfSome result (λ f. (name : NameParts) × IsForm (Form.Retirement name) × (f ≡ Form.Retirement name)
        × (words.now ≡ name_words name)) }
    ensures only { (name : NameParts) → IsForm (Form.Retirement name) → words.now ≡ name_words name → result ≡ Some (Form.Retirement name) }
{
    match read_name(words) {
        Some(name) => Some(Form::Retirement(name)),
        None => None,
    }
}

// The words behind `U`.
fn floor_form(words: &[u8]) -> Option<Form>
    ensures found { IfSome result (λ f. (name : NameParts) × IsForm (Form.Floor name) × (f ≡ Form.Floor name)
        × (words.now ≡ name_words name)) }
    ensures only { (name : NameParts) → IsForm (Form.Floor name) → words.now ≡ name_words name → result ≡ Some (Form.Floor name) }
{
    match read_name(words) {
        Some(name) => Some(Form::Floor(name)),
        None => None,
    }
}

// The words behind `E`.
fn end_form(words: &[u8]) -> Option<Form>
    ensures found { IfSome result (λ f. (n : ℕ) × IsForm (Form.End n) × (f ≡ Form.End n) × (words.now ≡ decimal n)) }
    ensures only { (n : ℕ) → IsForm (Form.End n) → words.now ≡ decimal n → result ≡ Some (Form.End n) }
{
    match read_number(words) {
        Some(n) => Some(Form::End(n)),
        None => None,
    }
}

fn is_digit(byte: u8) -> bool
    ensures { result ≡ is_digest_digit byte }
{
    byte.is_ascii_digit() || (b'a' <= byte && byte <= b'f')
}

fn are_digits(digits: &[u8]) -> bool
    ensures { result ≡ list_all is_digest_digit digits.now }
{
    digits.iter().all(|byte| is_digit(*byte))
}

// The word behind `H`.
fn digest_form(word: &[u8]) -> Option<Form>
    ensures found { IfSome result (λ f. (digits : List ℕ) × IsForm (Form.Digest digits) × (f ≡ Form.Digest digits) × (word.now ≡ digits)) }
    ensures only { (digits : List ℕ) → IsForm (Form.Digest digits) → word.now ≡ digits → result ≡ Some (Form.Digest digits) }
{
    if word.len() != DIGITS || !are_digits(word) {
        return None;
    }
    let mut digits = [0; DIGITS];
    digits.copy_from_slice(word);
    Some(Form::Digest(digits))
}

/// What a header line says, where it is one.
pub fn read_form(line: &[u8]) -> Option<Form>
    ensures found { IfSome result (λ f. IsForm f × (line.now ≡ line_of f)) }
    ensures only { (f : Form) → IsForm f → line.now ≡ line_of f → result ≡ Some f }
{
    match line {
        [b'T', b' ', words @ ..] => table_form(words),
        [b'S', b' ', words @ ..] => content_form(words),
        [b'D', b' ', words @ ..] => dispute_form(words),
        [b'R', b' ', words @ ..] => retirement_form(words),
        [b'U', b' ', words @ ..] => floor_form(words),
        [b'E', b' ', words @ ..] => end_form(words),
        [b'H', b' ', words @ ..] => digest_form(words),
        _ => None,
    }
}
