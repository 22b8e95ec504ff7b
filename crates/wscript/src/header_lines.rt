//! Header lines of commands.
ghost use Rattle.std.specs.Prelude.{◌≡◌, ℕ, ◌^◌, ◌<◌, List, ◌∷◌, ◌++◌, IfSome, IsSomeAnd, decimal, Some};
ghost use Rattle.wvalues.specs.NameReading.{ReadsName};
ghost use Rattle.wlines.specs.Words.{IsWord};
ghost use Rattle.wscript.specs.Commands.{AskForm, DeclareForm, FeedForm, FloorForm, Form, GetForm, IsForm, ListForm, PutForm};
ghost use Rattle.wscript.specs.Commands.{RetireForm, TakeForm, line_of, pair_words, retire_words, take_words};
ghost use Rattle.wscript.specs.Headers.{IsHeaderOf, IsNumberRead, IsPairRead};
ghost use Rattle.wscript.specs.Requests.{body_length as length_of_body, follows_declaration as is_behind_declaration};
ghost use Rattle.wscript.specs.Requests.{keeps_body as is_body_kept};

use crate::numbers::{NodeNumber, SlotNumber};
use wlines::{is_word, split_word};
use wvalues::{Name, NameFault, number_word};

/// What a header line says: its node, the name that its words spell or why they spell none, and the length of
/// the body behind it.
#[derive(Clone, Copy, Debug)]
pub enum Header {
    /// `T`: the table, whose declaration has so many bytes.
    Declare(u32),
    /// `S`: a segment of so many bytes, under a name.
    Take(NodeNumber, Result<Name, NameFault>, u32),
    /// `R`: the retirement of a name.
    Retire(NodeNumber, Result<Name, NameFault>),
    /// `U`: the retirement of all names of an origin up to one.
    RetireTo(NodeNumber, Result<Name, NameFault>),
    /// `L`: what the node knows.
    List(NodeNumber),
    /// `Q`: a query of so many bytes.
    Ask(NodeNumber, u32),
    /// `F`: a piece of the node's delivery stream, of so many bytes.
    Feed(NodeNumber, u32),
    /// `P`: the node's exchange file is put into a slot.
    Put(NodeNumber, SlotNumber),
    /// `G`: the exchange file in a slot is joined into the node.
    Get(SlotNumber, NodeNumber),
}

/// The most bytes of a piece.
const LONGEST_PIECE: u32 = 67_108_864;

/// The most bytes of a declaration, and of a query's text.
const LONGEST_TEXT: u32 = 65_536;

/// The most bytes of a segment.
const LONGEST_SEGMENT: u32 = 67_108_864;

impl Header {
    /// Whether the table is declared before it.
    pub fn follows_declaration(&self) -> bool
        ensures { result ≡ is_behind_declaration self.now }
    {
        match *self {
            Header::Declare(_) => false,
            _ => true,
        }
    }

    /// The length of the body behind the line.
    pub fn body_length(&self) -> Option<u32>
        ensures { result ≡ length_of_body self.now }
    {
        match *self {
            Header::Declare(len) => Some(len),
            Header::Take(_, _, len) => Some(len),
            Header::Ask(_, len) => Some(len),
            Header::Feed(_, len) => Some(len),
            _ => None,
        }
    }

    /// Whether the body is kept: it is within its limit, and the words of its name spell one.
    pub fn keeps_body(&self) -> bool
        ensures { result ≡ is_body_kept self.now }
    {
        match *self {
            Header::Declare(len) => len <= LONGEST_TEXT,
            Header::Take(_, Ok(_), len) => len <= LONGEST_SEGMENT,
            Header::Ask(_, len) => len <= LONGEST_TEXT,
            Header::Feed(_, _) => true,
            _ => false,
        }
    }
}

// The number in front, and the words behind it.
fn split_number(words: &[u8]) -> Option<(u32, &[u8])>
    ensures found { IfSome result (λ parts. words.now ≡ decimal parts.0 ++ (32 ∷ parts.1.now)) }
    ensures only { (number : ℕ) (rest : List ℕ) → number < 2 ^ 32 → words.now ≡ decimal number ++ (32 ∷ rest)
        → IsSomeAnd result (λ parts. (parts.0 ≡ number) × (parts.1.now ≡ rest)) }
{
    let (first, rest) = split_word(words)?;
    let number = number_word(first)?;
    Some((number, rest))
}

// Two numbers.
fn two_numbers(words: &[u8]) -> Option<(u32, u32)>
    ensures found { IfSome result (λ pair. words.now ≡ pair_words pair.0 pair.1) }
    ensures only { (first second : ℕ) → first < 2 ^ 32 → second < 2 ^ 32 → words.now ≡ pair_words first second
        → result ≡ Some (first, second) }
{
    let (first, last) = split_number(words)?;
    let second = number_word(last)?;
    Some((first, second))
}

// The word in front, and the words behind it.
fn split_any(words: &[u8]) -> Option<(&[u8], &[u8])>
    ensures found { IfSome result (λ parts. IsWord parts.0.now × (words.now ≡ parts.0.now ++ (32 ∷ parts.1.now))) }
    ensures only { (word rest : List ℕ) → IsWord word → words.now ≡ word ++ (32 ∷ rest)
        → IsSomeAnd result (λ parts. (parts.0.now ≡ word) × (parts.1.now ≡ rest)) }
{
    let (first, rest) = split_word(words)?;
    if !is_word(first) {
        return None;
    }
    Some((first, rest))
}

// The words behind `T`.
fn declare_header(words: &[u8]) -> Option<Header>
    ensures { IsNumberRead DeclareForm words.now result }
{
    let len = number_word(words)?;
    Some(Header::Declare(len))
}

// The words behind `S`.
fn take_header(words: &[u8]) -> Option<Header>
    ensures found { IfSome result (λ h. (node : ℕ) × (origin : List ℕ) × (number : List ℕ) × (len : ℕ)
        × IsForm (TakeForm node origin number len) × IsHeaderOf h (TakeForm node origin number len)
        × (words.now ≡ take_words node origin number len)) }
    ensures only { (node : ℕ) (origin number : List ℕ) (len : ℕ) → IsForm (TakeForm node origin number len)
        → words.now ≡ take_words node origin number len → IsSomeAnd result (λ h. IsHeaderOf h (TakeForm node origin number len)) }
{
    let (first, rest) = split_number(words)?;
    let node = NodeNumber::new(first)?;
    let (origin, rest) = split_any(rest)?;
    let (number, last) = split_any(rest)?;
    let len = number_word(last)?;
    Some(Header::Take(node, Name::read(origin, number), len))
}

// The words behind `R` and `U`: the number of a node, and the words of a name.
fn node_and_name(words: &[u8]) -> Option<(NodeNumber, Result<Name, NameFault>)>
    ensures found { IfSome result (λ read. (origin : List ℕ) × (number : List ℕ) × IsForm (RetireForm read.0 origin number)
        × ReadsName origin number read.1 × (words.now ≡ retire_words read.0 origin number)) }
    ensures only { (node : ℕ) (origin number : List ℕ) → IsForm (RetireForm node origin number)
        → words.now ≡ retire_words node origin number → IsSomeAnd result (λ read. (node ≡ read.0) × ReadsName origin number read.1) }
{
    let (first, rest) = split_number(words)?;
    let node = NodeNumber::new(first)?;
    let (origin, number) = split_any(rest)?;
    if !is_word(number) {
        return None;
    }
    Some((node, Name::read(origin, number)))
}

// The words behind `R`.
fn retire_header(words: &[u8]) -> Option<Header>
    ensures found { IfSome result (λ h. (node : ℕ) × (origin : List ℕ) × (number : List ℕ)
        × IsForm (RetireForm node origin number) × IsHeaderOf h (RetireForm node origin number)
        × (words.now ≡ retire_words node origin number)) }
    ensures only { (node : ℕ) (origin number : List ℕ) → IsForm (RetireForm node origin number)
        → words.now ≡ retire_words node origin number → IsSomeAnd result (λ h. IsHeaderOf h (RetireForm node origin number)) }
{
    let (node, name) = node_and_name(words)?;
    Some(Header::Retire(node, name))
}

// The words behind `U`.
fn floor_header(words: &[u8]) -> Option<Header>
    ensures found { IfSome result (λ h. (node : ℕ) × (origin : List ℕ) × (number : List ℕ)
        × IsForm (FloorForm node origin number) × IsHeaderOf h (FloorForm node origin number)
        × (words.now ≡ retire_words node origin number)) }
    ensures only { (node : ℕ) (origin number : List ℕ) → IsForm (FloorForm node origin number)
        → words.now ≡ retire_words node origin number → IsSomeAnd result (λ h. IsHeaderOf h (FloorForm node origin number)) }
{
    let (node, name) = node_and_name(words)?;
    Some(Header::RetireTo(node, name))
}

// The words behind `L`.
fn list_header(words: &[u8]) -> Option<Header>
    ensures { IsNumberRead ListForm words.now result }
{
    let number = number_word(words)?;
    let node = NodeNumber::new(number)?;
    Some(Header::List(node))
}

// The words behind `Q`.
fn ask_header(words: &[u8]) -> Option<Header>
    ensures { IsPairRead AskForm words.now result }
{
    let (first, len) = two_numbers(words)?;
    let node = NodeNumber::new(first)?;
    Some(Header::Ask(node, len))
}

// The words behind `F`.
fn feed_header(words: &[u8]) -> Option<Header>
    ensures { IsPairRead FeedForm words.now result }
{
    let (first, len) = two_numbers(words)?;
    let node = NodeNumber::new(first)?;
    if len > LONGEST_PIECE {
        return None;
    }
    Some(Header::Feed(node, len))
}

// The words behind `P`.
fn put_header(words: &[u8]) -> Option<Header>
    ensures { IsPairRead PutForm words.now result }
{
    let (first, second) = two_numbers(words)?;
    let node = NodeNumber::new(first)?;
    let slot = SlotNumber::new(second)?;
    Some(Header::Put(node, slot))
}

// The words behind `G`.
fn get_header(words: &[u8]) -> Option<Header>
    ensures { IsPairRead GetForm words.now result }
{
    let (first, second) = two_numbers(words)?;
    let slot = SlotNumber::new(first)?;
    let node = NodeNumber::new(second)?;
    Some(Header::Get(slot, node))
}

/// What a header line says, where it is one.
pub fn read_header(line: &[u8]) -> Option<Header>
    ensures found { IfSome result (λ h. (f : Form) × IsForm f × IsHeaderOf h f × (line.now ≡ line_of f)) }
    ensures only { (f : Form) → IsForm f → line.now ≡ line_of f → IsSomeAnd result (λ h. IsHeaderOf h f) }
{
    match line {
        [b'T', b' ', words @ ..] => declare_header(words),
        [b'S', b' ', words @ ..] => take_header(words),
        [b'R', b' ', words @ ..] => retire_header(words),
        [b'U', b' ', words @ ..] => floor_header(words),
        [b'L', b' ', words @ ..] => list_header(words),
        [b'Q', b' ', words @ ..] => ask_header(words),
        [b'F', b' ', words @ ..] => feed_header(words),
        [b'P', b' ', words @ ..] => put_header(words),
        [b'G', b' ', words @ ..] => get_header(words),
        _ => None,
    }
}
