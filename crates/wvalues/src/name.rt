//! Names of segments.
ghost use Rattle.std.specs.Prelude.{◌≡◌, ◌<◌, ◌↔◌, ◌||◌, ◌&&◌, IsTrue};
ghost use Rattle.std.proofs.Common.{rules};
ghost use Rattle.std.specs.Cmp.{partial_order_from_own_ties, partial_equiv_from_equiv, eq_by_cmp_equiv};
ghost use Rattle.std.specs.Cmp.Rules.{comparing};
ghost use Rattle.std.specs.List.{list_all};
ghost use Rattle.std.specs.Ordering.{as_partial_cmp, eq_by_cmp};
ghost use Rattle.wvalues.specs.Names.{IsName, IsOrigin, is_origin_byte, name_cmp, names_total};
ghost use Rattle.wvalues.specs.NameReading.{ReadsName};

use crate::number::number_word;
use std::alloc::AllocError;
use std::cmp::Ordering;
use std::marker::Model;
use thiserror::Error;

/// The most bytes of an origin.
const LONGEST_ORIGIN: usize = 32;

/// The greatest number of a name.
const GREATEST_NUMBER: u32 = 999_999_999;

/// Why two words are no name. The origin is judged first.
#[derive(Clone, Copy, Debug, PartialEq, Eq, Error)]
pub enum NameFault {
    /// N1.
    #[error("an origin is 1 to 32 bytes of a-z, 0-9, _ and -")]
    BadOrigin,
    /// N2.
    #[error("a number is 1 to 999999999 without leading zeros")]
    BadNumber,
}

/// The name of a segment: an origin of 1 to 32 bytes of `a-z 0-9 _ -`, and a number from 1 to 999,999,999.
/// Names are ordered by the bytes of the origin, then by number.
#[derive(Debug)]
pub struct Name {
    origin: [u8; LONGEST_ORIGIN],
    len: usize,
    number: u32,
}

impl Model for Name {
    ghost use Rattle.wvalues.specs.Names.{NameParts, coded_name};

    ghost Value = { NameParts };

    ghost coded = { coded_name };

    ghost use Rattle.wvalues.specs.NameView.{parts_of, stored, IsStored};

    ghost view = { parts_of };

    ghost invariant = { IsStored };

    ghost inverse = { stored };

    ghost inverse_ok = { λ a h. h.back };
}

impl Clone for Name {
    ghost is_clone = { λ name copy. copy ≡ name };

    fn clone(&self) -> Result<Name, AllocError> {
        Ok(*self)
    }
}

impl Copy for Name {}

impl Ord for Name {
    ghost cmp = { name_cmp };

    ghost total = { names_total };

    ghost matches_partial_cmp = { Prim.search (comparing, rules) };

    ghost matches_eq = { Prim.search (comparing, rules) };

    fn cmp(&self, other: &Name) -> Ordering {
        self.origin()
            .cmp(other.origin())
            .then(self.number.cmp(&other.number))
    }
}

impl PartialOrd for Name {
    ghost partial_cmp = { as_partial_cmp name_cmp };

    ghost laws = { partial_order_from_own_ties (Prim.search (comparing, rules)) (Prim.search (comparing, rules)) };

    fn partial_cmp(&self, other: &Name) -> Option<Ordering> {
        Some(self.cmp(other))
    }
}

impl PartialEq for Name {
    ghost eq = { eq_by_cmp name_cmp };

    ghost laws = { partial_equiv_from_equiv (eq_by_cmp_equiv names_total) };

    fn eq(&self, other: &Name) -> bool {
        self.cmp(other).is_eq()
    }
}

impl Eq for Name {
    ghost laws = { eq_by_cmp_equiv names_total };
}

fn is_origin_byte(byte: u8) -> bool
    ensures { result ≡ is_origin_byte byte }
{
    byte.is_ascii_lowercase() || byte.is_ascii_digit() || byte == b'_' || byte == b'-'
}

fn are_origin_bytes(bytes: &[u8]) -> bool
    ensures { result ≡ list_all is_origin_byte bytes.now }
{
    bytes.iter().all(|byte| is_origin_byte(*byte))
}

fn is_origin(bytes: &[u8]) -> bool
    ensures { IsTrue result ↔ IsOrigin bytes.now }
{
    if bytes.is_empty() || bytes.len() > LONGEST_ORIGIN {
        return false;
    }
    are_origin_bytes(bytes)
}

impl Name {
    /// The name of an origin and a number that are one's words.
    fn new(origin: &[u8], number: u32) -> Name
        requires { IsName (record { origin = origin.now; number = number }) }
        ensures { result ≡ record { origin = origin.now; number = number } }
    {
        let len = origin.len();
        let mut bytes = [0u8; LONGEST_ORIGIN];
        bytes[..len].copy_from_slice(origin);
        Name {
            origin: bytes,
            len,
            number,
        }
    }

    /// The name that two words spell, or the first of them that is at fault.
    pub fn read(origin: &[u8], number: &[u8]) -> Result<Name, NameFault>
        ensures { ReadsName origin.now number.now result }
    {
        if !is_origin(origin) {
            return Err(NameFault::BadOrigin);
        }
        match number_word(number) {
            Some(number) if 0 < number && number <= GREATEST_NUMBER => Ok(Name::new(
                origin, number,
            )),
            _ => Err(NameFault::BadNumber),
        }
    }

    /// The origin's bytes.
    pub fn origin(&self) -> &[u8]
        ensures origin { result.now ≡ self.now.origin }
        ensures well_formed { IsName self.now }
    {
        &self.origin[..self.len]
    }

    /// The number, from 1 to 999,999,999.
    pub fn number(&self) -> u32
        ensures number { result ≡ self.now.number }
        ensures well_formed { IsName self.now }
    {
        self.number
    }
}
