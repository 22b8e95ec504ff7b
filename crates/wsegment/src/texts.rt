//! Texts that were read lately, so that a column of few distinct texts keeps each once.
ghost use Rattle.std.specs.Prelude.{◌≡◌, ◌<◌, ◌≤◌, ◌^◌, ◌⊎◌, ℕ, [], All, IfOk, OnOk, OnErr, length, set};
ghost use Rattle.std.specs.Rc.{rc_str_bytes};

use std::alloc::{AllocError, Global};
use std::hash::{FoldHasher, Hasher};
use std::marker::Model;
use std::rc::RcStr;

/// The fewest texts that are kept.
const FEWEST: usize = 1 << 4;

/// The most texts that are kept.
const MOST: usize = 1 << 16;

/// For how many bytes of a segment there is a slot.
const BYTES_A_SLOT: usize = 1 << 4;

/// How many texts have to come again for a new one to be kept.
const PRICE: usize = 1 << 2;

/// The credit at first, for which 1,024 texts are kept.
const FIRST_CREDIT: usize = PRICE << 10;

/// Of the new texts that there is no credit for, one of so many is kept.
const KEPT_OF: usize = 1 << 4;

/// A text in each slot. In a contract it is the list of these texts.
///
/// To keep a text lets another one go that was not looked at for long, which takes more time than to make it. So where most
/// texts differ, few are kept.
#[derive(Drop)]
pub(crate) struct Texts {
    slots: Vec<RcStr>,
    last: usize,
    // how many texts came again, less the price of those that were kept
    credit: usize,
    // how many texts were new while there was no credit
    passed: usize,
}

impl Model for Texts {
    ghost use Rattle.std.specs.Prelude.{◌<◌, ℕ, List, length, map};
    ghost use Rattle.std.specs.Rc.{rc_str_bytes};

    ghost Value = { List (List ℕ) };

    ghost view = { λ texts. map rc_str_bytes texts.slots.items };

    ghost invariant = { λ texts. texts.last < length texts.slots.items };
}

// The number of the last slot, where so many bytes are read. The number of slots is a power of two.
fn last_slot(bytes: usize) -> usize
    ensures { result < 2 ^ 17 }
{
    let mut count = FEWEST;
    while count < MOST && count < bytes / BYTES_A_SLOT {
        count *= 2;
    }
    count - 1
}

// The slot of a text, by a hash of its bytes.
fn slot_of(text: &[u8], last: usize) -> usize
    ensures { result ≤ last }
{
    let mut hasher = FoldHasher::default();
    hasher.write(text);
    hasher.finish() as usize & last
}

impl Texts {
    /// Slots of empty texts, for a segment of so many bytes: 16 at least, and 65,536 at most.
    pub(crate) fn new(alloc: Global, bytes: usize) -> Result<Texts, AllocError>
        ensures { IfOk result (λ texts. All (λ text. text ≡ []) texts) }
    {
        let last = last_slot(bytes);
        let empty = RcStr::from_str(alloc, "")?;
        let mut slots = Vec::with_capacity(alloc, last + 1)?;
        'slots: while slots.len() <= last {
            slots.push(empty.clone()?)?;
        }
        Ok(Texts {
            slots,
            last,
            credit: FIRST_CREDIT,
            passed: 0,
        })
    }

    // Whether a new text is kept.
    fn is_kept(&mut self) -> bool
        ensures { self.new ≡ self.old }
    {
        if self.credit >= PRICE {
            self.credit -= PRICE;
            return true;
        }
        self.passed = self.passed.wrapping_add(1);
        self.passed % KEPT_OF == 0
    }

    /// A text of these bytes, which may stand in one slot then, whatever stood there; the others stay. Where an equal
    /// text stands in its slot already it is that one, of which no byte is copied: the contract tells the bytes alone.
    /// Where memory runs out nothing has changed.
    pub(crate) fn shared(&mut self, alloc: Global, text: &str) -> Result<RcStr, AllocError>
        ensures text { IfOk result (λ shared. rc_str_bytes shared ≡ text.now) }
        ensures slots { OnOk result ((self.new ≡ self.old) ⊎ ((slot : ℕ) × (slot < length self.old)
            × (self.new ≡ set self.old slot text.now))) }
        ensures err { OnErr result (self.new ≡ self.old) }
    {
        let slot = slot_of(text.as_bytes(), self.last);
        let kept = &self.slots[slot];
        if kept.as_str() == text {
            let shared = kept.clone()?;
            self.credit = self.credit.saturating_add(1);
            return Ok(shared);
        }
        let fresh = RcStr::from_str(alloc, text)?;
        if self.is_kept() {
            self.slots[slot] = fresh.clone()?;
        }
        Ok(fresh)
    }
}
