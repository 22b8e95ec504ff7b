//! Calls that are added to a set, and found in it.

ghost use Rattle.std.specs.Prelude.{◌≡◌, ◌≤◌, ◌^◌, ◌∷◌, [], length, false, unwrap_or, IfOk, OnErr, OnOk};
ghost use Rattle.std.specs.List.{list_any};
ghost use Rattle.wquery.specs.Tree.{view_call};
ghost use Rattle.wnodes.specs.Sameness.{is_same};
ghost use Rattle.wdistinct.specs.Calls.{call_trees, with_new};
ghost use Rattle.wdistinct.specs.Places.{calls_in, has_call_of, place_of_same, with_key};

use crate::call_key::CallKey;
use crate::call_set::CallSet;
use indexmap::IndexSet;
use std::alloc::{AllocError, Global};
use wquery::Call;

/// The most calls of a set: more than any memory holds, and few enough that two places and a width are a number.
const MOST_CALLS: usize = 1 << 62;

// Keeps a key behind the others, where none of them is equal to it.
fn keep<'a>(keys: &mut IndexSet<CallKey<'a>>, key: CallKey<'a>) -> Result<(), AllocError>
    requires { length keys.old.keys ≤ 2 ^ 62 }
    ensures ok { OnOk result (keys.new.keys ≡ with_key keys.old.keys key.entry) }
    ensures err { OnErr result (keys.new.keys ≡ keys.old.keys) }
    ensures other { OnErr result (list_any (has_call_of key.entry) keys.old.keys ≡ false) }
    ensures few { length keys.new.keys ≤ 2 ^ 62 }
{
    if keys.len() >= MOST_CALLS && !keys.contains(&key) {
        return Err(AllocError);
    }
    match keys.insert(key) {
        Ok(_) => Ok(()),
        Err(_) => Err(AllocError),
    }
}

// The place that was found, or else the number of calls.
fn place_or(found: Option<usize>, count: usize) -> usize
    ensures { result ≡ unwrap_or found count }
{
    match found {
        Some(place) => place,
        None => count,
    }
}

impl<'a> CallSet<'a> {
    /// No calls.
    pub fn new(alloc: Global) -> CallSet<'a>
        ensures { calls_in result ≡ [] }
    {
        CallSet {
            keys: IndexSet::new(alloc),
        }
    }

    /// Adds a call, where none so far is equal to it. Only such a call asks for memory; where memory runs out the set is
    /// as it was.
    pub fn add(&mut self, call: &'a Call) -> Result<(), AllocError>
        ensures ok { OnOk result (calls_in self.new ≡ with_new (calls_in self.old) (view_call call.now ∷ [])) }
        ensures err { OnErr result (calls_in self.new ≡ calls_in self.old) }
        ensures other { OnErr result (list_any (λ u. is_same u (view_call call.now)) (calls_in self.old) ≡ false) }
    {
        keep(&mut self.keys, CallKey { call })
    }

    /// The number of calls.
    #[tactic(auto, unfolding(crate::specs::Places::calls_in))]
    pub fn len(&self) -> usize
        ensures { result ≡ length (calls_in self.now) }
    {
        self.keys.len()
    }

    /// The place of the call that is equal to this one, or the number of calls.
    pub fn place(&self, call: &Call) -> usize
        ensures place { result ≡ place_of_same (calls_in self.now) (view_call call.now) }
        ensures few { result ≤ 2 ^ 62 }
    {
        place_or(self.keys.get_index_of(&CallKey { call }), self.keys.len())
    }

    /// The calls in their order.
    #[tactic(auto, unfolding(crate::specs::Places::calls_in))]
    pub fn listed(&self, alloc: Global) -> Result<Vec<&'a Call>, AllocError>
        ensures { IfOk result (λ calls. call_trees calls.items ≡ calls_in self.now) }
    {
        let mut calls = Vec::with_capacity(alloc, self.keys.len())?;
        'keys: for key in self.keys.as_slice() {
            calls.push(key.call)?;
        }
        Ok(calls)
    }
}
