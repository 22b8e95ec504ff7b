//! What stands beside the expressions of a chain, of an order and of a window.

ghost use Rattle.std.specs.Prelude.{◌≡◌, fold};
ghost use Rattle.std.specs.Cmp.{on_equiv, partial_equiv_from_equiv};
ghost use Rattle.wquery.specs.Tree.{view_key, view_link};
ghost use Rattle.wnodes.specs.Bounds.{place_of_bound};
ghost use Rattle.wnodes.specs.Sameness.{are_same_keys, are_same_links, offset_in, same_frame as is_same_frame};
ghost use Rattle.wnodes.specs.Heads.{said_keys, said_links, is_same_mark, is_same_sort};
ghost use Rattle.wnodes.specs.Hashed.{written_frame, written_keys, written_links};
ghost use Rattle.wnodes.specs.Plain.{frames_equiv, keys_equiv, links_equiv};
ghost use Rattle.wnodes.specs.Alike.{frames_written, keys_written, links_written};

use crate::bounds::{bound_place, frame_end};
use crate::numbers::{
    bound_offset, exclusion_number, mode_number, nulls_number, operator_number, same_flag,
    same_frame,
};
use std::hash::{Hash, Hasher};
use wquery::{Frame, FrameBound, Key, Link};

/// The operators of a chain, from the first on.
#[derive(Clone, Copy, Drop)]
pub(crate) struct Operators<'a> {
    pub(crate) links: &'a [Link],
}

/// How each key of an order sorts, from the first on. ASC is as nothing.
#[derive(Clone, Copy, Drop)]
pub(crate) struct OrderMarks<'a> {
    pub(crate) keys: &'a [Key],
}

/// A frame clause, or none. An end that is left out is CURRENT ROW, and EXCLUDE NO OTHERS is as nothing.
#[derive(Clone, Copy, Drop)]
pub(crate) struct FrameMark<'a> {
    pub(crate) frame: &'a Option<Frame>,
}

#[tactic(auto, unfolding(wquery::specs::Tree::view_link))]
fn same_operator(a: &Link, b: &Link) -> bool
    ensures { result ≡ is_same_mark (view_link a.now) (view_link b.now) }
{
    operator_number(a.operator) == operator_number(b.operator)
}

fn same_operators(a: &[Link], b: &[Link]) -> bool
    ensures { result ≡ are_same_links (said_links a.now) (said_links b.now) }
{
    let mut place = 0;
    'links: for x in a {
        if place >= b.len() || !same_operator(x, &b[place]) {
            return false;
        }
        place += 1;
    }
    place >= b.len()
}

#[tactic(auto, unfolding(wquery::specs::Tree::view_key))]
fn same_sort(a: &Key, b: &Key) -> bool
    ensures { result ≡ is_same_sort (view_key a.now) (view_key b.now) }
{
    same_flag(a.descending, b.descending) && nulls_number(a.nulls) == nulls_number(b.nulls)
}

fn same_sorts(a: &[Key], b: &[Key]) -> bool
    ensures { result ≡ are_same_keys (said_keys a.now) (said_keys b.now) }
{
    let mut place = 0;
    'keys: for x in a {
        if place >= b.len() || !same_sort(x, &b[place]) {
            return false;
        }
        place += 1;
    }
    place >= b.len()
}

// Where a list ends: no operator has this number.
const LIST_END: u8 = 12;

#[tactic(auto, using(crate::proofs::Written::operators), unfolding(wquery::specs::Tree::view_link))]
fn hash_operators<H: Hasher>(links: &[Link], state: &mut H)
    ensures { state.new ≡ fold H.write state.old (written_links (said_links links.now)) }
{
    'links: for link in links {
        operator_number(link.operator).hash(state);
    }
    LIST_END.hash(state);
}

#[tactic(auto, unfolding(wquery::specs::Tree::view_key))]
fn hash_sorts<H: Hasher>(keys: &[Key], state: &mut H)
    ensures { state.new ≡ fold H.write state.old (written_keys (said_keys keys.now)) }
{
    'keys: for key in keys {
        (key.descending, nulls_number(key.nulls)).hash(state);
    }
    LIST_END.hash(state);
}

fn bound_mark(bound: &FrameBound) -> (u8, u128)
    ensures { result ≡ (place_of_bound bound.now, offset_in bound.now) }
{
    (bound_place(bound), bound_offset(bound))
}

fn hash_frame<H: Hasher>(frame: &Option<Frame>, state: &mut H)
    ensures { state.new ≡ fold H.write state.old (written_frame frame.now) }
{
    match frame {
        None => 0u8.hash(state),
        Some(frame) => {
            let start = bound_mark(&frame.start);
            let end = bound_mark(&frame_end(frame));
            let mode = mode_number(frame.mode);
            (1u8, mode, start, end, exclusion_number(frame.exclusion)).hash(state);
        }
    }
}

impl<'a> PartialEq for Operators<'a> {
    ghost eq = { λ a b. are_same_links (said_links a.links.now) (said_links b.links.now) };

    ghost laws = { partial_equiv_from_equiv (on_equiv (λ marks. said_links marks.links.now) links_equiv) };

    fn eq(&self, other: &Operators<'a>) -> bool {
        same_operators(self.links, other.links)
    }
}

impl<'a> Eq for Operators<'a> {
    ghost laws = { on_equiv (λ marks. said_links marks.links.now) links_equiv };
}

impl<'a> Hash for Operators<'a> {
    ghost hash_input = { λ marks. written_links (said_links marks.links.now) };

    ghost respects_eq = { λ x y same. links_written (said_links x.links.now) (said_links y.links.now) same };

    fn hash<H: Hasher>(&self, state: &mut H) {
        hash_operators(self.links, state);
    }
}

impl<'a> PartialEq for OrderMarks<'a> {
    ghost eq = { λ a b. are_same_keys (said_keys a.keys.now) (said_keys b.keys.now) };

    ghost laws = { partial_equiv_from_equiv (on_equiv (λ marks. said_keys marks.keys.now) keys_equiv) };

    fn eq(&self, other: &OrderMarks<'a>) -> bool {
        same_sorts(self.keys, other.keys)
    }
}

impl<'a> Eq for OrderMarks<'a> {
    ghost laws = { on_equiv (λ marks. said_keys marks.keys.now) keys_equiv };
}

impl<'a> Hash for OrderMarks<'a> {
    ghost hash_input = { λ marks. written_keys (said_keys marks.keys.now) };

    ghost respects_eq = { λ x y same. keys_written (said_keys x.keys.now) (said_keys y.keys.now) same };

    fn hash<H: Hasher>(&self, state: &mut H) {
        hash_sorts(self.keys, state);
    }
}

impl<'a> PartialEq for FrameMark<'a> {
    ghost eq = { λ a b. is_same_frame a.frame.now b.frame.now };

    ghost laws = { partial_equiv_from_equiv (on_equiv (λ mark. mark.frame.now) frames_equiv) };

    fn eq(&self, other: &FrameMark<'a>) -> bool {
        same_frame(self.frame, other.frame)
    }
}

impl<'a> Eq for FrameMark<'a> {
    ghost laws = { on_equiv (λ mark. mark.frame.now) frames_equiv };
}

impl<'a> Hash for FrameMark<'a> {
    ghost hash_input = { λ mark. written_frame mark.frame.now };

    ghost respects_eq = { λ x y same. frames_written x.frame.now y.frame.now same };

    fn hash<H: Hasher>(&self, state: &mut H) {
        hash_frame(self.frame, state);
    }
}
