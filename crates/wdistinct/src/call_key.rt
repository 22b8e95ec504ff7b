//! Calls as they are told from one another.

ghost use Rattle.std.specs.Cmp.{on_equiv, partial_equiv_from_equiv};
ghost use Rattle.std.specs.Hash as fed;
ghost use Rattle.std.proofs.Common.{ap};
ghost use Rattle.wquery.specs.Tree.{view_call};
ghost use Rattle.wnodes.specs.Sameness.{is_same};
ghost use Rattle.wnodes.specs.Sketch.{sketch_of};
ghost use Rattle.wnodes.specs.Plain.{same_equiv};
ghost use Rattle.wnodes.proofs.SketchLaws.{same_sketch};

use std::hash::{Hash, Hasher};
use wnodes::{same_call, sketch};
use wquery::Call;

/// A call, which is equal to the calls that say the same.
#[derive(Clone, Copy, Drop)]
pub(crate) struct CallKey<'a> {
    pub(crate) call: &'a Call,
}

impl<'a> PartialEq for CallKey<'a> {
    ghost eq = { λ a b. is_same (view_call a.call.now) (view_call b.call.now) };

    ghost laws = { partial_equiv_from_equiv (on_equiv (λ key. view_call key.call.now) same_equiv) };

    fn eq(&self, other: &CallKey<'a>) -> bool {
        same_call(self.call, other.call)
    }
}

impl<'a> Eq for CallKey<'a> {
    ghost laws = { on_equiv (λ key. view_call key.call.now) same_equiv };
}

impl<'a> Hash for CallKey<'a> {
    ghost hash_input = { λ key. fed.u64 (sketch_of (view_call key.call.now)) };

    ghost respects_eq = { λ x y same. ap fed.u64 (same_sketch (view_call x.call.now) (view_call y.call.now) same) };

    fn hash<H: Hasher>(&self, state: &mut H) {
        state.write_u64(sketch(self.call));
    }
}
