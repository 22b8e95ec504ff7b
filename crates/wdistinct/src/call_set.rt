//! Sets of calls.

ghost use Rattle.std.specs.Prelude.{◌≤◌, ◌^◌, length};

use crate::call_key::CallKey;
use indexmap::IndexSet;

/// Calls, each once, in the order in which they were added.
#[derive(Drop)]
pub struct CallSet<'a> {
    pub(crate) keys: IndexSet<CallKey<'a>>,
    ghost few: { length keys.keys ≤ 2 ^ 62 },
}
