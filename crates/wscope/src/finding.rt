//! What a test of a node answers.

ghost use Rattle.std.specs.Prelude.{◌≡◌, if◌then◌else◌};
ghost use Rattle.wscope.specs.declared.look.Look.TheVariants.{Found, Below};

use crate::look::Look;

/// Found where this holds, else to be looked for below.
pub fn found_if(holds: bool) -> Look
    ensures { result ≡ if holds then Found else Below }
{
    if holds { Look::Found } else { Look::Below }
}
