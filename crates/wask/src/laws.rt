//! The laws of answers. A function here does nothing when run: it is the proof of its contract.
ghost use Rattle.wask.specs.Laws.{AcceptedIsSound, OneAnswer};

/// A text has one answer on what is known, want of memory aside.
pub fn one_answer()
    ensures { OneAnswer }
{}

/// A query that breaks no rule resolves to a sound one, which is all that `execute` asks.
pub fn accepted_is_sound()
    ensures { AcceptedIsSound }
{}
