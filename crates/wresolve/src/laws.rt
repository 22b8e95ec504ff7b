//! The laws of resolving. A function here does nothing when run: it is the proof of its contract.
ghost use Rattle.wresolve.specs.Laws.{GroupedAlike};

/// A query is made a grouped one just where the rules judge it as one.
pub fn grouped_alike()
    ensures { GroupedAlike }
{}
