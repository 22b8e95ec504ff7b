//! The laws of what words stand for. A function here does nothing when run: it is the proof of its contract.
ghost use Rattle.wscope.specs.Laws.{TypesGiven};

/// What the type of each form of expression is.
pub fn types_given()
    ensures { TypesGiven }
{}
