//! The laws of the rules. A function here does nothing when run: it is the proof of its contract.
ghost use Rattle.wnames.specs.Laws.{OperandsAsked};

/// What the rule on types asks of the operands of each form.
pub fn operands_asked()
    ensures { OperandsAsked }
{}
