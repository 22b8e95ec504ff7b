//! The laws of subcommands. These functions do nothing when run: they are the proofs of their contracts.
ghost use Rattle.wact.specs.Laws.{LongIsRefusedAlike, LongTableIsRefusedAlike, StoresActAlike};

/// Where CSV has more bytes than a segment may have, what is told of the first of them, more than so many, is told of all.
pub fn long_is_refused_alike()
    ensures { LongIsRefusedAlike }
{}

/// Where a table has more bytes than a declaration may have, what is told of the first of them, more than so many, is told of all.
pub fn long_table_is_refused_alike()
    ensures { LongTableIsRefusedAlike }
{}

/// Two stores of one view, wherever they stand and whatever bytes they have, as those of the older form, are told the same by the
/// same subcommand under one declaration, with the same status; and where it stores, they have the same bytes from then on.
pub fn stores_act_alike()
    ensures { StoresActAlike }
{}
