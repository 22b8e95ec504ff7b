//! Laws, which do nothing when they are called.
ghost use Rattle.wruns.specs.Differing.{KeptDiffer};
ghost use Rattle.wruns.specs.Orderings.{KeptInOrder, WindowInOrder};

/// An ordering of the table's rows, of which those are left that a condition keeps, is the ordering of the kept rows.
pub fn kept_rows_stay_in_order()
    ensures { KeptInOrder }
{}

/// A run by partition values and then by keys is the order of a window.
pub fn runs_order_windows()
    ensures { WindowInOrder }
{}

/// Where no two rows share their keys, no two of those that a condition keeps share them.
pub fn kept_rows_differ()
    ensures { KeptDiffer }
{}
