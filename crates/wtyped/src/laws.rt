//! The laws of accepted queries. A function here does nothing when run: it is the proof of its contract.
ghost use Rattle.wtyped.specs.Bounded.{AcceptedIsBounded};
ghost use Rattle.wtyped.specs.Calls.{EqualIsOne};
ghost use Rattle.wtyped.specs.Exact.{TypedIsExact};
ghost use Rattle.wtyped.specs.Laws.{AcceptedIsTyped};
ghost use Rattle.wtyped.specs.Running.{AcceptedRunsTyped};
ghost use Rattle.wtyped.specs.Scoped.{AcceptedIsScoped};
ghost use Rattle.wtyped.specs.Spelled.{SpelledIsShaped};

use wgroupby::sets_are_counted;

/// An expression of a type comes to a value of that type, or out of range, on each row whose cells have their types; and
/// nothing stands in for an operand of another type, nor for a cell that the row lacks.
pub fn typed_is_exact()
    ensures { TypedIsExact }
{}

/// A query of the shapes of the grammar that no rule refuses is well typed: over the declared table, each place in it is one of
/// its row, each operand has a type that its operator takes, and the rows of its answer have the types of its columns.
pub fn accepted_is_typed()
    ensures { AcceptedIsTyped }
{}

/// All that a query evaluates that no rule refuses, on the live rows of any set of the declaration, comes to what it does where
/// nothing stands in for anything: on each row that a SELECT makes, kept or of a group, with what the calls answer behind its
/// cells, and on those of derived tables. The rows of its answer have the types of its columns.
pub fn accepted_runs_typed()
    ensures { AcceptedRunsTyped }
{}

/// Equal expressions are one over a row, and equal calls one function over one window; so each is computed once.
pub fn equal_is_one()
    ensures { EqualIsOne }
{}

/// In a query that no rule refuses, FROM names the table, each column reference the one column of its name, each call is a
/// function in one of its forms, each window name one entry or one before it, and each key of ORDER BY an item's place, the one
/// value of its name, or an expression that is no literal. Nothing that is written is passed over.
pub fn accepted_is_scoped()
    ensures { AcceptedIsScoped }
{}

/// The query that a text spells has the shapes that `accepted_is_typed` asks for.
pub fn spelled_is_shaped()
    ensures { SpelledIsShaped }
{}

/// A query that no rule refuses asks for at most 64 items and 64 sets of GROUP BY, 32 windows, 16 entries in each PARTITION BY,
/// ORDER BY and list of GROUP BY, and 8 derived tables one in another.
pub fn accepted_is_bounded()
    ensures { AcceptedIsBounded }
{
    sets_are_counted();
}
