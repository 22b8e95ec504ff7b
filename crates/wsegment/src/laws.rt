//! Laws of the definitions. These functions do nothing when they run.
ghost use Rattle.std.specs.Prelude.{◌≡◌, ℕ, List, Ok, Err};
ghost use Rattle.wvalues.specs.Meaning.{Meaning};
ghost use Rattle.wsegment.specs.Declaration.{Declaration};
ghost use Rattle.wsegment.specs.Rows.{rows_of};
ghost use Rattle.wsegment.specs.Spelling.{Spells};
ghost use Rattle.wsegment.specs.Table.{IsTable};
ghost use Rattle.wsegment.specs.declared.fault.SegmentFault.TheVariants.{NoMemory};

/// No bytes spell two declarations.
pub fn one_spelling()
    ensures { (d e : Declaration) (bytes : List ℕ) → Spells d bytes → Spells e bytes → d ≡ e }
{}

/// Want of memory is no fault of bytes.
pub fn rows_need_no_memory()
    ensures { (d : Declaration) (bytes : List ℕ) → rows_of d bytes ≡ Err NoMemory → ⊥ }
{}

/// A segment's rows stand under a header that names each column: in a row and a column stands what the field under
/// the column's name says.
pub fn values_stand_under_their_names()
    ensures { (d : Declaration) (bytes : List ℕ) (rows : List (List Meaning)) → rows_of d bytes ≡ Ok rows → IsTable d bytes rows }
{}
