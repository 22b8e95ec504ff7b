//! Replies of fixed bytes.
ghost use Rattle.std.specs.Prelude.{◌≡◌};
ghost use Rattle.wreplies.specs.Spelling.{name_text, retired_text, table_text, taken_text};

use wsegment::SchemaFault;
use wset::{Retired, Taken};
use wvalues::NameFault;

/// What taking a segment did.
pub fn taken(word: Taken) -> &'static [u8]
    ensures { result.now ≡ taken_text word }
{
    match word {
        Taken::New => b"taken\n",
        Taken::Same => b"same\n",
        Taken::Disputed => b"disputed\n",
        Taken::Ignored => b"ignored\n",
    }
}

/// What retiring a name did, or all names of an origin up to one.
pub fn retired(word: Retired) -> &'static [u8]
    ensures { result.now ≡ retired_text word }
{
    match word {
        Retired::New => b"retired\n",
        Retired::Same => b"same\n",
    }
}

/// The refusal of a name.
pub fn refused_name(fault: NameFault) -> &'static [u8]
    ensures { result.now ≡ name_text fault }
{
    match fault {
        NameFault::BadOrigin => b"refused N1\n",
        NameFault::BadNumber => b"refused N2\n",
    }
}

/// The refusal of a declaration.
pub fn refused_table(fault: SchemaFault) -> &'static [u8]
    ensures { result.now ≡ table_text fault }
{
    match fault {
        SchemaFault::Syntax => b"refused T1\n",
        SchemaFault::RepeatedColumn => b"refused T2\n",
        SchemaFault::ColumnCount => b"refused T3\n",
        SchemaFault::NoMemory => b"no memory\n",
    }
}
