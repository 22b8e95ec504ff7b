//! A column of a table.
ghost use Rattle.std.specs.Prelude.{◌≡◌};
ghost use Rattle.std.specs.String.{string_bytes};

use crate::kind::Kind;
use std::alloc::AllocError;
use std::marker::Model;

/// A column's name and what it holds.
#[derive(Debug, Drop)]
pub struct Column {
    name: String,
    kind: Kind,
}

impl Model for Column {
    ghost use Rattle.std.specs.String.{string_bytes};
    ghost use Rattle.wsegment.specs.Declaration.{Described, coded_described};

    ghost Value = { Described };

    ghost coded = { coded_described };

    ghost view = { λ a. record { name = string_bytes a.name; kind = a.kind } };
}

impl Clone for Column {
    ghost is_clone = { λ column copy. copy ≡ column };

    fn clone(&self) -> Result<Column, AllocError> {
        Ok(Column {
            name: self.name.clone()?,
            kind: self.kind,
        })
    }
}

impl Column {
    pub(crate) fn new(name: String, kind: Kind) -> Column
        ensures name { result.name ≡ string_bytes name }
        ensures kind { result.kind ≡ kind }
    {
        Column { name, kind }
    }

    /// The name: 1 to 63 bytes of `a-z 0-9 _`, of which the first is no digit.
    pub fn name(&self) -> &str
        ensures { result.now ≡ self.now.name }
    {
        self.name.as_str()
    }

    /// What the column holds.
    pub fn kind(&self) -> Kind
        ensures { result ≡ self.now.kind }
    {
        self.kind
    }
}
