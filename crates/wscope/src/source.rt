//! The columns of a source.
ghost use Rattle.std.specs.Prelude.{◌≡◌};
ghost use Rattle.wscope.specs.Scope.{has_name};
ghost use Rattle.wscope.specs.Sources.{titled};

use crate::data_type::DataType;
use crate::naming::is_same_name;
use std::rc::RcStr;

/// A column of a source: of the declared table, or of a derived table.
#[derive(Drop)]
pub struct SourceColumn {
    pub name: RcStr,
    pub data_type: DataType,
}

impl SourceColumn {
    /// Whether it has this name.
    pub fn has_name(&self, name: &str) -> bool
        ensures { result ≡ has_name name.now (titled self.now) }
    {
        is_same_name(self.name.as_str(), name)
    }
}
