//! A table's declaration as it is read, and the text that spells it.
ghost use Rattle.std.specs.Prelude.{◌≡◌, ◌<◌, ◌↔◌, Err, IsTrue, IfOk, IfSome, MatchResult, length};
ghost use Rattle.wsegment.specs.Declaration.{Declaration, declaration_text, place_of};
ghost use Rattle.wsegment.specs.Spelling.{IsDeclaration, ReadsDeclaration};
ghost use Rattle.wsegment.specs.declared.schema_fault.SchemaFault.TheVariants.{NoMemory};

use crate::column::Column;
use crate::schema_fault::SchemaFault;
use crate::spelling::{columns_of, has_repeated, table_at};
use std::alloc::{AllocError, Global};
use std::marker::Model;
use std::rc::Rc;

/// The most bytes of a declaration.
const MAX_BYTES: usize = 65_536;

/// The most columns of a table.
const MAX_COLUMNS: usize = 64;

/// What a text declares, with this text.
#[derive(Debug, Drop)]
pub(crate) struct Declared {
    pub(crate) text: Vec<u8>,
    pub(crate) table: String,
    pub(crate) columns: Vec<Column>,
}

/// A table's name and its 1 to 64 columns, whose names differ, with the one text that declares them. Its copies share them.
#[derive(Debug, Drop)]
pub struct Schema {
    declared: Rc<Declared>,
}

impl Model for Schema {
    ghost use Rattle.wsegment.specs.Declaration.{Declaration, coded_declaration};

    ghost Value = { Declaration };

    ghost coded = { coded_declaration };

    ghost use Rattle.wsegment.specs.KeptSchema.{IsKept, declaration_of};

    ghost view = { declaration_of };

    ghost invariant = { IsKept };
}

impl Schema {
    /// The declaration that bytes spell: `table NAME`, then `NAME integer` or `NAME text` for each column, each
    /// line ended by LF. A fault of the form comes before a repeated name, and that before a wrong number of columns.
    /// Bytes of more than a declaration may have take no memory.
    pub fn read(alloc: Global, bytes: &[u8]) -> Result<Schema, SchemaFault>
        ensures reads { ReadsDeclaration bytes.now result }
        ensures long { 65536 < length bytes.now → result ≡ Err SchemaFault.Syntax }
        ensures only { (d : Declaration) → IsDeclaration d → bytes.now ≡ declaration_text d
            → MatchResult result (λ schema. schema ≡ d) (λ fault. fault ≡ NoMemory) }
    {
        if bytes.len() > MAX_BYTES {
            return Err(SchemaFault::Syntax);
        }
        let Some((table, rest)) = table_at(alloc, bytes)? else {
            return Err(SchemaFault::Syntax);
        };
        let Some(columns) = columns_of(alloc, rest)? else {
            return Err(SchemaFault::Syntax);
        };
        let is_repeated = has_repeated(alloc, &columns)?;
        if is_repeated {
            return Err(SchemaFault::RepeatedColumn);
        }
        if columns.is_empty() || columns.len() > MAX_COLUMNS {
            return Err(SchemaFault::ColumnCount);
        }
        let text = Vec::from_slice(alloc, bytes)?;
        let declared = Declared {
            text,
            table,
            columns,
        };
        let Ok(declared) = Rc::new(alloc, declared) else {
            return Err(SchemaFault::NoMemory);
        };
        Ok(Schema { declared })
    }

    /// An equal schema. It shares all with this one: nothing is copied, and the only fault is of one that is shared too often.
    pub fn copy(&self) -> Result<Schema, AllocError>
        ensures { IfOk result (λ copied. copied ≡ self.now) }
    {
        let declared = self.declared.clone()?;
        Ok(Schema { declared })
    }

    /// Whether another schema declares the same table.
    pub fn is_same(&self, other: &Schema) -> bool
        ensures { IsTrue result ↔ (self.now ≡ other.now) }
    {
        self.text() == other.text()
    }

    /// The text of the declaration. `Schema::read` of it gives the schema again.
    pub fn text(&self) -> &[u8]
        ensures text { result.now ≡ declaration_text self.now }
        ensures well_formed { IsDeclaration self.now }
    {
        self.declared.as_ref().text.as_slice()
    }

    /// The table's name.
    pub fn table(&self) -> &str
        ensures { result.now ≡ self.now.table }
    {
        self.declared.as_ref().table.as_str()
    }

    /// The columns, in the order of the declaration.
    pub fn columns(&self) -> &[Column]
        ensures columns { result.now ≡ self.now.columns }
        ensures well_formed { IsDeclaration self.now }
    {
        self.declared.as_ref().columns.as_slice()
    }

    /// The place of the column of this name, counted from 0.
    pub fn find(&self, name: &str) -> Option<usize>
        ensures place { result ≡ place_of name.now self.now.columns }
        ensures in_range { IfSome result (λ place. place < length self.now.columns) }
    {
        self.columns()
            .iter()
            .position(|column| column.name() == name)
    }
}
