// The columns of a table as a definition sees them.
ghost use Rattle.std.specs.Prelude.{◌≡◌, [], if◌then◌else◌, not, OnOk, IfOk, ◌≤◌, length};
ghost use Rattle.hs_elements.specs.Columns as spec;
ghost use Rattle.hs_elements.specs.Faults.{least_of};

use crate::faults::Faults;
use hs_ast::Identifier;
use hs_base::NoMemory;
use hs_plan::Column;
use hs_values::SqlType;
use indexmap::IndexMap;
use std::alloc::Global;
use std::marker::Model;

/// Columns by name, each name once, in order. Contracts see their names with their types.
#[derive(Drop)]
pub struct Columns {
    types: IndexMap<String, SqlType>,
}

impl Model for Columns {
    ghost use Rattle.hs_elements.specs.Columns.{TypedNames};
    ghost use Rattle.hs_schema.specs.Texts.{texts};

    ghost Value = { TypedNames };

    ghost view = { λ c. texts c.types.entries };
}

impl Columns {
    /// None. Takes no memory.
    pub fn new(alloc: Global) -> Columns
        ensures { result ≡ [] }
    {
        Columns {
            types: IndexMap::new(alloc),
        }
    }

    /// How many there are.
    pub fn len(&self) -> usize
        ensures { result ≡ length self.now }
    {
        self.types.len()
    }

    /// Whether there is one of this name.
    pub fn has(&self, name: &str) -> bool
        ensures { result ≡ spec.has_column self.now name.now }
    {
        self.type_named(name).is_some()
    }

    /// The type of the column of a name.
    pub fn type_named(&self, name: &str) -> Option<SqlType>
        ensures { result ≡ spec.typed_as self.now name.now }
    {
        self.types.get(name).copied()
    }

    /// The place of the column of a name, from 0.
    pub fn place_of(&self, name: &str) -> Option<usize>
        ensures { result ≡ spec.place_in self.now name.now }
    {
        self.types.get_index_of(name)
    }

    /// Puts a column behind the others, where none has its name. An `Err` is want of memory.
    pub fn add(&mut self, alloc: Global, name: &str, data_type: SqlType) -> Result<(), NoMemory>
        ensures { OnOk result (self.new ≡ spec.with_column self.old name.now data_type) }
    {
        if self.has(name) {
            return Ok(());
        }
        let key = String::from_str(alloc, name)?;
        self.types.insert(key, data_type)?;
        Ok(())
    }

    /// The columns of a table of the catalogue. An `Err` is want of memory.
    pub fn of_table(alloc: Global, columns: &[Column]) -> Result<Columns, NoMemory>
        ensures { IfOk result (λ made. made ≡ spec.columns_of [] columns.now) }
    {
        let mut made = Columns::new(alloc);
        for column in columns {
            made.add(alloc, column.name.as_str(), column.data_type)?;
        }
        Ok(made)
    }

    /// Finds each name of a list that is no column's. An `Err` is want of memory.
    pub fn unknown(
        &self,
        alloc: Global,
        names: &[Identifier],
        faults: &mut Faults,
    ) -> Result<(), NoMemory>
        ensures { OnOk result (faults.new ≡ least_of faults.old (spec.unknown self.now names.now)) }
    {
        for name in names {
            if !self.has(name.name.as_str()) {
                faults.no_such_column(alloc, name)?;
            }
        }
        Ok(())
    }
}
