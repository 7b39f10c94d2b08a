// The columns of a definition's text.
ghost use Rattle.std.specs.Prelude.{◌≡◌, ◌++◌, ◌∷◌, [], IfOk, OnOk};
ghost use Rattle.hs_elements.specs.Columns.{columns_of};
ghost use Rattle.hs_outlines.specs.Columns as spec;
ghost use Rattle.hs_outlines.specs.Elements.{elements_of};
ghost use Rattle.hs_typed.specs.Faults.{noted};

use crate::element::Elements;
use crate::notes::note_where_taken;
use hs_ast::{ColumnDefinition, DefaultValue, TableElement};
use hs_base::NoMemory;
use hs_elements::{Columns, default_value};
use hs_meaning::note_types;
use hs_plan::Column;
use hs_typed::{Faults, sql_type};
use hs_values::{Name, SqlType, Value};
use sqlite_items::Items;
use std::alloc::Global;

/// The columns of a table with those that a definition adds.
#[derive(Drop)]
pub struct AllColumns {
    pub columns: Items<Column>,
    /// The same columns by their names.
    pub names: Columns,
}

// What is written behind DEFAULT, as a value of the type. A literal that can't be assigned is noted.
fn default_of(
    data_type: &SqlType,
    default: &Option<DefaultValue>,
    faults: &mut Faults,
    alloc: Global,
) -> Result<Option<Value>, NoMemory>
    ensures value { IfOk result (λ value. value ≡ spec.default_value data_type.now default.now) }
    ensures noted { OnOk result (faults.new ≡ noted faults.old (spec.default_faults data_type.now default.now)) }
{
    let Some(default) = default else {
        return Ok(None);
    };
    let value = default_value(alloc, data_type, &default.literal)?;
    if value.is_none() {
        note_types(default.at, faults);
    }
    Ok(value)
}

fn column_of(c: &ColumnDefinition, faults: &mut Faults, alloc: Global) -> Result<Column, NoMemory>
    ensures column { IfOk result (λ column. column ≡ spec.column_of c.now) }
    ensures noted { OnOk result (faults.new ≡ noted faults.old (spec.default_faults (spec.type_of c.now) c.now.default)) }
{
    let data_type = sql_type(c.data_type);
    Ok(Column {
        name: Name::from_text(alloc, c.name.name.as_str())?,
        data_type,
        default: default_of(&data_type, &c.default, faults, alloc)?,
    })
}

impl AllColumns {
    /// Those of a table, copied, or none. An `Err` is want of memory.
    pub fn of_table(columns: &[Column], alloc: Global) -> Result<AllColumns, NoMemory>
        ensures { IfOk result (λ made. made ≡ record { columns = columns.now; names = columns_of [] columns.now }) }
    {
        let mut copied = Items::new(alloc);
        for column in columns {
            copied.push(column.copy()?)?;
        }
        Ok(AllColumns {
            columns: copied,
            names: Columns::of_table(alloc, columns)?,
        })
    }

    // Puts a column behind the others.
    fn add(
        &mut self,
        c: &ColumnDefinition,
        faults: &mut Faults,
        alloc: Global,
    ) -> Result<(), NoMemory>
        ensures columns { OnOk result (self.new.columns ≡ self.old.columns ++ spec.column_of c.now ∷ []) }
        ensures names { OnOk result (self.new.names ≡ spec.with_definition self.old.names c.now) }
        ensures noted { OnOk result (faults.new ≡ noted faults.old (spec.column_faults self.old.names c.now)) }
    {
        let name = c.name.name.as_str();
        let taken = self.names.has(name);
        note_where_taken(taken, &c.name, faults, alloc)?;
        let column = column_of(c, faults, alloc)?;
        self.names.add(alloc, name, column.data_type)?;
        self.columns.push(column)?;
        Ok(())
    }

    fn add_element(
        &mut self,
        element: &TableElement,
        faults: &mut Faults,
        alloc: Global,
    ) -> Result<(), NoMemory>
        ensures columns { OnOk result (self.new.columns ≡ self.old.columns ++ spec.columns_written (element.now ∷ [])) }
        ensures names { OnOk result (self.new.names ≡ spec.names_after self.old.names (spec.column_in element.now)) }
        ensures noted { OnOk result (faults.new ≡ noted faults.old (spec.columns_faults self.old.names (spec.column_in element.now))) }
    {
        match element {
            TableElement::Column(c) => self.add(c, faults, alloc),
            TableElement::Constraint(_) => Ok(()),
        }
    }

    fn add_all(
        &mut self,
        all: &[TableElement],
        faults: &mut Faults,
        alloc: Global,
    ) -> Result<(), NoMemory>
        ensures columns { OnOk result (self.new.columns ≡ self.old.columns ++ spec.columns_written all.now) }
        ensures names { OnOk result (self.new.names ≡ spec.names_after self.old.names (spec.definitions all.now)) }
        ensures noted { OnOk result (faults.new ≡ noted faults.old (spec.columns_faults self.old.names (spec.definitions all.now))) }
    {
        for element in all {
            self.add_element(element, faults, alloc)?;
        }
        Ok(())
    }

    /// Puts the columns of a text behind the others. A name that stands before already is noted, and a literal behind DEFAULT
    /// that can't be assigned. An `Err` is want of memory.
    pub fn add_written(
        &mut self,
        elements: Elements<'_>,
        faults: &mut Faults,
        alloc: Global,
    ) -> Result<(), NoMemory>
        ensures columns { OnOk result (self.new.columns ≡ self.old.columns ++ spec.columns_written (elements_of elements.entry)) }
        ensures names { OnOk result (self.new.names ≡ spec.names_after self.old.names (spec.definitions (elements_of elements.entry))) }
        ensures noted { OnOk result (faults.new ≡ noted faults.old (spec.columns_faults self.old.names (spec.definitions (elements_of elements.entry)))) }
    {
        match elements {
            Elements::All(all) => self.add_all(all, faults, alloc),
            Elements::Column(c) => self.add(c, faults, alloc),
            Elements::Constraint(_) => Ok(()),
        }
    }
}
