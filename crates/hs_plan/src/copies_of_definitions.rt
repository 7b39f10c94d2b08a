// Copies of definitions and changes.
ghost use Rattle.std.specs.Prelude.{◌≡◌, IfOk};

use crate::change::Change;
use crate::definition::{Column, Constraint, Definition, ForeignKey, Rule};
use hs_values::Value;
use sqlite_items::{Boxed, Items};
use std::alloc::{AllocError, Global};

fn copy_places(places: &Items<u32>, alloc: Global) -> Result<Items<u32>, AllocError>
    ensures { IfOk result (λ copied. copied ≡ places.now) }
{
    Items::from_slice(alloc, places.as_slice())
}

fn copy_default(value: &Option<Value>) -> Result<Option<Value>, AllocError>
    ensures { IfOk result (λ copied. copied ≡ value.now) }
{
    match value {
        Some(value) => Ok(Some(value.copy()?)),
        None => Ok(None),
    }
}

impl Column {
    /// A copy, which equals its source.
    pub fn copy(&self) -> Result<Column, AllocError>
        ensures { IfOk result (λ copied. copied ≡ self.now) }
    {
        Ok(Column {
            name: self.name.copy()?,
            data_type: self.data_type,
            default: copy_default(&self.default)?,
        })
    }
}

impl ForeignKey {
    /// A copy, which equals its source.
    pub fn copy(&self, alloc: Global) -> Result<ForeignKey, AllocError>
        ensures { IfOk result (λ copied. copied ≡ self.now) }
    {
        Ok(ForeignKey {
            columns: copy_places(&self.columns, alloc)?,
            parent: self.parent.copy()?,
            parent_columns: copy_places(&self.parent_columns, alloc)?,
            on_delete: self.on_delete,
            on_update: self.on_update,
        })
    }
}

impl Rule {
    /// A copy, which equals its source.
    pub fn copy(&self, alloc: Global) -> Result<Rule, AllocError>
        ensures { IfOk result (λ copied. copied ≡ self.now) }
    {
        match self {
            Rule::NotNull(column) => Ok(Rule::NotNull(*column)),
            Rule::PrimaryKey(columns) => Ok(Rule::PrimaryKey(copy_places(columns, alloc)?)),
            Rule::Unique(columns) => Ok(Rule::Unique(copy_places(columns, alloc)?)),
            Rule::Check(e) => Ok(Rule::Check(e.copy(alloc)?)),
            Rule::ForeignKey(key) => Ok(Rule::ForeignKey(key.copy(alloc)?)),
            Rule::Index(columns) => Ok(Rule::Index(copy_places(columns, alloc)?)),
        }
    }
}

impl Constraint {
    /// A copy, which equals its source.
    pub fn copy(&self, alloc: Global) -> Result<Constraint, AllocError>
        ensures { IfOk result (λ copied. copied ≡ self.now) }
    {
        Ok(Constraint {
            name: self.name.copy()?,
            rule: self.rule.copy(alloc)?,
        })
    }
}

fn copy_columns(all: &[Column], alloc: Global) -> Result<Items<Column>, AllocError>
    ensures { IfOk result (λ copied. copied ≡ all.now) }
{
    let mut copied = Items::new(alloc);
    for one in all {
        copied.push(one.copy()?)?;
    }
    Ok(copied)
}

fn copy_constraints(all: &[Constraint], alloc: Global) -> Result<Items<Constraint>, AllocError>
    ensures { IfOk result (λ copied. copied ≡ all.now) }
{
    let mut copied = Items::new(alloc);
    for one in all {
        copied.push(one.copy(alloc)?)?;
    }
    Ok(copied)
}

impl Definition {
    /// A copy, which equals its source.
    pub fn copy(&self, alloc: Global) -> Result<Definition, AllocError>
        ensures { IfOk result (λ copied. copied ≡ self.now) }
    {
        match self {
            Definition::CreateTable {
                storage,
                name,
                columns,
                constraints,
            } => Ok(Definition::CreateTable {
                storage: *storage,
                name: name.copy()?,
                columns: copy_columns(columns.as_slice(), alloc)?,
                constraints: copy_constraints(constraints.as_slice(), alloc)?,
            }),
            Definition::DropTable(name) => Ok(Definition::DropTable(name.copy()?)),
            Definition::AddColumn {
                table,
                column,
                constraints,
            } => Ok(Definition::AddColumn {
                table: table.copy()?,
                column: column.copy()?,
                constraints: copy_constraints(constraints.as_slice(), alloc)?,
            }),
            Definition::AddConstraint { table, constraint } => Ok(Definition::AddConstraint {
                table: table.copy()?,
                constraint: constraint.copy(alloc)?,
            }),
            Definition::DropConstraint { table, name } => Ok(Definition::DropConstraint {
                table: table.copy()?,
                name: name.copy()?,
            }),
            Definition::CreateIndex {
                table,
                name,
                columns,
            } => Ok(Definition::CreateIndex {
                table: table.copy()?,
                name: name.copy()?,
                columns: copy_places(columns, alloc)?,
            }),
            Definition::DropIndex(name) => Ok(Definition::DropIndex(name.copy()?)),
            Definition::SetControl(control) => Ok(Definition::SetControl(*control)),
            Definition::SetDefaultLevel { serializable } => Ok(Definition::SetDefaultLevel {
                serializable: *serializable,
            }),
        }
    }
}

impl Change {
    /// A copy, which equals its source.
    pub fn copy(&self, alloc: Global) -> Result<Change, AllocError>
        ensures { IfOk result (λ copied. copied ≡ self.now) }
    {
        match self {
            Change::Insert(table, values) => Ok(Change::Insert(*table, values.copy()?)),
            Change::Put(table, row, values) => Ok(Change::Put(*table, *row, values.copy()?)),
            Change::Delete(table, row) => Ok(Change::Delete(*table, *row)),
            Change::Define(definition) => {
                let copied = definition.get().copy(alloc)?;
                Ok(Change::Define(Boxed::new(alloc, copied)?))
            }
        }
    }
}
