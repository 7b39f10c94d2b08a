// Copies of statements.
ghost use Rattle.std.specs.Prelude.{◌≡◌, IfOk};

use crate::change::{Assignment, Delete, Insert, InsertSource, LockedTable, NewValue, Update};
use crate::definition::{
    AlterAction, AlterTable, ColumnConstraint, ColumnDefinition, ColumnRule, CreateIndex,
    CreateTable, DefaultValue, ForeignKey, TableConstraint, TableElement, TableRule,
};
use crate::expression::Expression;
use crate::statement::Stmt;
use crate::word::{Identifier, copy_identifier};
use sqlite_items::Items;
use std::alloc::{AllocError, Global};

impl NewValue {
    fn copy(&self, alloc: Global) -> Result<NewValue, AllocError>
        ensures { IfOk result (λ copied. copied ≡ self.now) }
    {
        match self {
            NewValue::Expression(e) => Ok(NewValue::Expression(e.copy(alloc)?)),
            NewValue::Default(at) => Ok(NewValue::Default(*at)),
        }
    }
}

fn copy_names(all: &[Identifier], alloc: Global) -> Result<Items<Identifier>, AllocError>
    ensures { IfOk result (λ copied. copied ≡ all.now) }
{
    let mut copied = Items::new(alloc);
    for one in all {
        copied.push(one.copy(alloc)?)?;
    }
    Ok(copied)
}

fn copy_values(all: &[NewValue], alloc: Global) -> Result<Items<NewValue>, AllocError>
    ensures { IfOk result (λ copied. copied ≡ all.now) }
{
    let mut copied = Items::new(alloc);
    for one in all {
        copied.push(one.copy(alloc)?)?;
    }
    Ok(copied)
}

fn copy_tuples(
    tuples: &[Items<NewValue>],
    alloc: Global,
) -> Result<Items<Items<NewValue>>, AllocError>
    ensures { IfOk result (λ copied. copied ≡ tuples.now) }
{
    let mut copied = Items::new(alloc);
    for tuple in tuples {
        copied.push(copy_values(tuple.as_slice(), alloc)?)?;
    }
    Ok(copied)
}

fn copy_filter(e: &Option<Expression>, alloc: Global) -> Result<Option<Expression>, AllocError>
    ensures { IfOk result (λ copied. copied ≡ e.now) }
{
    match e {
        Some(e) => Ok(Some(e.copy(alloc)?)),
        None => Ok(None),
    }
}

impl InsertSource {
    fn copy(&self, alloc: Global) -> Result<InsertSource, AllocError>
        ensures { IfOk result (λ copied. copied ≡ self.now) }
    {
        match self {
            InsertSource::Tuples(tuples) => {
                Ok(InsertSource::Tuples(copy_tuples(tuples.as_slice(), alloc)?))
            }
            InsertSource::Query(query) => Ok(InsertSource::Query(query.copy(alloc)?)),
        }
    }
}

impl Insert {
    fn copy(&self, alloc: Global) -> Result<Insert, AllocError>
        ensures { IfOk result (λ copied. copied ≡ self.now) }
    {
        Ok(Insert {
            table: self.table.copy(alloc)?,
            columns: copy_names(self.columns.as_slice(), alloc)?,
            source: self.source.copy(alloc)?,
        })
    }
}

impl Assignment {
    fn copy(&self, alloc: Global) -> Result<Assignment, AllocError>
        ensures { IfOk result (λ copied. copied ≡ self.now) }
    {
        Ok(Assignment {
            column: self.column.copy(alloc)?,
            value: self.value.copy(alloc)?,
        })
    }
}

fn copy_assignments(all: &[Assignment], alloc: Global) -> Result<Items<Assignment>, AllocError>
    ensures { IfOk result (λ copied. copied ≡ all.now) }
{
    let mut copied = Items::new(alloc);
    for one in all {
        copied.push(one.copy(alloc)?)?;
    }
    Ok(copied)
}

impl Update {
    fn copy(&self, alloc: Global) -> Result<Update, AllocError>
        ensures { IfOk result (λ copied. copied ≡ self.now) }
    {
        Ok(Update {
            table: self.table.copy(alloc)?,
            alias: copy_identifier(alloc, &self.alias)?,
            assignments: copy_assignments(self.assignments.as_slice(), alloc)?,
            filter: copy_filter(&self.filter, alloc)?,
        })
    }
}

impl Delete {
    fn copy(&self, alloc: Global) -> Result<Delete, AllocError>
        ensures { IfOk result (λ copied. copied ≡ self.now) }
    {
        Ok(Delete {
            table: self.table.copy(alloc)?,
            alias: copy_identifier(alloc, &self.alias)?,
            filter: copy_filter(&self.filter, alloc)?,
        })
    }
}

impl LockedTable {
    fn copy(&self, alloc: Global) -> Result<LockedTable, AllocError>
        ensures { IfOk result (λ copied. copied ≡ self.now) }
    {
        Ok(LockedTable {
            table: self.table.copy(alloc)?,
            write: self.write,
        })
    }
}

fn copy_locked(all: &[LockedTable], alloc: Global) -> Result<Items<LockedTable>, AllocError>
    ensures { IfOk result (λ copied. copied ≡ all.now) }
{
    let mut copied = Items::new(alloc);
    for one in all {
        copied.push(one.copy(alloc)?)?;
    }
    Ok(copied)
}

impl ForeignKey {
    fn copy(&self, alloc: Global) -> Result<ForeignKey, AllocError>
        ensures { IfOk result (λ copied. copied ≡ self.now) }
    {
        Ok(ForeignKey {
            parent: self.parent.copy(alloc)?,
            parent_columns: copy_names(self.parent_columns.as_slice(), alloc)?,
            on_delete: self.on_delete,
            on_update: self.on_update,
        })
    }
}

impl ColumnRule {
    fn copy(&self, alloc: Global) -> Result<ColumnRule, AllocError>
        ensures { IfOk result (λ copied. copied ≡ self.now) }
    {
        match self {
            ColumnRule::NotNull => Ok(ColumnRule::NotNull),
            ColumnRule::PrimaryKey => Ok(ColumnRule::PrimaryKey),
            ColumnRule::Unique => Ok(ColumnRule::Unique),
            ColumnRule::Check(e) => Ok(ColumnRule::Check(e.copy(alloc)?)),
            ColumnRule::References(key) => Ok(ColumnRule::References(key.copy(alloc)?)),
        }
    }
}

impl ColumnConstraint {
    fn copy(&self, alloc: Global) -> Result<ColumnConstraint, AllocError>
        ensures { IfOk result (λ copied. copied ≡ self.now) }
    {
        Ok(ColumnConstraint {
            at: self.at,
            name: copy_identifier(alloc, &self.name)?,
            rule: self.rule.copy(alloc)?,
        })
    }
}

fn copy_constraints(
    all: &[ColumnConstraint],
    alloc: Global,
) -> Result<Items<ColumnConstraint>, AllocError>
    ensures { IfOk result (λ copied. copied ≡ all.now) }
{
    let mut copied = Items::new(alloc);
    for one in all {
        copied.push(one.copy(alloc)?)?;
    }
    Ok(copied)
}

fn copy_default(
    value: &Option<DefaultValue>,
    alloc: Global,
) -> Result<Option<DefaultValue>, AllocError>
    ensures { IfOk result (λ copied. copied ≡ value.now) }
{
    match value {
        Some(value) => Ok(Some(DefaultValue {
            at: value.at,
            literal: value.literal.copy(alloc)?,
        })),
        None => Ok(None),
    }
}

impl ColumnDefinition {
    fn copy(&self, alloc: Global) -> Result<ColumnDefinition, AllocError>
        ensures { IfOk result (λ copied. copied ≡ self.now) }
    {
        Ok(ColumnDefinition {
            name: self.name.copy(alloc)?,
            data_type: self.data_type,
            default: copy_default(&self.default, alloc)?,
            constraints: copy_constraints(self.constraints.as_slice(), alloc)?,
        })
    }
}

impl TableRule {
    fn copy(&self, alloc: Global) -> Result<TableRule, AllocError>
        ensures { IfOk result (λ copied. copied ≡ self.now) }
    {
        match self {
            TableRule::PrimaryKey(columns) => {
                Ok(TableRule::PrimaryKey(copy_names(columns.as_slice(), alloc)?))
            }
            TableRule::Unique(columns) => {
                Ok(TableRule::Unique(copy_names(columns.as_slice(), alloc)?))
            }
            TableRule::Check(e) => Ok(TableRule::Check(e.copy(alloc)?)),
            TableRule::ForeignKey(columns, key) => {
                let columns = copy_names(columns.as_slice(), alloc)?;
                Ok(TableRule::ForeignKey(columns, key.copy(alloc)?))
            }
        }
    }
}

impl TableConstraint {
    fn copy(&self, alloc: Global) -> Result<TableConstraint, AllocError>
        ensures { IfOk result (λ copied. copied ≡ self.now) }
    {
        Ok(TableConstraint {
            at: self.at,
            name: copy_identifier(alloc, &self.name)?,
            rule: self.rule.copy(alloc)?,
        })
    }
}

impl TableElement {
    fn copy(&self, alloc: Global) -> Result<TableElement, AllocError>
        ensures { IfOk result (λ copied. copied ≡ self.now) }
    {
        match self {
            TableElement::Column(column) => Ok(TableElement::Column(column.copy(alloc)?)),
            TableElement::Constraint(rule) => Ok(TableElement::Constraint(rule.copy(alloc)?)),
        }
    }
}

fn copy_elements(all: &[TableElement], alloc: Global) -> Result<Items<TableElement>, AllocError>
    ensures { IfOk result (λ copied. copied ≡ all.now) }
{
    let mut copied = Items::new(alloc);
    for one in all {
        copied.push(one.copy(alloc)?)?;
    }
    Ok(copied)
}

impl CreateTable {
    fn copy(&self, alloc: Global) -> Result<CreateTable, AllocError>
        ensures { IfOk result (λ copied. copied ≡ self.now) }
    {
        Ok(CreateTable {
            storage: self.storage,
            name: self.name.copy(alloc)?,
            elements: copy_elements(self.elements.as_slice(), alloc)?,
        })
    }
}

impl CreateIndex {
    fn copy(&self, alloc: Global) -> Result<CreateIndex, AllocError>
        ensures { IfOk result (λ copied. copied ≡ self.now) }
    {
        Ok(CreateIndex {
            name: self.name.copy(alloc)?,
            table: self.table.copy(alloc)?,
            columns: copy_names(self.columns.as_slice(), alloc)?,
        })
    }
}

impl AlterAction {
    fn copy(&self, alloc: Global) -> Result<AlterAction, AllocError>
        ensures { IfOk result (λ copied. copied ≡ self.now) }
    {
        match self {
            AlterAction::AddColumn(column) => Ok(AlterAction::AddColumn(column.copy(alloc)?)),
            AlterAction::AddConstraint(rule) => Ok(AlterAction::AddConstraint(rule.copy(alloc)?)),
            AlterAction::DropConstraint(name) => Ok(AlterAction::DropConstraint(name.copy(alloc)?)),
        }
    }
}

impl AlterTable {
    fn copy(&self, alloc: Global) -> Result<AlterTable, AllocError>
        ensures { IfOk result (λ copied. copied ≡ self.now) }
    {
        Ok(AlterTable {
            table: self.table.copy(alloc)?,
            action: self.action.copy(alloc)?,
        })
    }
}

impl Stmt {
    /// A copy, which equals its source.
    pub fn copy(&self, alloc: Global) -> Result<Stmt, AllocError>
        ensures { IfOk result (λ copied. copied ≡ self.now) }
    {
        match self {
            Stmt::Query(query) => Ok(Stmt::Query(query.copy(alloc)?)),
            Stmt::Insert(insert) => Ok(Stmt::Insert(insert.copy(alloc)?)),
            Stmt::Update(update) => Ok(Stmt::Update(update.copy(alloc)?)),
            Stmt::Delete(delete) => Ok(Stmt::Delete(delete.copy(alloc)?)),
            Stmt::LockTable(tables) => Ok(Stmt::LockTable(copy_locked(tables.as_slice(), alloc)?)),
            Stmt::CreateTable(create) => Ok(Stmt::CreateTable(create.copy(alloc)?)),
            Stmt::CreateIndex(create) => Ok(Stmt::CreateIndex(create.copy(alloc)?)),
            Stmt::AlterTable(alter) => Ok(Stmt::AlterTable(alter.copy(alloc)?)),
            Stmt::DropTable(name) => Ok(Stmt::DropTable(name.copy(alloc)?)),
            Stmt::DropIndex(name) => Ok(Stmt::DropIndex(name.copy(alloc)?)),
            Stmt::SetControl(control) => Ok(Stmt::SetControl(*control)),
            Stmt::SetDefaultLevel(level) => Ok(Stmt::SetDefaultLevel(*level)),
            Stmt::SetAutocommit(on) => Ok(Stmt::SetAutocommit(*on)),
            Stmt::SetCharacteristics(modes) => Ok(Stmt::SetCharacteristics(*modes)),
            Stmt::SetTransaction(modes) => Ok(Stmt::SetTransaction(*modes)),
            Stmt::StartTransaction(modes) => Ok(Stmt::StartTransaction(*modes)),
            Stmt::Commit => Ok(Stmt::Commit),
            Stmt::Rollback => Ok(Stmt::Rollback),
            Stmt::Savepoint(name) => Ok(Stmt::Savepoint(name.copy(alloc)?)),
            Stmt::RollbackTo(name) => Ok(Stmt::RollbackTo(name.copy(alloc)?)),
            Stmt::ReleaseSavepoint(name) => Ok(Stmt::ReleaseSavepoint(name.copy(alloc)?)),
            Stmt::WriteDelayFalse => Ok(Stmt::WriteDelayFalse),
            Stmt::Checkpoint => Ok(Stmt::Checkpoint),
            Stmt::Shutdown => Ok(Stmt::Shutdown),
        }
    }
}
