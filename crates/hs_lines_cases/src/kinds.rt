// Changes in a few words.
use hs_plan::{Change, Definition};
use std::alloc::{AllocError, Global};

fn word_of(definition: &Definition) -> &'static str {
    match definition {
        Definition::CreateTable { .. } => "create table",
        Definition::DropTable(_) => "drop table",
        Definition::AddColumn { .. } => "add column",
        Definition::AddConstraint { .. } => "add constraint",
        Definition::DropConstraint { .. } => "drop constraint",
        Definition::CreateIndex { .. } => "create index",
        Definition::DropIndex(_) => "drop index",
        Definition::SetControl(_) => "set control",
        Definition::SetDefaultLevel { .. } => "set level",
    }
}

/// What a change is: a definition's kind, or the numbers of a row and its table.
pub fn told(alloc: Global, change: &Change) -> Result<String, AllocError> {
    match change {
        Change::Insert(table, _) => {
            let table = table.0;
            format!(in alloc; "insert into table {table}")
        }
        Change::Put(table, row, _) => {
            let (table, row) = (table.0, row.0);
            format!(in alloc; "update of row {row} of table {table}")
        }
        Change::Delete(table, row) => {
            let (table, row) = (table.0, row.0);
            format!(in alloc; "delete of row {row} of table {table}")
        }
        Change::Define(definition) => String::from_str(alloc, word_of(definition.get())),
    }
}
