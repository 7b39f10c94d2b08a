// Definitions: tables, columns, constraints and indexes as they are made, and what changes them.
use crate::expression::Expr;
use hs_ast::{ReferentialAction, Storage, TransactionControl};
use hs_values::{Name, SqlType, Value};
use sqlite_items::Items;

/// A column as its `element` defines it, without its constraints.
#[derive(Drop)]
pub struct Column {
    pub name: Name,
    pub data_type: SqlType,
    /// What is written behind DEFAULT, as a value of the type: NULL where NULL is written, and None where nothing is.
    pub default: Option<Value>,
}

/// A foreign key: FOREIGN KEY or REFERENCES of an `element`, with its `actions`.
#[derive(Drop)]
pub struct ForeignKey {
    /// Places in its own table, from 0.
    pub columns: Items<u32>,
    pub parent: Name,
    /// Places in the parent, one for each of the columns.
    pub parent_columns: Items<u32>,
    pub on_delete: ReferentialAction,
    pub on_update: ReferentialAction,
}

/// What a constraint of an `element` asks, or an index (`create`) holds. Columns are places in its table, from 0.
#[derive(Drop)]
pub enum Rule {
    NotNull(u32),
    PrimaryKey(Items<u32>),
    Unique(Items<u32>),
    /// Over the row of its table.
    Check(Expr),
    ForeignKey(ForeignKey),
    /// It asks nothing.
    Index(Items<u32>),
}

/// A constraint or an index. Constraints and indexes are one set of names.
#[derive(Drop)]
pub struct Constraint {
    pub name: Name,
    pub rule: Rule,
}

/// A definition: a statement by one of the rules `create`, `alter`, `drop` and `set`. It names tables by their names, so that a table may reference itself.
#[derive(Drop)]
pub enum Definition {
    /// A table with all its columns, and its constraints in the order of the text.
    CreateTable {
        storage: Storage,
        name: Name,
        columns: Items<Column>,
        constraints: Items<Constraint>,
    },
    DropTable(Name),
    /// A column behind those of the table, and its constraints in the order of the text.
    AddColumn {
        table: Name,
        column: Column,
        constraints: Items<Constraint>,
    },
    AddConstraint {
        table: Name,
        constraint: Constraint,
    },
    DropConstraint {
        table: Name,
        name: Name,
    },
    CreateIndex {
        table: Name,
        name: Name,
        columns: Items<u32>,
    },
    DropIndex(Name),
    SetControl(TransactionControl),
    SetDefaultLevel {
        serializable: bool,
    },
}
