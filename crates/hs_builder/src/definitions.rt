// The steps that build definitions of tables, constraints and indexes.
ghost use Rattle.hs_builder.specs.Steps.{Gives};
ghost use Rattle.hs_builder.specs.Definitions as spec;

use crate::build_fault::BuildFault;
use crate::part::{Built, ConstraintHeader, PlacedLiteral};
use crate::stack::Stack;
use hs_ast::{
    AlterAction, AlterTable, ColumnConstraint, ColumnDefinition, ColumnRule, CreateIndex,
    CreateTable, DataType, DefaultValue, ForeignKey, Identifier, ReferentialAction, Stmt, Storage,
    TableConstraint, TableElement, TableRule,
};
use sqlite_items::Items;
use std::alloc::Global;

// ---- tables

pub fn begin_table(
    alloc: Global,
    names: &mut Stack<Identifier>,
    tables: &mut Stack<CreateTable>,
    storage: Storage,
) -> Result<(), BuildFault>
    ensures { Gives (spec.begin_table storage (names.old, tables.old)) result (names.new, tables.new) }
{
    let name = names.pop()?;
    tables.push(CreateTable {
        storage,
        name,
        elements: Items::new(alloc),
    })
}

pub fn column_element(
    columns: &mut Stack<ColumnDefinition>,
    tables: &mut Stack<CreateTable>,
) -> Result<(), BuildFault>
    ensures { Gives (spec.column_element (columns.old, tables.old)) result (columns.new, tables.new) }
{
    let column = columns.pop()?;
    let mut table = tables.pop()?;
    table.elements.push(TableElement::Column(column))?;
    tables.push(table)
}

pub fn constraint_element(
    constraints: &mut Stack<TableConstraint>,
    tables: &mut Stack<CreateTable>,
) -> Result<(), BuildFault>
    ensures { Gives (spec.constraint_element (constraints.old, tables.old)) result (constraints.new, tables.new) }
{
    let constraint = constraints.pop()?;
    let mut table = tables.pop()?;
    table.elements.push(TableElement::Constraint(constraint))?;
    tables.push(table)
}

pub fn create_statement(
    tables: &mut Stack<CreateTable>,
    statements: &mut Stack<Stmt>,
) -> Result<(), BuildFault>
    ensures { Gives (spec.create_statement (tables.old, statements.old)) result (tables.new, statements.new) }
{
    let table = tables.pop()?;
    statements.push(Stmt::CreateTable(table))
}

pub fn create_index(
    names: &mut Stack<Identifier>,
    lists: &mut Stack<Items<Identifier>>,
    statements: &mut Stack<Stmt>,
) -> Result<(), BuildFault>
    ensures { Gives (spec.create_index (names.old, lists.old, statements.old)) result (names.new, lists.new, statements.new) }
{
    let columns = lists.pop()?;
    let table = names.pop()?;
    let name = names.pop()?;
    statements.push(Stmt::CreateIndex(CreateIndex {
        name,
        table,
        columns,
    }))
}

pub fn drop_table(
    names: &mut Stack<Identifier>,
    statements: &mut Stack<Stmt>,
) -> Result<(), BuildFault>
    ensures { Gives (spec.drop_table (names.old, statements.old)) result (names.new, statements.new) }
{
    let name = names.pop()?;
    statements.push(Stmt::DropTable(name))
}

pub fn drop_index(
    names: &mut Stack<Identifier>,
    statements: &mut Stack<Stmt>,
) -> Result<(), BuildFault>
    ensures { Gives (spec.drop_index (names.old, statements.old)) result (names.new, statements.new) }
{
    let name = names.pop()?;
    statements.push(Stmt::DropIndex(name))
}

// ---- ALTER TABLE

pub fn add_column(
    names: &mut Stack<Identifier>,
    columns: &mut Stack<ColumnDefinition>,
    statements: &mut Stack<Stmt>,
) -> Result<(), BuildFault>
    ensures { Gives (spec.add_column (names.old, columns.old, statements.old)) result (names.new, columns.new, statements.new) }
{
    let column = columns.pop()?;
    let table = names.pop()?;
    statements.push(Stmt::AlterTable(AlterTable {
        table,
        action: AlterAction::AddColumn(column),
    }))
}

pub fn add_constraint(
    names: &mut Stack<Identifier>,
    constraints: &mut Stack<TableConstraint>,
    statements: &mut Stack<Stmt>,
) -> Result<(), BuildFault>
    ensures { Gives (spec.add_constraint (names.old, constraints.old, statements.old)) result (names.new, constraints.new, statements.new) }
{
    let constraint = constraints.pop()?;
    let table = names.pop()?;
    statements.push(Stmt::AlterTable(AlterTable {
        table,
        action: AlterAction::AddConstraint(constraint),
    }))
}

pub fn drop_constraint(
    names: &mut Stack<Identifier>,
    statements: &mut Stack<Stmt>,
) -> Result<(), BuildFault>
    ensures { Gives (spec.drop_constraint (names.old, statements.old)) result (names.new, statements.new) }
{
    let constraint = names.pop()?;
    let table = names.pop()?;
    statements.push(Stmt::AlterTable(AlterTable {
        table,
        action: AlterAction::DropConstraint(constraint),
    }))
}

// ---- columns

pub fn define(
    alloc: Global,
    names: &mut Stack<Identifier>,
    types: &mut Stack<DataType>,
    columns: &mut Stack<ColumnDefinition>,
) -> Result<(), BuildFault>
    ensures { Gives (spec.define (names.old, types.old, columns.old)) result (names.new, types.new, columns.new) }
{
    let data_type = types.pop()?;
    let name = names.pop()?;
    columns.push(ColumnDefinition {
        name,
        data_type,
        default: None,
        constraints: Items::new(alloc),
    })
}

pub fn default(
    literals: &mut Stack<PlacedLiteral>,
    columns: &mut Stack<ColumnDefinition>,
) -> Result<(), BuildFault>
    ensures { Gives (spec.default (literals.old, columns.old)) result (literals.new, columns.new) }
{
    let literal = literals.pop()?;
    let mut column = columns.pop()?;
    column.default = Some(DefaultValue {
        at: literal.at,
        literal: literal.literal,
    });
    columns.push(column)
}

pub fn named(
    places: &mut Stack<u32>,
    names: &mut Stack<Identifier>,
    headers: &mut Stack<ConstraintHeader>,
) -> Result<(), BuildFault>
    ensures { Gives (spec.named (places.old, names.old, headers.old)) result (places.new, names.new, headers.new) }
{
    let name = names.pop()?;
    let at = places.pop()?;
    headers.push(ConstraintHeader {
        at,
        name: Some(name),
    })
}

pub fn unnamed(
    places: &mut Stack<u32>,
    headers: &mut Stack<ConstraintHeader>,
) -> Result<(), BuildFault>
    ensures { Gives (spec.unnamed (places.old, headers.old)) result (places.new, headers.new) }
{
    let at = places.pop()?;
    headers.push(ConstraintHeader { at, name: None })
}

/// Adds a rule to the column, with the constraint's place and name.
fn add_rule(
    headers: &mut Stack<ConstraintHeader>,
    columns: &mut Stack<ColumnDefinition>,
    rule: ColumnRule,
) -> Result<(), BuildFault>
    ensures { Gives (spec.add_rule rule (headers.old, columns.old)) result (headers.new, columns.new) }
{
    let header = headers.pop()?;
    let mut column = columns.pop()?;
    column.constraints.push(ColumnConstraint {
        at: header.at,
        name: header.name,
        rule,
    })?;
    columns.push(column)
}

pub fn not_null(
    headers: &mut Stack<ConstraintHeader>,
    columns: &mut Stack<ColumnDefinition>,
) -> Result<(), BuildFault>
    ensures { Gives (spec.not_null (headers.old, columns.old)) result (headers.new, columns.new) }
{
    add_rule(headers, columns, ColumnRule::NotNull)
}

pub fn column_primary(
    headers: &mut Stack<ConstraintHeader>,
    columns: &mut Stack<ColumnDefinition>,
) -> Result<(), BuildFault>
    ensures { Gives (spec.column_primary (headers.old, columns.old)) result (headers.new, columns.new) }
{
    add_rule(headers, columns, ColumnRule::PrimaryKey)
}

pub fn column_unique(
    headers: &mut Stack<ConstraintHeader>,
    columns: &mut Stack<ColumnDefinition>,
) -> Result<(), BuildFault>
    ensures { Gives (spec.column_unique (headers.old, columns.old)) result (headers.new, columns.new) }
{
    add_rule(headers, columns, ColumnRule::Unique)
}

pub fn column_check(
    expressions: &mut Stack<Built>,
    headers: &mut Stack<ConstraintHeader>,
    columns: &mut Stack<ColumnDefinition>,
) -> Result<(), BuildFault>
    ensures { Gives (spec.column_check (expressions.old, headers.old, columns.old)) result (expressions.new, headers.new, columns.new) }
{
    let e = expressions.pop()?;
    let header = headers.pop()?;
    let mut column = columns.pop()?;
    column.constraints.push(ColumnConstraint {
        at: header.at,
        name: header.name,
        rule: ColumnRule::Check(e.tree.into_inner()),
    })?;
    columns.push(column)
}

pub fn column_references(
    keys: &mut Stack<ForeignKey>,
    headers: &mut Stack<ConstraintHeader>,
    columns: &mut Stack<ColumnDefinition>,
) -> Result<(), BuildFault>
    ensures { Gives (spec.column_references (keys.old, headers.old, columns.old)) result (keys.new, headers.new, columns.new) }
{
    let key = keys.pop()?;
    let header = headers.pop()?;
    let mut column = columns.pop()?;
    column.constraints.push(ColumnConstraint {
        at: header.at,
        name: header.name,
        rule: ColumnRule::References(key),
    })?;
    columns.push(column)
}

// ---- foreign keys

pub fn references(
    alloc: Global,
    names: &mut Stack<Identifier>,
    keys: &mut Stack<ForeignKey>,
) -> Result<(), BuildFault>
    ensures { Gives (spec.references (names.old, keys.old)) result (names.new, keys.new) }
{
    let parent = names.pop()?;
    keys.push(ForeignKey {
        parent,
        parent_columns: Items::new(alloc),
        on_delete: ReferentialAction::NoAction,
        on_update: ReferentialAction::NoAction,
    })
}

pub fn parent_columns(
    lists: &mut Stack<Items<Identifier>>,
    keys: &mut Stack<ForeignKey>,
) -> Result<(), BuildFault>
    ensures { Gives (spec.parent_columns (lists.old, keys.old)) result (lists.new, keys.new) }
{
    let parent_columns = lists.pop()?;
    let key = keys.pop()?;
    keys.push(ForeignKey {
        parent: key.parent,
        parent_columns,
        on_delete: key.on_delete,
        on_update: key.on_update,
    })
}

pub fn on_delete(
    actions: &mut Stack<ReferentialAction>,
    keys: &mut Stack<ForeignKey>,
) -> Result<(), BuildFault>
    ensures { Gives (spec.on_delete (actions.old, keys.old)) result (actions.new, keys.new) }
{
    let action = actions.pop()?;
    let mut key = keys.pop()?;
    key.on_delete = action;
    keys.push(key)
}

pub fn on_update(
    actions: &mut Stack<ReferentialAction>,
    keys: &mut Stack<ForeignKey>,
) -> Result<(), BuildFault>
    ensures { Gives (spec.on_update (actions.old, keys.old)) result (actions.new, keys.new) }
{
    let action = actions.pop()?;
    let mut key = keys.pop()?;
    key.on_update = action;
    keys.push(key)
}

// ---- constraints of tables

pub fn table_primary(
    headers: &mut Stack<ConstraintHeader>,
    lists: &mut Stack<Items<Identifier>>,
    constraints: &mut Stack<TableConstraint>,
) -> Result<(), BuildFault>
    ensures { Gives (spec.table_primary (headers.old, lists.old, constraints.old)) result (headers.new, lists.new, constraints.new) }
{
    let columns = lists.pop()?;
    let header = headers.pop()?;
    constraints.push(TableConstraint {
        at: header.at,
        name: header.name,
        rule: TableRule::PrimaryKey(columns),
    })
}

pub fn table_unique(
    headers: &mut Stack<ConstraintHeader>,
    lists: &mut Stack<Items<Identifier>>,
    constraints: &mut Stack<TableConstraint>,
) -> Result<(), BuildFault>
    ensures { Gives (spec.table_unique (headers.old, lists.old, constraints.old)) result (headers.new, lists.new, constraints.new) }
{
    let columns = lists.pop()?;
    let header = headers.pop()?;
    constraints.push(TableConstraint {
        at: header.at,
        name: header.name,
        rule: TableRule::Unique(columns),
    })
}

pub fn table_check(
    expressions: &mut Stack<Built>,
    headers: &mut Stack<ConstraintHeader>,
    constraints: &mut Stack<TableConstraint>,
) -> Result<(), BuildFault>
    ensures { Gives (spec.table_check (expressions.old, headers.old, constraints.old)) result (expressions.new, headers.new, constraints.new) }
{
    let e = expressions.pop()?;
    let header = headers.pop()?;
    constraints.push(TableConstraint {
        at: header.at,
        name: header.name,
        rule: TableRule::Check(e.tree.into_inner()),
    })
}

pub fn table_foreign(
    headers: &mut Stack<ConstraintHeader>,
    lists: &mut Stack<Items<Identifier>>,
    keys: &mut Stack<ForeignKey>,
    constraints: &mut Stack<TableConstraint>,
) -> Result<(), BuildFault>
    ensures { Gives (spec.table_foreign (headers.old, lists.old, keys.old, constraints.old)) result (headers.new, lists.new, keys.new, constraints.new) }
{
    let key = keys.pop()?;
    let columns = lists.pop()?;
    let header = headers.pop()?;
    constraints.push(TableConstraint {
        at: header.at,
        name: header.name,
        rule: TableRule::ForeignKey(columns, key),
    })
}
