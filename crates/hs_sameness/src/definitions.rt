// Whether two definitions are the same.
ghost use Rattle.std.specs.Prelude.{◌≡◌, ◌↔◌, IsTrue, true};
ghost use Rattle.std.specs.List.{All};
ghost use Rattle.hs_sameness.specs.Changes.{IsPlainConstraint, IsPlainDefinition, IsPlainRule};
ghost use Rattle.hs_sameness.specs.Plain.{is_plain};

use crate::expressions::is_same;
use crate::rows::same_places;
use crate::values::{same_type, same_value};
use hs_plan::{Column, Constraint, Definition, Expr, ForeignKey, Rule};
use hs_values::{Name, Value};

fn same_name(a: &Name, b: &Name) -> bool
    ensures { IsTrue result ↔ (a.now ≡ b.now) }
{
    a.as_str() == b.as_str()
}

fn same_default(a: &Option<Value>, b: &Option<Value>) -> bool
    ensures { IsTrue result ↔ (a.now ≡ b.now) }
{
    match (a, b) {
        (Some(value), Some(other)) => same_value(value, other),
        (None, None) => true,
        _ => false,
    }
}

fn same_column(a: &Column, b: &Column) -> bool
    ensures { IsTrue result ↔ (a.now ≡ b.now) }
{
    same_name(&a.name, &b.name)
        && same_type(a.data_type, b.data_type)
        && same_default(&a.default, &b.default)
}

fn same_columns(a: &[Column], b: &[Column]) -> bool
    ensures { IsTrue result ↔ (a.now ≡ b.now) }
{
    if a.len() != b.len() {
        return false;
    }
    for i in 0..a.len() {
        if !same_column(&a[i], &b[i]) {
            return false;
        }
    }
    true
}

fn same_key(a: &ForeignKey, b: &ForeignKey) -> bool
    ensures { IsTrue result ↔ (a.now ≡ b.now) }
{
    same_places(a.columns.as_slice(), b.columns.as_slice())
        && same_name(&a.parent, &b.parent)
        && same_places(a.parent_columns.as_slice(), b.parent_columns.as_slice())
        && a.on_delete == b.on_delete
        && a.on_update == b.on_update
}

fn same_condition(a: &Expr, b: &Expr) -> bool
    requires { is_plain a.now ≡ true }
    ensures { IsTrue result ↔ (a.now ≡ b.now) }
{
    is_same(a, b)
}

fn same_rule(a: &Rule, b: &Rule) -> bool
    requires { IsPlainRule a.now }
    ensures { IsTrue result ↔ (a.now ≡ b.now) }
{
    match (a, b) {
        (Rule::NotNull(place), Rule::NotNull(other)) => place == other,
        (Rule::PrimaryKey(places), Rule::PrimaryKey(others)) => {
            same_places(places.as_slice(), others.as_slice())
        }
        (Rule::Unique(places), Rule::Unique(others)) => {
            same_places(places.as_slice(), others.as_slice())
        }
        (Rule::Check(condition), Rule::Check(other)) => same_condition(condition, other),
        (Rule::ForeignKey(key), Rule::ForeignKey(other)) => same_key(key, other),
        (Rule::Index(places), Rule::Index(others)) => {
            same_places(places.as_slice(), others.as_slice())
        }
        _ => false,
    }
}

fn same_constraint(a: &Constraint, b: &Constraint) -> bool
    requires { IsPlainConstraint a.now }
    ensures { IsTrue result ↔ (a.now ≡ b.now) }
{
    same_name(&a.name, &b.name) && same_rule(&a.rule, &b.rule)
}

fn same_constraints(a: &[Constraint], b: &[Constraint]) -> bool
    requires { All IsPlainConstraint a.now }
    ensures { IsTrue result ↔ (a.now ≡ b.now) }
{
    if a.len() != b.len() {
        return false;
    }
    for i in 0..a.len() {
        if !same_constraint(&a[i], &b[i]) {
            return false;
        }
    }
    true
}

/// Whether two definitions are the same, of which the first has no query and no aggregate in a CHECK. Takes no memory.
pub fn same_definition(a: &Definition, b: &Definition) -> bool
    requires { IsPlainDefinition a.now }
    ensures { IsTrue result ↔ (a.now ≡ b.now) }
{
    match (a, b) {
        (
            Definition::CreateTable {
                storage,
                name,
                columns,
                constraints,
            },
            Definition::CreateTable {
                storage: other_storage,
                name: other_name,
                columns: others,
                constraints: other_constraints,
            },
        ) => {
            storage == other_storage
                && same_name(name, other_name)
                && same_columns(columns.as_slice(), others.as_slice())
                && same_constraints(constraints.as_slice(), other_constraints.as_slice())
        }
        (Definition::DropTable(name), Definition::DropTable(other)) => same_name(name, other),
        (
            Definition::AddColumn {
                table,
                column,
                constraints,
            },
            Definition::AddColumn {
                table: other_table,
                column: other,
                constraints: others,
            },
        ) => {
            same_name(table, other_table)
                && same_column(column, other)
                && same_constraints(constraints.as_slice(), others.as_slice())
        }
        (
            Definition::AddConstraint { table, constraint },
            Definition::AddConstraint {
                table: other_table,
                constraint: other,
            },
        ) => same_name(table, other_table) && same_constraint(constraint, other),
        (
            Definition::DropConstraint { table, name },
            Definition::DropConstraint {
                table: other_table,
                name: other,
            },
        ) => same_name(table, other_table) && same_name(name, other),
        (
            Definition::CreateIndex {
                table,
                name,
                columns,
            },
            Definition::CreateIndex {
                table: other_table,
                name: other,
                columns: others,
            },
        ) => {
            same_name(table, other_table)
                && same_name(name, other)
                && same_places(columns.as_slice(), others.as_slice())
        }
        (Definition::DropIndex(name), Definition::DropIndex(other)) => same_name(name, other),
        (Definition::SetControl(control), Definition::SetControl(other)) => control == other,
        (
            Definition::SetDefaultLevel { serializable },
            Definition::SetDefaultLevel {
                serializable: other,
            },
        ) => serializable == other,
        _ => false,
    }
}
