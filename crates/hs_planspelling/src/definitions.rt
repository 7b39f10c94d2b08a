// Definitions.
use crate::expressions::spell_expression;
use crate::values::{spell_type, spell_value};
use hs_plan::{
    Column, Constraint, Definition, ForeignKey, ReferentialAction, Rule, Storage,
    TransactionControl,
};
use hs_values::Name;
use std::alloc::AllocError;

/// Adds a space and a name, as it is.
pub(crate) fn spell_name(name: &Name, out: &mut String) -> Result<(), AllocError> {
    out.push(' ')?;
    out.push_str(name.as_str())
}

/// Adds places, each behind a space.
pub(crate) fn spell_places(places: &[u32], out: &mut String) -> Result<(), AllocError> {
    for place in places {
        let place = *place;
        write!(out, " {place}")?;
    }
    Ok(())
}

fn spell_column(column: &Column, out: &mut String) -> Result<(), AllocError> {
    out.push_str(" (")?;
    out.push_str(column.name.as_str())?;
    out.push(' ')?;
    spell_type(&column.data_type, out)?;
    match &column.default {
        Some(value) => {
            out.push_str(" default ")?;
            spell_value(value, out)?;
        }
        None => {}
    }
    out.push(')')
}

fn action_word(action: ReferentialAction) -> &'static str {
    match action {
        ReferentialAction::Cascade => " cascade",
        ReferentialAction::SetNull => " set-null",
        ReferentialAction::SetDefault => " set-default",
        ReferentialAction::Restrict => " restrict",
        ReferentialAction::NoAction => " no-action",
    }
}

fn spell_foreign_key(key: &ForeignKey, out: &mut String) -> Result<(), AllocError> {
    out.push_str("foreign-key (columns")?;
    spell_places(key.columns.as_slice(), out)?;
    out.push(')')?;
    spell_name(&key.parent, out)?;
    out.push_str(" (columns")?;
    spell_places(key.parent_columns.as_slice(), out)?;
    out.push(')')?;
    out.push_str(action_word(key.on_delete))?;
    out.push_str(action_word(key.on_update))
}

fn spell_rule(rule: &Rule, out: &mut String) -> Result<(), AllocError> {
    match rule {
        Rule::NotNull(place) => {
            let place = *place;
            write!(out, "not-null {place}")
        }
        Rule::PrimaryKey(places) => {
            out.push_str("primary-key")?;
            spell_places(places.as_slice(), out)
        }
        Rule::Unique(places) => {
            out.push_str("unique")?;
            spell_places(places.as_slice(), out)
        }
        Rule::Check(e) => {
            out.push_str("check ")?;
            spell_expression(e, out)
        }
        Rule::ForeignKey(key) => spell_foreign_key(key, out),
        Rule::Index(places) => {
            out.push_str("index")?;
            spell_places(places.as_slice(), out)
        }
    }
}

fn spell_constraint(constraint: &Constraint, out: &mut String) -> Result<(), AllocError> {
    out.push_str(" (")?;
    out.push_str(constraint.name.as_str())?;
    out.push(' ')?;
    spell_rule(&constraint.rule, out)?;
    out.push(')')
}

fn spell_constraints(constraints: &[Constraint], out: &mut String) -> Result<(), AllocError> {
    for constraint in constraints {
        spell_constraint(constraint, out)?;
    }
    out.push(')')
}

fn spell_columns(columns: &[Column], out: &mut String) -> Result<(), AllocError> {
    for column in columns {
        spell_column(column, out)?;
    }
    Ok(())
}

fn create_word(storage: Storage) -> &'static str {
    match storage {
        Storage::Memory => "(create-memory-table",
        Storage::Cached => "(create-cached-table",
    }
}

fn control_word(control: TransactionControl) -> &'static str {
    match control {
        TransactionControl::Locks => "(set-control locks)",
        TransactionControl::MvLocks => "(set-control mvlocks)",
        TransactionControl::Mvcc => "(set-control mvcc)",
    }
}

/// Adds a word, a name and the end of a node.
fn spell_named(word: &str, name: &Name, out: &mut String) -> Result<(), AllocError> {
    out.push_str(word)?;
    spell_name(name, out)?;
    out.push(')')
}

/// Adds a definition: columns, and then constraints in their order.
pub(crate) fn spell_definition(d: &Definition, out: &mut String) -> Result<(), AllocError> {
    match d {
        Definition::CreateTable {
            storage,
            name,
            columns,
            constraints,
        } => {
            out.push_str(create_word(*storage))?;
            spell_name(name, out)?;
            spell_columns(columns.as_slice(), out)?;
            spell_constraints(constraints.as_slice(), out)
        }
        Definition::DropTable(name) => spell_named("(drop-table", name, out),
        Definition::AddColumn {
            table,
            column,
            constraints,
        } => {
            out.push_str("(add-column")?;
            spell_name(table, out)?;
            spell_column(column, out)?;
            spell_constraints(constraints.as_slice(), out)
        }
        Definition::AddConstraint { table, constraint } => {
            out.push_str("(add-constraint")?;
            spell_name(table, out)?;
            spell_constraint(constraint, out)?;
            out.push(')')
        }
        Definition::DropConstraint { table, name } => {
            out.push_str("(drop-constraint")?;
            spell_name(table, out)?;
            spell_named("", name, out)
        }
        Definition::CreateIndex {
            table,
            name,
            columns,
        } => {
            out.push_str("(create-index")?;
            spell_name(table, out)?;
            spell_name(name, out)?;
            spell_places(columns.as_slice(), out)?;
            out.push(')')
        }
        Definition::DropIndex(name) => spell_named("(drop-index", name, out),
        Definition::SetControl(control) => out.push_str(control_word(*control)),
        Definition::SetDefaultLevel { serializable } => out.push_str(if *serializable {
            "(set-level serializable)"
        } else {
            "(set-level read-committed)"
        }),
    }
}
