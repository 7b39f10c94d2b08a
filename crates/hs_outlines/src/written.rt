// Constraints as they are written.
ghost use Rattle.std.specs.Prelude.{◌≡◌, ◌++◌, ◌∷◌, [], map, IfOk, OnOk};
ghost use Rattle.hs_outlines.specs.Elements.{elements_of};
ghost use Rattle.hs_outlines.specs.Named as spec;

use crate::element::Elements;
use hs_ast::{ColumnConstraint, ColumnRule, Identifier, TableConstraint, TableElement, TableRule};
use hs_base::NoMemory;
use hs_elements::ConstraintKind;
use sqlite_items::Items;
use std::alloc::Global;

/// What names a constraint.
#[derive(Drop)]
pub struct Written {
    /// The place of its first byte.
    pub at: u32,
    pub kind: ConstraintKind,
    /// Its own name.
    pub name: Option<Identifier>,
}

fn kind_of_column(rule: &ColumnRule) -> ConstraintKind
    ensures { result ≡ spec.kind_of_column rule.now }
{
    match rule {
        ColumnRule::NotNull => ConstraintKind::NotNull,
        ColumnRule::PrimaryKey => ConstraintKind::PrimaryKey,
        ColumnRule::Unique => ConstraintKind::Unique,
        ColumnRule::Check(_) => ConstraintKind::Check,
        ColumnRule::References(_) => ConstraintKind::ForeignKey,
    }
}

fn kind_of_table(rule: &TableRule) -> ConstraintKind
    ensures { result ≡ spec.kind_of_table rule.now }
{
    match rule {
        TableRule::PrimaryKey(_) => ConstraintKind::PrimaryKey,
        TableRule::Unique(_) => ConstraintKind::Unique,
        TableRule::Check(_) => ConstraintKind::Check,
        TableRule::ForeignKey(_, _) => ConstraintKind::ForeignKey,
    }
}

fn copied(name: &Option<Identifier>, alloc: Global) -> Result<Option<Identifier>, NoMemory>
    ensures { IfOk result (λ copied. copied ≡ name.now) }
{
    match name {
        Some(name) => Ok(Some(name.copy(alloc)?)),
        None => Ok(None),
    }
}

fn add_by_column(
    written: &mut Items<Written>,
    constraint: &ColumnConstraint,
    alloc: Global,
) -> Result<(), NoMemory>
    ensures { OnOk result (written.new ≡ written.old ++ spec.by_column constraint.now ∷ []) }
{
    written.push(Written {
        at: constraint.at,
        kind: kind_of_column(&constraint.rule),
        name: copied(&constraint.name, alloc)?,
    })?;
    Ok(())
}

fn add_by_columns(
    written: &mut Items<Written>,
    constraints: &[ColumnConstraint],
    alloc: Global,
) -> Result<(), NoMemory>
    ensures { OnOk result (written.new ≡ written.old ++ map spec.by_column constraints.now) }
{
    for constraint in constraints {
        add_by_column(written, constraint, alloc)?;
    }
    Ok(())
}

fn add_by_table(
    written: &mut Items<Written>,
    constraint: &TableConstraint,
    alloc: Global,
) -> Result<(), NoMemory>
    ensures { OnOk result (written.new ≡ written.old ++ spec.by_table constraint.now ∷ []) }
{
    written.push(Written {
        at: constraint.at,
        kind: kind_of_table(&constraint.rule),
        name: copied(&constraint.name, alloc)?,
    })?;
    Ok(())
}

fn add_by_element(
    written: &mut Items<Written>,
    element: &TableElement,
    alloc: Global,
) -> Result<(), NoMemory>
    ensures { OnOk result (written.new ≡ written.old ++ spec.written_in element.now) }
{
    match element {
        TableElement::Column(c) => add_by_columns(written, c.constraints.as_slice(), alloc),
        TableElement::Constraint(t) => add_by_table(written, t, alloc),
    }
}

fn written_by_all(all: &[TableElement], alloc: Global) -> Result<Items<Written>, NoMemory>
    ensures { IfOk result (λ written. written ≡ spec.written all.now) }
{
    let mut written = Items::new(alloc);
    for element in all {
        add_by_element(&mut written, element, alloc)?;
    }
    Ok(written)
}

/// The constraints of a text in order. An `Err` is want of memory.
pub fn written_in(elements: Elements<'_>, alloc: Global) -> Result<Items<Written>, NoMemory>
    ensures { IfOk result (λ written. written ≡ spec.written (elements_of elements.entry)) }
{
    let mut written = Items::new(alloc);
    match elements {
        Elements::All(all) => return written_by_all(all, alloc),
        Elements::Column(c) => add_by_columns(&mut written, c.constraints.as_slice(), alloc)?,
        Elements::Constraint(t) => add_by_table(&mut written, t, alloc)?,
    }
    Ok(written)
}
