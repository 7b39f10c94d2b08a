// What the constraints of a text ask, in its order.
ghost use Rattle.std.specs.Prelude.{◌≡◌, OnOk};
ghost use Rattle.hs_ast.specs.declared.definition.TableElement.TheVariants as element;
ghost use Rattle.hs_outlines.specs.Elements.{elements_of};
ghost use Rattle.hs_tables.specs.Rules as spec;
ghost use Rattle.hs_tables.specs.Site.{seen};
ghost use Rattle.hs_typed.specs.Faults.{noted};

use crate::rules::{column_rule, table_rule};
use crate::site::Site;
use crate::sought::Rules;
use hs_ast::{ColumnConstraint, Identifier, TableConstraint, TableElement};
use hs_base::NoMemory;
use hs_binding::Binder;
use hs_outlines::Elements;
use hs_typed::Faults;
use std::alloc::Global;

fn add_by_columns<B: Binder>(
    rules: &mut Rules,
    binder: &B,
    site: &Site<'_>,
    name: &Identifier,
    constraints: &[ColumnConstraint],
    faults: &mut Faults,
    alloc: Global,
) -> Result<(), NoMemory>
    ensures rules { OnOk result (rules.new ≡ spec.found_after rules.old (spec.column_rules (seen site.now) name.now constraints.now)) }
    ensures noted { OnOk result (faults.new ≡ noted faults.old (spec.faults_of (spec.column_rules (seen site.now) name.now constraints.now))) }
{
    for constraint in constraints {
        rules.add(column_rule(binder, site, name, &constraint.rule, faults, alloc)?)?;
    }
    Ok(())
}

fn add_by_table<B: Binder>(
    rules: &mut Rules,
    binder: &B,
    site: &Site<'_>,
    t: &TableConstraint,
    faults: &mut Faults,
    alloc: Global,
) -> Result<(), NoMemory>
    ensures rules { OnOk result (rules.new ≡ spec.found_after rules.old (spec.element_rules (seen site.now) (element.Constraint t.now))) }
    ensures noted { OnOk result (faults.new ≡ noted faults.old (spec.faults_of (spec.element_rules (seen site.now) (element.Constraint t.now)))) }
{
    rules.add(table_rule(binder, site, t.at, &t.rule, faults, alloc)?)
}

fn add_by_element<B: Binder>(
    rules: &mut Rules,
    binder: &B,
    site: &Site<'_>,
    e: &TableElement,
    faults: &mut Faults,
    alloc: Global,
) -> Result<(), NoMemory>
    ensures rules { OnOk result (rules.new ≡ spec.found_after rules.old (spec.element_rules (seen site.now) e.now)) }
    ensures noted { OnOk result (faults.new ≡ noted faults.old (spec.faults_of (spec.element_rules (seen site.now) e.now))) }
{
    match e {
        TableElement::Column(c) => add_by_columns(
            rules,
            binder,
            site,
            &c.name,
            c.constraints.as_slice(),
            faults,
            alloc,
        ),
        TableElement::Constraint(t) => add_by_table(rules, binder, site, t, faults, alloc),
    }
}

fn add_by_all<B: Binder>(
    rules: &mut Rules,
    binder: &B,
    site: &Site<'_>,
    all: &[TableElement],
    faults: &mut Faults,
    alloc: Global,
) -> Result<(), NoMemory>
    ensures rules { OnOk result (rules.new ≡ spec.found_after rules.old (spec.all_rules (seen site.now) all.now)) }
    ensures noted { OnOk result (faults.new ≡ noted faults.old (spec.faults_of (spec.all_rules (seen site.now) all.now))) }
{
    for e in all {
        add_by_element(rules, binder, site, e, faults, alloc)?;
    }
    Ok(())
}

/// Puts what the constraints of a text ask behind the others, with what is wrong in them noted. An `Err` is want of memory.
pub fn add_rules<B: Binder>(
    rules: &mut Rules,
    binder: &B,
    site: &Site<'_>,
    elements: Elements<'_>,
    faults: &mut Faults,
    alloc: Global,
) -> Result<(), NoMemory>
    ensures rules { OnOk result (rules.new ≡ spec.found_after rules.old (spec.all_rules (seen site.now) (elements_of elements.entry))) }
    ensures noted { OnOk result (faults.new ≡ noted faults.old (spec.faults_of (spec.all_rules (seen site.now) (elements_of elements.entry)))) }
{
    match elements {
        Elements::All(all) => add_by_all(rules, binder, site, all, faults, alloc),
        Elements::Column(c) => add_by_columns(
            rules,
            binder,
            site,
            &c.name,
            c.constraints.as_slice(),
            faults,
            alloc,
        ),
        Elements::Constraint(t) => add_by_table(rules, binder, site, t, faults, alloc),
    }
}
