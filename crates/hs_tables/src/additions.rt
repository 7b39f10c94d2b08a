// What a definition adds to a table.
ghost use Rattle.std.specs.Prelude.{◌≡◌, ◌++◌, [], List, IfOk};
ghost use Rattle.hs_elements.specs.Columns.{columns_of};
ghost use Rattle.hs_elements.specs.Faults.{Text};
ghost use Rattle.hs_outlines.specs.Columns.{columns_faults, definitions};
ghost use Rattle.hs_outlines.specs.Elements.{elements_of};
ghost use Rattle.hs_outlines.specs.Outline.{keys_of, keys_written};
ghost use Rattle.hs_tables.specs.Additions as spec;
ghost use Rattle.hs_tables.specs.Rules as rules;
ghost use Rattle.hs_typed.specs.Faults.{noted};

use crate::elements::add_rules;
use crate::site::{Site, scope_of};
use crate::sought::Rules;
use hs_base::NoMemory;
use hs_binding::Binder;
use hs_elements::Columns;
use hs_outlines::{
    AllColumns, Elements, Key, Outline, add_keys, keys_of, name_all, note_beyond, primary_name,
    written_in,
};
use hs_plan::{Column, Constraint, Which};
use hs_schema::Catalog;
use hs_typed::Faults;
use sqlite_items::Items;
use std::alloc::Global;

/// A table before a definition, which has nothing where the definition makes it.
#[derive(Clone, Copy)]
pub struct Before<'a> {
    pub name: &'a str,
    pub columns: &'a [Column],
    pub constraints: &'a [Constraint],
}

/// A table behind a definition: all its columns, and the constraints that are new, where all are known.
#[derive(Drop)]
pub struct Grown {
    pub columns: Items<Column>,
    pub constraints: Option<Items<Constraint>>,
}

fn all_columns(
    before: &Before<'_>,
    elements: Elements<'_>,
    faults: &mut Faults,
    alloc: Global,
) -> Result<AllColumns, NoMemory>
    ensures columns { IfOk result (λ all. all.columns ≡ spec.every_column (spec.base before.now) (elements_of elements.entry)) }
    ensures names { IfOk result (λ all. all.names ≡ columns_of [] (spec.every_column (spec.base before.now) (elements_of elements.entry))) }
    ensures noted { IfOk result (λ all. faults.new ≡ noted faults.old (columns_faults (columns_of [] before.now.columns.now) (definitions (elements_of elements.entry)))) }
{
    let mut all = AllColumns::of_table(before.columns, alloc)?;
    all.add_written(elements, faults, alloc)?;
    Ok(all)
}

fn all_keys(
    constraints: &[Constraint],
    names: &Columns,
    elements: Elements<'_>,
    alloc: Global,
) -> Result<Items<Key>, NoMemory>
    ensures { IfOk result (λ keys. keys ≡ keys_of constraints.now ++ keys_written names.now (elements_of elements.entry)) }
{
    let mut keys = keys_of(constraints, alloc)?;
    add_keys(&mut keys, names, elements, alloc)?;
    Ok(keys)
}

// What the constraints of a text ask, over all columns and keys of their table.
fn rules_over<B: Binder>(
    binder: &B,
    catalog: &Catalog,
    name: &str,
    all: &AllColumns,
    keys: &[Key],
    elements: Elements<'_>,
    faults: &mut Faults,
    alloc: Global,
) -> Result<Rules, NoMemory>
    ensures rules { IfOk result (λ made. made ≡ (rules.rules (spec.sight_by catalog.now name.now all.now keys.now) (elements_of elements.entry)).part) }
    ensures noted { IfOk result (λ made. faults.new ≡ noted faults.old (rules.rules (spec.sight_by catalog.now name.now all.now keys.now) (elements_of elements.entry)).faults) }
{
    let scope = scope_of(name, all.columns.as_slice(), alloc)?;
    let own = Outline {
        name,
        columns: all.columns.as_slice(),
        names: &all.names,
        keys,
    };
    let site = Site {
        catalog,
        own,
        scope: &scope,
    };
    let mut made = Rules::new(alloc);
    add_rules(&mut made, binder, &site, elements, faults, alloc)?;
    Ok(made)
}

/// What a text adds to a table, in a definition whose table's name is at byte `at`. All that is wrong is noted: names of columns and
/// of constraints that are taken, defaults that can't be assigned, a second primary key, what is wrong in single constraints, and
/// limits. An `Err` is want of memory.
pub fn added<B: Binder>(
    binder: &B,
    catalog: &Catalog,
    at: u32,
    before: &Before<'_>,
    elements: Elements<'_>,
    faults: &mut Faults,
    alloc: Global,
) -> Result<Grown, NoMemory>
    ensures columns { IfOk result (λ made. made.columns ≡ spec.every_column (spec.base before.now) (elements_of elements.entry)) }
    ensures constraints { IfOk result (λ made. (names : List Text) × spec.IsAdded catalog.now at (spec.base before.now) (elements_of elements.entry) names made.constraints faults.old faults.new) }
{
    let all = all_columns(before, elements, faults, alloc)?;
    let written = written_in(elements, alloc)?;
    let first = primary_name(before.constraints)?;
    let names = name_all(
        catalog,
        before.name,
        first,
        written.as_slice(),
        faults,
        alloc,
    )?;
    let keys = all_keys(before.constraints, &all.names, elements, alloc)?;
    let rules = rules_over(
        binder,
        catalog,
        before.name,
        &all,
        keys.as_slice(),
        elements,
        faults,
        alloc,
    )?;
    note_beyond(at, Which::Columns, all.columns.len(), 0, faults);
    note_beyond(
        at,
        Which::Constraints,
        before.constraints.len(),
        written.len(),
        faults,
    );
    Ok(Grown {
        columns: all.columns,
        constraints: rules.into_constraints(&names, alloc)?,
    })
}
