// The names of constraints, given from the left.
ghost use Rattle.std.specs.Prelude.{◌≡◌, ◌++◌, [], ◌∷◌, IfOk, OnOk};
ghost use Rattle.hs_elements.specs.Faults.{Text};
ghost use Rattle.hs_schema.specs.Catalogue.{Things};
ghost use Rattle.hs_outlines.specs.Given.{IsGiven};
ghost use Rattle.hs_outlines.specs.Named as spec;
ghost use Rattle.hs_typed.specs.Faults.{noted};

use crate::counters::Counters;
use crate::notes::note_where_taken;
use crate::written::Written;
use hs_ast::Identifier;
use hs_base::NoMemory;
use hs_elements::{ConstraintKind, NameSet, free_name, is_taken};
use hs_plan::{Cause, Constraint, PlacedFault, Rule};
use hs_schema::Catalog;
use hs_typed::Faults;
use hs_values::Name;
use std::alloc::Global;

/// The names that were given so far.
#[derive(Drop)]
pub struct Given {
    names: Vec<Name>,
    // The same ones, for look-ups.
    set: NameSet,
    counters: Counters,
}

impl Given {
    fn new(alloc: Global) -> Given
        ensures names { result.names.items ≡ [] }
        ensures given { (things : Things) (table : Text) → IsGiven things table result }
    {
        Given {
            names: Vec::new(alloc),
            set: NameSet::new(alloc),
            counters: Counters::new(),
        }
    }

    // Puts a name behind the others.
    fn add(&mut self, name: Name, alloc: Global) -> Result<(), NoMemory>
        ensures names { OnOk result (self.new.names.items ≡ self.old.names.items ++ name ∷ []) }
        ensures given { (things : Things) (table : Text) → IsGiven things table self.old → OnOk result (IsGiven things table self.new) }
    {
        self.set.add(alloc, name.as_str())?;
        self.names.push(name)?;
        Ok(())
    }

    fn is_taken(&self, catalog: &Catalog, name: &str) -> bool
        ensures { (table : Text) → IsGiven catalog.now table self.now → result ≡ spec.is_taken catalog.now self.now.names.items name.now }
    {
        is_taken(catalog, &self.set, name)
    }

    // The first name of a kind that is free.
    fn first_free(
        &mut self,
        catalog: &Catalog,
        table: &str,
        kind: ConstraintKind,
        alloc: Global,
    ) -> Result<Name, NoMemory>
        requires { IsGiven catalog.now table.now self.old }
        ensures names { self.new.names.items ≡ self.old.names.items }
        ensures given { IsGiven catalog.now table.now self.new }
        ensures name { IfOk result (λ name. spec.IsFirstFree catalog.now table.now self.old.names.items kind name) }
    {
        let from = self.counters.of(kind);
        let (n, name) = free_name(alloc, catalog, &self.set, table, kind, from)?;
        self.counters.set(kind, n);
        Ok(name)
    }

    // The name of the next constraint.
    fn name_of(
        &mut self,
        catalog: &Catalog,
        table: &str,
        w: &Written,
        alloc: Global,
    ) -> Result<Name, NoMemory>
        requires { IsGiven catalog.now table.now self.old }
        ensures names { self.new.names.items ≡ self.old.names.items }
        ensures given { IsGiven catalog.now table.now self.new }
        ensures name { IfOk result (λ name. spec.IsName catalog.now table.now self.old.names.items w.now name) }
    {
        match &w.name {
            Some(own) => Ok(Name::from_text(alloc, own.name.as_str())?),
            None => self.first_free(catalog, table, w.kind, alloc),
        }
    }

    // Notes a constraint's own name, where it is taken.
    fn note_clash(
        &self,
        catalog: &Catalog,
        name: &Option<Identifier>,
        faults: &mut Faults,
        alloc: Global,
    ) -> Result<(), NoMemory>
        ensures { (table : Text) → IsGiven catalog.now table self.now → OnOk result (faults.new ≡ noted faults.old (spec.clash catalog.now self.now.names.items name.now)) }
    {
        let Some(own) = name else {
            return Ok(());
        };
        let taken = self.is_taken(catalog, own.name.as_str());
        note_where_taken(taken, own, faults, alloc)
    }
}

fn is_primary(kind: ConstraintKind) -> bool
    ensures { result ≡ spec.is_primary kind }
{
    match kind {
        ConstraintKind::PrimaryKey => true,
        ConstraintKind::NotNull
        | ConstraintKind::Unique
        | ConstraintKind::Check
        | ConstraintKind::ForeignKey => false,
    }
}

// Notes a primary key beside a first one.
fn note_second(first: &Option<Name>, w: &Written, faults: &mut Faults) -> Result<(), NoMemory>
    ensures { OnOk result (faults.new ≡ noted faults.old (spec.second first.now w.now)) }
{
    let Some(first) = first else {
        return Ok(());
    };
    if is_primary(w.kind) {
        let cause = Cause::Exists(first.copy()?);
        faults.push(PlacedFault { at: w.at, cause });
    }
    Ok(())
}

fn first_key(first: Option<Name>, w: &Written, name: &Name) -> Result<Option<Name>, NoMemory>
    ensures { IfOk result (λ key. key ≡ spec.first_key first w.now name.now) }
{
    let Some(first) = first else {
        if is_primary(w.kind) {
            return Ok(Some(name.copy()?));
        }
        return Ok(None);
    };
    Ok(Some(first))
}

/// The names of the constraints of a text: their own, and else `table_kind_n`, n being the least number from 1 on whose
/// name is free. `first` is the name of the primary key that the table has already. A name that is taken is noted, and a
/// second primary key. An `Err` is want of memory.
pub fn name_all(
    catalog: &Catalog,
    table: &str,
    first: Option<Name>,
    written: &[Written],
    faults: &mut Faults,
    alloc: Global,
) -> Result<Vec<Name>, NoMemory>
    ensures named { IfOk result (λ names. spec.AreNamed catalog.now table.now [] written.now names.items) }
    ensures noted { IfOk result (λ names. faults.new ≡ noted faults.old (spec.name_faults catalog.now [] first written.now names.items)) }
{
    let mut given = Given::new(alloc);
    let mut key = first;
    for w in written {
        given.note_clash(catalog, &w.name, faults, alloc)?;
        note_second(&key, w, faults)?;
        let name = given.name_of(catalog, table, w, alloc)?;
        key = first_key(key, w, &name)?;
        given.add(name, alloc)?;
    }
    Ok(given.names)
}

fn primary_by(constraint: &Constraint) -> bool
    ensures { result ≡ spec.is_primary_key constraint.now.rule }
{
    match &constraint.rule {
        Rule::PrimaryKey(_) => true,
        Rule::NotNull(_)
        | Rule::Unique(_)
        | Rule::Check(_)
        | Rule::ForeignKey(_)
        | Rule::Index(_) => false,
    }
}

/// The name of a table's primary key. An `Err` is want of memory.
pub fn primary_name(constraints: &[Constraint]) -> Result<Option<Name>, NoMemory>
    ensures { IfOk result (λ name. name ≡ spec.primary_name constraints.now) }
{
    match constraints.iter().find(|constraint| primary_by(constraint)) {
        Some(key) => Ok(Some(key.name.copy()?)),
        None => Ok(None),
    }
}
