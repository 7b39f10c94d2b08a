// The faults that are found in a definition.
ghost use Rattle.std.specs.Prelude.{◌≡◌, None, ◌∷◌, [], length, OnOk, Option};
ghost use Rattle.hs_elements.specs.Faults as spec;

use crate::names::NameSet;
use hs_ast::Identifier;
use hs_base::NoMemory;
use hs_plan::{Cause, PlacedFault};
use hs_values::Name;
use std::alloc::Global;
use std::marker::Model;

/// The least of the faults that were found. Contracts see it, or None.
#[derive(Drop)]
pub struct Faults {
    least: Option<PlacedFault>,
}

impl Model for Faults {
    ghost use Rattle.std.specs.Prelude.{Option};
    ghost use Rattle.hs_plan.specs.declared.fault.PlacedFault.{PlacedFault};

    ghost Value = { Option PlacedFault };

    ghost view = { λ f. f.least };
}

fn lesser(least: Option<PlacedFault>, found: PlacedFault) -> PlacedFault
    ensures { spec.lesser least found ≡ Some result }
{
    match least {
        None => found,
        Some(least) => {
            if found.is_before(&least) {
                found
            } else {
                least
            }
        }
    }
}

impl Faults {
    /// None is found.
    pub fn new() -> Faults
        ensures { result ≡ None }
    {
        Faults { least: None }
    }

    /// One more is found.
    pub fn push(&mut self, fault: PlacedFault)
        ensures { self.new ≡ spec.lesser self.old fault }
    {
        self.least = Some(lesser(self.least.take(), fault));
    }

    /// The least of those found.
    pub fn into_least(self) -> Option<PlacedFault>
        ensures { result ≡ self }
    {
        self.least
    }

    /// A name is taken, or named twice.
    pub fn exists(&mut self, alloc: Global, name: &Identifier) -> Result<(), NoMemory>
        ensures { OnOk result (self.new ≡ spec.lesser self.old (spec.exists_at name.now)) }
    {
        self.push(PlacedFault {
            at: name.at,
            cause: Cause::Exists(Name::from_text(alloc, name.name.as_str())?),
        });
        Ok(())
    }

    /// There is no table of a name, or no key of it that a foreign key may reference.
    pub fn no_such_table(&mut self, alloc: Global, name: &Identifier) -> Result<(), NoMemory>
        ensures { OnOk result (self.new ≡ spec.lesser self.old (spec.no_such_table_at name.now)) }
    {
        self.push(PlacedFault {
            at: name.at,
            cause: Cause::NoSuchTable(Name::from_text(alloc, name.name.as_str())?),
        });
        Ok(())
    }

    /// There is no column, constraint or index of a name.
    pub fn no_such_column(&mut self, alloc: Global, name: &Identifier) -> Result<(), NoMemory>
        ensures { OnOk result (self.new ≡ spec.lesser self.old (spec.no_such_column_at name.now)) }
    {
        self.push(PlacedFault {
            at: name.at,
            cause: Cause::NoSuchColumn(Name::from_text(alloc, name.name.as_str())?),
        });
        Ok(())
    }

    // A name is named twice, where that is so.
    fn exists_where(
        &mut self,
        alloc: Global,
        named: bool,
        name: &Identifier,
    ) -> Result<(), NoMemory>
        ensures { OnOk result (self.new ≡ spec.least_of self.old (spec.where_so named (spec.exists_at name.now))) }
    {
        if named {
            self.exists(alloc, name)
        } else {
            Ok(())
        }
    }

    /// Finds each name of a list that repeats an earlier one of it.
    pub fn repeated(&mut self, alloc: Global, names: &[Identifier]) -> Result<(), NoMemory>
        ensures { OnOk result (self.new ≡ spec.least_of self.old (spec.repeated [] names.now)) }
    {
        let mut before = NameSet::new(alloc);
        for name in names {
            let text = name.name.as_str();
            let named = before.has(text);
            self.exists_where(alloc, named, name)?;
            before.add(alloc, text)?;
        }
        Ok(())
    }
}
