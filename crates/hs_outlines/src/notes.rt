// Faults at names.
ghost use Rattle.std.specs.Prelude.{◌≡◌, List, [], ◌∷◌, None, OnOk};
ghost use Rattle.hs_elements.specs.Columns as its;
ghost use Rattle.hs_elements.specs.Faults as spec;
ghost use Rattle.hs_plan.specs.declared.fault.PlacedFault.{PlacedFault};
ghost use Rattle.hs_typed.specs.Faults.{noted};

use hs_ast::Identifier;
use hs_base::NoMemory;
use hs_elements::{Columns, Faults as Found};
use hs_plan::{Cause, PlacedFault};
use hs_typed::Faults;
use hs_values::Name;
use std::alloc::Global;

/// Notes faults that were found apart.
pub fn note_found(found: Found, faults: &mut Faults)
    ensures { (fs : List PlacedFault) → found ≡ spec.least_of None fs → faults.new ≡ noted faults.old fs }
{
    match found.into_least() {
        Some(fault) => faults.push(fault),
        None => (),
    }
}

/// Notes that a name is taken, or named twice. An `Err` is want of memory.
pub fn note_exists(name: &Identifier, faults: &mut Faults, alloc: Global) -> Result<(), NoMemory>
    ensures { OnOk result (faults.new ≡ noted faults.old (spec.exists_at name.now ∷ [])) }
{
    faults.push(PlacedFault {
        at: name.at,
        cause: Cause::Exists(Name::from_text(alloc, name.name.as_str())?),
    });
    Ok(())
}

/// Notes that there is no table of a name, or no key of it that a foreign key may reference. An `Err` is want of
/// memory.
pub fn note_no_table(name: &Identifier, faults: &mut Faults, alloc: Global) -> Result<(), NoMemory>
    ensures { OnOk result (faults.new ≡ noted faults.old (spec.no_such_table_at name.now ∷ [])) }
{
    faults.push(PlacedFault {
        at: name.at,
        cause: Cause::NoSuchTable(Name::from_text(alloc, name.name.as_str())?),
    });
    Ok(())
}

/// Notes that there is no column, constraint or index of a name. An `Err` is want of memory.
pub fn note_no_column(name: &Identifier, faults: &mut Faults, alloc: Global) -> Result<(), NoMemory>
    ensures { OnOk result (faults.new ≡ noted faults.old (spec.no_such_column_at name.now ∷ [])) }
{
    faults.push(PlacedFault {
        at: name.at,
        cause: Cause::NoSuchColumn(Name::from_text(alloc, name.name.as_str())?),
    });
    Ok(())
}

/// Notes that a name is taken, where that is so. An `Err` is want of memory.
pub fn note_where_taken(
    taken: bool,
    name: &Identifier,
    faults: &mut Faults,
    alloc: Global,
) -> Result<(), NoMemory>
    ensures { OnOk result (faults.new ≡ noted faults.old (spec.where_so taken (spec.exists_at name.now))) }
{
    if taken {
        note_exists(name, faults, alloc)?;
    }
    Ok(())
}

/// Notes each name of a list that repeats an earlier one of it. An `Err` is want of memory.
pub fn note_repeated(
    names: &[Identifier],
    faults: &mut Faults,
    alloc: Global,
) -> Result<(), NoMemory>
    ensures { OnOk result (faults.new ≡ noted faults.old (spec.repeated [] names.now)) }
{
    let mut found = Found::new();
    found.repeated(alloc, names)?;
    note_found(found, faults);
    Ok(())
}

/// Notes each name of a list that is no column's. An `Err` is want of memory.
pub fn note_unknown(
    columns: &Columns,
    names: &[Identifier],
    faults: &mut Faults,
    alloc: Global,
) -> Result<(), NoMemory>
    ensures { OnOk result (faults.new ≡ noted faults.old (its.unknown columns.now names.now)) }
{
    let mut found = Found::new();
    columns.unknown(alloc, names, &mut found)?;
    note_found(found, faults);
    Ok(())
}
