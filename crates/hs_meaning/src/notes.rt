// Faults at places.
ghost use Rattle.std.specs.Prelude.{◌≡◌, OnOk, OnErr};
ghost use Rattle.hs_typed.specs.Faults.{noted, fault_at};

use hs_ast::Word;
use hs_base::NoMemory;
use hs_plan::{Cause, PlacedFault};
use hs_typed::Faults;
use hs_values::Name;
use std::alloc::Global;

/// Notes that a rule of types is broken at a place, counted in bytes.
pub fn note_types(at: u32, faults: &mut Faults)
    ensures { faults.new ≡ noted faults.old (fault_at at Cause.Types) }
{
    faults.push(PlacedFault {
        at,
        cause: Cause::Types,
    });
}

/// Notes that there is no column of a name. An `Err` is want of memory, and then nothing is noted.
pub fn note_missing(
    at: u32,
    column: &Word,
    faults: &mut Faults,
    alloc: Global,
) -> Result<(), NoMemory>
    ensures noted { OnOk result (faults.new ≡ noted faults.old (fault_at at (Cause.NoSuchColumn column.now))) }
    ensures err { OnErr result (faults.new ≡ faults.old) }
{
    let cause = Cause::NoSuchColumn(Name::from_text(alloc, column.as_str())?);
    faults.push(PlacedFault { at, cause });
    Ok(())
}

/// Notes that a name may mean several things. An `Err` is want of memory, and then nothing is noted.
pub fn note_ambiguous(
    at: u32,
    name: &str,
    faults: &mut Faults,
    alloc: Global,
) -> Result<(), NoMemory>
    ensures noted { OnOk result (faults.new ≡ noted faults.old (fault_at at (Cause.Ambiguous name.now))) }
    ensures err { OnErr result (faults.new ≡ faults.old) }
{
    let cause = Cause::Ambiguous(Name::from_text(alloc, name)?);
    faults.push(PlacedFault { at, cause });
    Ok(())
}
