// The answer to a statement.
ghost use Rattle.std.specs.Prelude.{◌≡◌, List, []};
ghost use Rattle.hs_meaning.specs.Statements.{IsAnswer};
ghost use Rattle.hs_plan.specs.declared.fault.PlacedFault.{PlacedFault};
ghost use Rattle.hs_typed.specs.Faults.{least};

use hs_plan::BindFault;
use hs_typed::Faults;

// What a statement without a fault means. It means something.
fn meant<A: Drop>(part: Option<A>) -> Result<A, BindFault>
    ensures { IsAnswer [] part result }
{
    match part {
        Some(part) => Ok(part),
        None => Err(BindFault::NoMemory),
    }
}

/// What a statement means, where it has no fault, and else what its least fault stands for. A statement without a fault
/// means something.
pub fn answer<A: Drop>(faults: Faults, part: Option<A>) -> Result<A, BindFault>
    ensures { (all : List PlacedFault) → faults ≡ least all → IsAnswer all part result }
{
    match faults.into_answer() {
        Some(fault) => Err(fault),
        None => meant(part),
    }
}
