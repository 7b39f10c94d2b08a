// Limits.
ghost use Rattle.std.specs.Prelude.{◌≡◌};
ghost use Rattle.hs_outlines.specs.Limits as spec;
ghost use Rattle.hs_typed.specs.Faults.{noted};

use hs_plan::{Cause, PlacedFault, Which};
use hs_typed::Faults;

fn most(which: Which) -> usize
    ensures { result ≡ spec.most which }
{
    match which {
        Which::Tables => 1024,
        Which::Columns => 64,
        Which::Constraints => 64,
    }
}

/// Notes that these and so many more would be too many. Takes no memory.
pub fn note_beyond(at: u32, which: Which, before: usize, more: usize, faults: &mut Faults)
    ensures { faults.new ≡ noted faults.old (spec.beyond at which before more) }
{
    if before.saturating_add(more) > most(which) {
        faults.push(PlacedFault {
            at,
            cause: Cause::Limit(which),
        });
    }
}
