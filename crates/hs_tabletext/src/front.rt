// What stands before each constraint of a definition of several lines.
ghost use Rattle.std.specs.Prelude.{◌≡◌, IfOk};
ghost use Rattle.hs_tabletext.specs.Constraints.{front_text};

use hs_base::NoMemory;
use hs_nametext::print_name;
use hs_values::Chars;
use std::alloc::Global;

/// A line feed, and what a constraint's line has before its name, where the table has this name.
pub(crate) fn front_of(alloc: Global, table: &str) -> Result<Chars, NoMemory>
    ensures { IfOk result (λ made. made ≡ front_text table.now) }
{
    let mut front = Chars::new(alloc);
    front.push_text("\nALTER TABLE ")?;
    print_name(table, &mut front)?;
    front.push_text(" ADD CONSTRAINT ")?;
    Ok(front)
}
