// Changes of commits as they are written.
ghost use Rattle.std.specs.Prelude.{◌≡◌, ◌++◌, OnOk};
ghost use Rattle.std.specs.List.{All};
ghost use Rattle.hs_committext.specs.Changes.{IsPrintable};
ghost use Rattle.hs_committext.specs.Commits.{changes_text};

use crate::{Conditions, print_change};
use hs_base::NoMemory;
use hs_plan::Change;
use hs_schema::Catalog;
use hs_values::Chars;

/// Adds the canonical texts of changes beside this catalogue, which is as it was before all of them: each with a line feed
/// behind it. Their values are lawful, and the conditions of CHECKs have texts. An `Err` is want of memory, and then a part of
/// the texts may be there.
pub fn print_changes<C: Conditions>(
    changes: &[Change],
    catalog: &Catalog,
    conditions: &C,
    out: &mut Chars,
) -> Result<(), NoMemory>
    requires { All (IsPrintable (C.wording conditions.now) catalog.now) changes.now }
    ensures { OnOk result (out.new ≡ out.old ++ changes_text (C.wording conditions.now) catalog.now changes.now) }
{
    for change in changes {
        print_change(change, catalog, conditions, out)?;
        out.push_text("\n")?;
    }
    Ok(())
}
