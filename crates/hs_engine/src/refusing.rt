// Why statements are refused before they want anything, and names as they stand in lines.
ghost use Rattle.std.specs.Prelude.{◌≡◌, Bool, Result, IfOk};
ghost use Rattle.hs_asking.specs.Asking.{IsAdmitted, IsStatement};
ghost use Rattle.hs_language.specs.Sql.{refused_by};
ghost use Rattle.hs_nametext.specs.Names.{name_text};
ghost use Rattle.hs_plan.specs.declared.plan.Plan.{Plan as ThePlan};
ghost use Rattle.hs_queue.specs.Entries.{entry_of};
ghost use Rattle.hs_requests.specs.Plans.{plan_of};
ghost use Rattle.hs_schema.specs.Catalogue.{Text};
ghost use Rattle.hs_seams.specs.Calls.{IsEntry};

use hs_asking::admitted;
use hs_ast::Stmt;
use hs_base::NoMemory;
use hs_nametext::print_name;
use hs_plan::Plan;
use hs_queue::Entry;
use hs_schema::Catalog;
use hs_values::{Chars, Name};
use std::alloc::Global;

fn why(admission: Result<Plan, Chars>) -> Option<Chars>
    ensures { (read_only : Bool) (meant : Result ThePlan Text) → IsAdmitted read_only meant admission → result ≡ refused_by read_only meant }
{
    match admission {
        Ok(plan) => {
            drop(plan);
            None
        }
        Err(why) => Some(why),
    }
}

/// Why the statement of an entry is refused before it wants anything, in a read-only transaction or another. An `Err` is
/// want of memory.
pub(crate) fn refusal(
    catalog: &Catalog,
    entry: &Entry,
    statement: &Stmt,
    read_only: bool,
) -> Result<Option<Chars>, NoMemory>
    requires entry { IsEntry entry.now }
    requires tree { IsStatement statement.now (entry_of entry.now).text }
    ensures { IfOk result (λ why. why ≡ refused_by read_only (plan_of catalog.now (entry_of entry.now).text)) }
{
    let admission = admitted(catalog, entry, statement, read_only)?;
    Ok(why(admission))
}

/// A name as it stands in a line. An `Err` is want of memory.
pub(crate) fn printed(alloc: Global, name: &Name) -> Result<Chars, NoMemory>
    ensures { IfOk result (λ text. text ≡ name_text name.now) }
{
    let mut text = Chars::new(alloc);
    print_name(name.as_str(), &mut text)?;
    Ok(text)
}
