// What the statement of an entry means.
ghost use Rattle.std.specs.Prelude.{◌≡◌, ◌+◌, length, true, IfOk};
ghost use Rattle.hs_asking.specs.Asking.{IsStatement};
ghost use Rattle.hs_entries.specs.Entry.{is_session};
ghost use Rattle.hs_queue.specs.Entries.{entry_of};
ghost use Rattle.hs_requests.specs.Plans.{plan_of};
ghost use Rattle.hs_seams.specs.Calls.{IsEntry};

use hs_ast::Stmt;
use hs_base::NoMemory;
use hs_plan::Plan;
use hs_queue::Entry;
use hs_requested::plan_statement;
use hs_schema::Catalog;
use hs_values::Chars;

// The place behind a session's name and a colon.
fn behind(name: &str) -> u32
    requires { is_session name.now ≡ true }
    ensures { result ≡ length name.now + 1 }
{
    name.len() as u32 + 1
}

/// The place of the statement in its entry: it stands behind the session's name and a colon.
pub(crate) fn place(entry: &Entry) -> u32
    requires { IsEntry entry.now }
    ensures { result ≡ length entry.now.name + 1 }
{
    behind(entry.name.as_str())
}

/// What the statement of an entry means over a catalogue; else its least fault, in the words that stand behind
/// `refused `. An `Err` is want of memory.
pub fn meant(
    catalog: &Catalog,
    entry: &Entry,
    statement: &Stmt,
) -> Result<Result<Plan, Chars>, NoMemory>
    requires entry { IsEntry entry.now }
    requires tree { IsStatement statement.now (entry_of entry.now).text }
    ensures { IfOk result (λ meant. meant ≡ plan_of catalog.now (entry_of entry.now).text) }
{
    let at = place(entry);
    plan_statement(catalog, at, statement)
}
