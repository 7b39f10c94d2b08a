// Which statements are refused before they want anything.
ghost use Rattle.std.specs.Prelude.{◌≡◌, ◌&&◌, Ok, IfOk, IsOkAnd};
ghost use Rattle.std.specs.List.{list_any};
ghost use Rattle.std.specs.Option.{option_map_or};
ghost use Rattle.hs_asking.specs.Asking.{IsAdmitted, IsStatement};
ghost use Rattle.hs_language.specs.Sql as sql;
ghost use Rattle.hs_language.specs.Words.{read_only_words};
ghost use Rattle.hs_queue.specs.Entries.{entry_of};
ghost use Rattle.hs_requests.specs.Plans.{plan_of};
ghost use Rattle.hs_seams.specs.Calls.{IsEntry};

use crate::meaning::meant;
use hs_ast::Stmt;
use hs_base::NoMemory;
use hs_plan::{LockedTable, Plan};
use hs_queue::Entry;
use hs_schema::Catalog;
use hs_values::Chars;
use std::alloc::Global;

fn locks_for_write(locked: &[LockedTable]) -> bool
    ensures { result ≡ list_any sql.locks_for_write locked.now }
{
    locked.iter().any(|table| table.write)
}

// Whether it may not stand in a read-only transaction.
fn writes(plan: &Plan) -> bool
    ensures { result ≡ sql.writes plan.now }
{
    match plan {
        Plan::Insert(_) => true,
        Plan::Update(_) => true,
        Plan::Delete(_) => true,
        Plan::Define(_) => true,
        Plan::LockTable(locked) => locks_for_write(locked.as_slice()),
        Plan::Query(_) => false,
        Plan::Session(_) => false,
    }
}

fn is_refused(read_only: bool, plan: &Plan) -> bool
    ensures { result ≡ (read_only && sql.writes plan.now) }
{
    if read_only {
        return writes(plan);
    }
    false
}

fn read_only_text(alloc: Global) -> Result<Chars, NoMemory>
    ensures { IfOk result (λ text. text ≡ read_only_words) }
{
    Ok(Chars::from_text(alloc, "read only")?)
}

// Why a plan is refused at once: it would write in a read-only transaction.
fn reason(alloc: Global, read_only: bool, plan: &Plan) -> Result<Option<Chars>, NoMemory>
    ensures { IfOk result (λ why. why ≡ sql.refused_by read_only (Ok plan.now)) }
{
    let refused = is_refused(read_only, plan);
    if refused {
        let why = read_only_text(alloc)?;
        return Ok(Some(why));
    }
    Ok(None)
}

// An answer, unless there is a reason against it.
fn unless<T: Drop>(
    answer: T,
    why: Result<Option<Chars>, NoMemory>,
) -> Result<Result<T, Chars>, NoMemory>
    ensures { IfOk result (λ told. IsOkAnd why (λ why. told ≡ option_map_or (λ text. Err text) why (Ok answer))) }
{
    match why? {
        Some(why) => Ok(Err(why)),
        None => Ok(Ok(answer)),
    }
}

// What is bound, unless it is refused at once.
fn unless_refused(
    alloc: Global,
    read_only: bool,
    plan: Plan,
) -> Result<Result<Plan, Chars>, NoMemory>
    ensures { IfOk result (IsAdmitted read_only (Ok plan)) }
{
    let why = reason(alloc, read_only, &plan);
    unless(plan, why)
}

/// What a data statement or a definition means over a catalogue; else why it is refused before it wants anything: its
/// least fault, or that it would write in a read-only transaction. An `Err` is want of memory.
pub fn admitted(
    catalog: &Catalog,
    entry: &Entry,
    statement: &Stmt,
    read_only: bool,
) -> Result<Result<Plan, Chars>, NoMemory>
    requires entry { IsEntry entry.now }
    requires tree { IsStatement statement.now (entry_of entry.now).text }
    ensures { IfOk result (IsAdmitted read_only (plan_of catalog.now (entry_of entry.now).text)) }
{
    let answer = meant(catalog, entry, statement)?;
    match answer {
        Ok(plan) => unless_refused(catalog.alloc(), read_only, plan),
        Err(why) => Ok(Err(why)),
    }
}
