// What a writing statement reads.
ghost use Rattle.std.specs.Prelude.{IfOk};
ghost use Rattle.hs_acting.specs.Kept.{keys_in};
ghost use Rattle.hs_before.specs.Held.{rows_of};
ghost use Rattle.hs_copied.specs.Copies.{Stand};
ghost use Rattle.hs_plan.specs.Named.{named_in_plan};
ghost use Rattle.hs_rel.specs.Outcome.{IsNoVerdict, stop_of};
ghost use Rattle.hs_rows.specs.Looks.{Looks};
ghost use Rattle.hs_exec.specs.Before.{AreBefore};

use crate::tables::{changed_tables, named_tables};
use hs_acting::References;
use hs_before::{HeldRows, rows_before};
use hs_copied::{TableCopies, copies_of};
use hs_plan::Plan;
use hs_rel::EvalStop;
use hs_rows::Rows;
use std::alloc::Global;

/// Copies of the tables that a statement's expressions and queries name, each of which is read once. An `Err` is a stop of
/// the rows as they gave it, or want of memory.
pub(crate) fn read_named<R: Rows>(
    alloc: Global,
    rows: &mut R,
    plan: &Plan,
) -> Result<TableCopies, EvalStop>
    requires { R.ready rows.old }
    ensures copies { R.tells rows.old → IfOk result (λ copies. Stand (R.tables rows.old) (named_in_plan plan.now) copies) }
    ensures err { IsNoVerdict result }
    ensures looks { Looks R.Rows (stop_of result) rows.old rows.new }
{
    let named = named_tables(alloc, plan)?;
    copies_of(alloc, &named, rows)
}

/// The rows, with their numbers, of the table that an UPDATE or a DELETE changes and of those at which actions look, copied
/// from where they lie. An `Err` is a stop of the rows as they gave it, or want of memory.
pub(crate) fn read_before<R: Rows>(
    alloc: Global,
    keys: &References,
    rows: &mut R,
    plan: &Plan,
) -> Result<HeldRows, EvalStop>
    requires { R.ready rows.old }
    ensures before { R.tells rows.old → IfOk result (λ held. AreBefore (R.tables rows.old) (keys_in keys.now) plan.now (rows_of held)) }
    ensures err { IsNoVerdict result }
    ensures looks { Looks R.Rows (stop_of result) rows.old rows.new }
{
    let changed = changed_tables(alloc, keys, plan)?;
    rows_before(alloc, &changed, rows)
}
