// Reading of tables that are named.
ghost use Rattle.std.specs.Prelude.{◌≡◌, IfOk};
ghost use Rattle.hs_rel.specs.Outcome.{IsNoVerdict, stop_of};
ghost use Rattle.hs_rows.specs.Looks.{Looks};
ghost use Rattle.hs_copied.specs.Copies.{Stand, is_held, over, with_rows};

use crate::table_copies::{TableCopies, TableCopy};
use hs_base::{TableNo, Tables};
use hs_rel::EvalStop;
use hs_rows::{Rows, all_rows};
use hs_values::RowList;
use std::alloc::Global;

/// Whether the rows of a table were copied.
fn is_held(copies: &[TableCopy], table: TableNo) -> bool
    ensures { result ≡ is_held copies.now table.0 }
{
    for copy in copies {
        if copy.table.0 == table.0 {
            return true;
        }
    }
    false
}

/// Copies of the rows of each of these tables, of which each is read once. An `Err` is a stop of the rows as they gave
/// it, or want of memory.
pub fn copies_of<R: Rows>(
    alloc: Global,
    named: &Tables,
    rows: &mut R,
) -> Result<TableCopies, EvalStop>
    requires { R.ready rows.old }
    ensures rows { R.tells rows.old → IfOk result (λ copies. Stand (R.tables rows.old) named.now copies) }
    ensures err { IsNoVerdict result }
    ensures looks { Looks R.Rows (stop_of result) rows.old rows.new }
{
    with_others(Vec::new(alloc), named, rows)
}

/// The same, but of one table these rows are held in place of its own, which isn't read.
pub fn copies_beside<R: Rows>(
    alloc: Global,
    table: TableNo,
    kept: RowList,
    named: &Tables,
    rows: &mut R,
) -> Result<TableCopies, EvalStop>
    requires { R.ready rows.old }
    ensures rows { R.tells rows.old → IfOk result (λ copies. Stand (with_rows (R.tables rows.old) table kept) named.now copies) }
    ensures err { IsNoVerdict result }
    ensures looks { Looks R.Rows (stop_of result) rows.old rows.new }
{
    let mut first = Vec::new(alloc);
    first.push(TableCopy { table, rows: kept })?;
    with_others(first, named, rows)
}

/// These copies, and of each of these tables that isn't among them copies of its rows.
fn with_others<R: Rows>(
    first: Vec<TableCopy>,
    named: &Tables,
    rows: &mut R,
) -> Result<TableCopies, EvalStop>
    requires { R.ready rows.old }
    ensures rows { R.tells rows.old → IfOk result (λ copies. Stand (over first.items (R.tables rows.old)) named.now copies) }
    ensures err { IsNoVerdict result }
    ensures looks { Looks R.Rows (stop_of result) rows.old rows.new }
{
    let alloc = *first.allocator();
    let mut copies = first;
    for table in named.as_slice() {
        if !is_held(&copies, *table) {
            let held = all_rows(alloc, rows, *table)?;
            copies.push(TableCopy {
                table: *table,
                rows: held,
            })?;
        }
    }
    Ok(TableCopies { copies })
}
