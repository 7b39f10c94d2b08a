// The whole footprint.
ghost use Rattle.std.specs.Prelude.{◌≡◌, ◌↔◌, map, IfOk};
ghost use Rattle.std.specs.List.{Contains};
ghost use Rattle.std.specs.List.Sorted.{IsStrictlyIncreasing};
ghost use Rattle.hs_base.specs.declared.numbers.TableNo.{TableNo};
ghost use Rattle.hs_closure.specs.Changing.{IsRead, IsWritten};
ghost use Rattle.hs_footprint.specs.Touched as spec;

use crate::keys::keys_changed;
use crate::parents::parents_named;
use crate::rows::rows_changed;
use hs_base::NoMemory;
use hs_cascade::RowsBefore;
use hs_claims::Footprint;
use hs_closure::{tables_read, tables_written};
use hs_plan::{Changes, Plan};
use hs_schema::Catalog;
use std::alloc::Global;

/// What a bound statement touches, whose changes over these rows are given, none where its evaluation is a fault: the tables
/// that it reads and those that it writes, closed over foreign keys, each once and in ascending order; the committed rows
/// that it changes; the unique keys that it puts or removes, where a row comes or goes or its key is another one than
/// before; and the parent keys that its put rows name. A key with a NULL is no key. Rows and keys come in the order of the
/// changes. An `Err` is want of memory.
pub fn footprint<B: RowsBefore>(
    alloc: Global,
    cat: &Catalog,
    before: &B,
    plan: &Plan,
    changes: &Changes,
) -> Result<Footprint, NoMemory>
    ensures ascending { IfOk result (λ f. IsStrictlyIncreasing (map (λ t. t.0) f.reads) × IsStrictlyIncreasing (map (λ t. t.0) f.writes)) }
    ensures reads { IfOk result (λ f. (table : TableNo) → Contains f.reads table ↔ IsRead cat.now plan.now table) }
    ensures writes { IfOk result (λ f. (table : TableNo) → Contains f.writes table ↔ IsWritten cat.now plan.now table) }
    ensures rows { IfOk result (λ f. f.rows ≡ spec.rows_changed changes.now) }
    ensures keys { IfOk result (λ f. f.keys ≡ spec.keys_changed cat.now (B.maps before.now) changes.now) }
    ensures parents { IfOk result (λ f. f.parents ≡ spec.parents_named cat.now changes.now) }
{
    Ok(Footprint {
        reads: tables_read(alloc, plan, cat)?,
        writes: tables_written(alloc, plan, cat)?,
        rows: rows_changed(alloc, changes.as_slice())?,
        keys: keys_changed(alloc, cat, before, changes.as_slice())?,
        parents: parents_named(alloc, cat, changes.as_slice())?,
    })
}
