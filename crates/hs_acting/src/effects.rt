// What becomes of a child row.
ghost use Rattle.std.specs.Prelude.{◌≡◌, [], None};
ghost use Rattle.std.specs.Option.{option_copied};
ghost use Rattle.hs_values.specs.Outcome.{Gives};
ghost use Rattle.hs_actions.specs.Acting as spec;

use crate::columns::with_columns;
use crate::new_keys::new_key;
use hs_actions::Reference;
use hs_plan::ReferentialAction;
use hs_values::{EvalFault, Row, Value};
use std::alloc::Global;

/// What becomes of a child row where a foreign key acts on it, the parent's row being this now, or None where it is
/// deleted: None where the child row is deleted too, and else its values. A fault is that of the first value that its
/// column can't store; `NoMemory` is want of memory.
pub fn effect(
    alloc: Global,
    key: &Reference,
    new: Option<&Row>,
    row: &Row,
) -> Result<Option<Row>, EvalFault>
    ensures { Gives result (spec.effect key.now (option_copied new.entry) row.now) }
{
    match new {
        Some(new) => Ok(Some(changed(alloc, key, new.as_slice(), key.on_update, row)?)),
        None => at_deletion(alloc, key, row),
    }
}

// What becomes of it where the parent's row is deleted.
fn at_deletion(alloc: Global, key: &Reference, row: &Row) -> Result<Option<Row>, EvalFault>
    ensures { Gives result (spec.done key.now key.now.on_delete None row.now) }
{
    match key.on_delete {
        ReferentialAction::Cascade => Ok(None),
        other => Ok(Some(changed(alloc, key, &[], other, row)?)),
    }
}

// The row with the values that an action gives it.
fn changed(
    alloc: Global,
    key: &Reference,
    new: &[Value],
    action: ReferentialAction,
    row: &Row,
) -> Result<Row, EvalFault>
    ensures { Gives result (spec.changed key.now new.now action row.now) }
{
    let values = new_key(alloc, key, new, action)?;
    Ok(with_columns(row.copy()?, key.columns.as_slice(), values))
}
