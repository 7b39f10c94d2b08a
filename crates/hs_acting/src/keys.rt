// When a foreign key acts.
ghost use Rattle.std.specs.Prelude.{◌≡◌};
ghost use Rattle.std.specs.Option.{option_copied};
ghost use Rattle.std.specs.Ordering.{is_eq};
ghost use Rattle.hs_values.specs.Order.{seen, order_of};
ghost use Rattle.hs_index.specs.Keys.{value_at, key_in, same_key};
ghost use Rattle.hs_actions.specs.Acting as spec;

use hs_actions::Reference;
use hs_plan::ReferentialAction;
use hs_values::{Row, Value, ValueRef, order};
use std::cmp::Ordering;

/// Whether a row of the parent lost the key that it had: its values in the columns that the foreign key references
/// aren't equal to the old ones. 1 and 1.00 are equal, and so are NULL and NULL. Takes no memory.
pub fn has_lost(key: &Reference, old: &[Value], new: &[Value]) -> bool
    ensures { result ≡ spec.has_lost key.now old.now new.now }
{
    !keeps_key(key.parent_columns.as_slice(), old, new)
}

/// Whether a foreign key acts where a row of its parent was the first, and is the second now, which is None where it is
/// deleted: its action for that is CASCADE, SET NULL or SET DEFAULT, and the key is gone. Takes no memory.
pub fn acts_at(key: &Reference, old: &[Value], new: Option<&Row>) -> bool
    ensures { result ≡ spec.acts_at key.now old.now (option_copied new.entry) }
{
    match new {
        Some(new) => acts(key.on_update) && has_lost(key, old, new.as_slice()),
        None => acts(key.on_delete),
    }
}

fn acts(action: ReferentialAction) -> bool
    ensures { result ≡ spec.acts action }
{
    match action {
        ReferentialAction::NoAction | ReferentialAction::Restrict => false,
        ReferentialAction::Cascade | ReferentialAction::SetNull | ReferentialAction::SetDefault =>
            true,
    }
}

// Whether two rows have the same key in these columns.
#[tactic(auto, using(crate::proofs::Alike::alike, crate::proofs::Alike::unlike))]
fn keeps_key(columns: &[u32], old: &[Value], new: &[Value]) -> bool
    ensures { result ≡ same_key (key_in columns.now old.now) (key_in columns.now new.now) }
{
    for column in columns {
        if !is_same(value_in(old, *column), value_in(new, *column)) {
            return false;
        }
    }
    true
}

fn is_same(a: ValueRef<'_>, b: ValueRef<'_>) -> bool
    ensures { result ≡ is_eq (order_of (seen a.entry) (seen b.entry)) }
{
    order(a, b) == Ordering::Equal
}

// The value in a column, and NULL where there is no such column.
fn value_in(row: &[Value], column: u32) -> ValueRef<'_>
    ensures { seen result ≡ value_at row.now column }
{
    match row.get(column as usize) {
        Some(value) => value.as_value_ref(),
        None => ValueRef::Null,
    }
}
