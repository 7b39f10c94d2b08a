// Whether two changes are the same.
ghost use Rattle.std.specs.Prelude.{◌≡◌, ◌↔◌, IsTrue};
ghost use Rattle.std.specs.List.{All};
ghost use Rattle.hs_sameness.specs.Changes.{IsPlainChange};

use crate::definitions::same_definition;
use crate::rows::same_row;
use hs_plan::Change;

fn same_change(a: &Change, b: &Change) -> bool
    requires { IsPlainChange a.now }
    ensures { IsTrue result ↔ (a.now ≡ b.now) }
{
    match (a, b) {
        (Change::Insert(table, row), Change::Insert(other, values)) => {
            table.0 == other.0 && same_row(row.as_slice(), values.as_slice())
        }
        (Change::Put(table, number, row), Change::Put(other, at, values)) => {
            table.0 == other.0 && number.0 == at.0 && same_row(row.as_slice(), values.as_slice())
        }
        (Change::Delete(table, number), Change::Delete(other, at)) => {
            table.0 == other.0 && number.0 == at.0
        }
        (Change::Define(definition), Change::Define(other)) => {
            same_definition(definition.get(), other.get())
        }
        _ => false,
    }
}

/// Whether two lists of changes are the same, of which the first has no query and no aggregate in a CHECK. Values are the same
/// with their scales: 1 and 1.00 are not. Takes no memory.
pub fn same_changes(a: &[Change], b: &[Change]) -> bool
    requires { All IsPlainChange a.now }
    ensures { IsTrue result ↔ (a.now ≡ b.now) }
{
    if a.len() != b.len() {
        return false;
    }
    for i in 0..a.len() {
        if !same_change(&a[i], &b[i]) {
            return false;
        }
    }
    true
}
