// Columns one above the other, as in VALUES and in set operations.
ghost use Rattle.std.specs.Prelude.{◌≡◌, ◌≤◌, length};
ghost use Rattle.hs_meaning.specs.Queries as spec;
ghost use Rattle.hs_typed.specs.Faults.{noted};

use hs_meaning::{PlacedColumn, note_types};
use hs_plan::{Cause, Kind, PlacedFault, widest};
use hs_typed::Faults;

/// Notes that numbers of columns differ. That fault has no place.
pub fn note_uneven(faults: &mut Faults)
    ensures { faults.new ≡ noted faults.old spec.uneven }
{
    faults.push(PlacedFault {
        at: 0,
        cause: Cause::Count,
    });
}

/// The kind at which values of two columns are given.
fn common_kind(above: Option<Kind>, below: Option<Kind>) -> Option<Kind>
    ensures { result ≡ spec.common_kind above below }
{
    match (above, below) {
        (Some(above), Some(below)) => widest(above, below),
        (Some(_), None) => None,
        (None, _) => None,
    }
}

fn note_clash(at: u32, above: Option<Kind>, below: Option<Kind>, faults: &mut Faults)
    ensures { faults.new ≡ noted faults.old (spec.clash at above below) }
{
    let (Some(above), Some(below)) = (above, below) else {
        return;
    };
    if widest(above, below).is_none() {
        note_types(at, faults);
    }
}

/// Notes, for each lower column that no kind holds together with the one above it, a fault of types at its item. Takes no
/// memory.
pub fn note_clashes(above: &[PlacedColumn], below: &[PlacedColumn], faults: &mut Faults)
    ensures { faults.new ≡ noted faults.old (spec.clashes above.now below.now) }
{
    for (i, column) in above.iter().enumerate() {
        if i >= below.len() {
            return;
        }
        let under = &below[i];
        note_clash(under.at, column.column.kind, under.column.kind, faults);
    }
}

fn pair_each(above: &mut [PlacedColumn], below: &[PlacedColumn])
    requires { length above.old ≤ length below.now }
    ensures { above.new ≡ spec.paired above.old below.now }
{
    for (i, column) in above.iter_mut().enumerate() {
        column.column.kind = common_kind(column.column.kind, below[i].column.kind);
    }
}

/// Columns above others: they keep their names and places, and have the kinds at which values of both are given. There are
/// as many as the shorter list has. Takes no memory.
pub fn pair(above: &mut Vec<PlacedColumn>, below: &[PlacedColumn])
    ensures { above.new.items ≡ spec.paired above.old.items below.now }
{
    above.truncate(below.len());
    pair_each(above, below);
}
