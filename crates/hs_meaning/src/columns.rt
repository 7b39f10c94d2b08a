// What a column means where it is written.
ghost use Rattle.std.specs.Prelude.{◌≡◌, OnErr};
ghost use Rattle.hs_meaning.specs.Expressions.{column_meaning, place_meaning};
ghost use Rattle.hs_scope.specs.Names.{found_in};
ghost use Rattle.hs_meaning.specs.Around.{seen};
ghost use Rattle.hs_meaning.specs.Finding.{Finds};
ghost use Rattle.hs_typed.specs.Faults.{noted};

use crate::around::Surroundings;
use crate::notes::{note_ambiguous, note_missing, note_types};
use hs_ast::ColumnName;
use hs_base::NoMemory;
use hs_plan::{Expr, Kind};
use hs_scope::Found;
use hs_typed::{Faults, Typed};
use std::alloc::Global;

/// The column at a place of the FROM so many FROMs outward, which is written at byte `at`. None where nothing is known of its
/// values, and where it may not stand there, which is noted as a fault of types.
pub fn column_at(
    at: u32,
    around: &Surroundings<'_>,
    outward: u32,
    place: u32,
    kind: Option<Kind>,
    faults: &mut Faults,
) -> Option<Typed>
    ensures part { result ≡ (place_meaning at (seen around.now) outward place kind).part }
    ensures noted { faults.new ≡ noted faults.old (place_meaning at (seen around.now) outward place kind).faults }
{
    if !around.groups.may_stand(outward, place) {
        note_types(at, faults);
        return None;
    }
    match kind {
        Some(kind) => Some(Typed {
            tree: Expr::Column { outward, at: place },
            kind,
        }),
        None => None,
    }
}

/// What a column's name means that is written at byte `at`: the first FROM from the inside outward that has the name decides.
/// None where nothing is known of its values, and where it is a fault, which is noted: no FROM has it, the first one has it
/// twice, or it may not stand there. An `Err` is want of memory, and then nothing is noted.
pub fn column(
    at: u32,
    name: &ColumnName,
    around: &Surroundings<'_>,
    faults: &mut Faults,
    alloc: Global,
) -> Result<Option<Typed>, NoMemory>
    ensures found { Finds (column_meaning at (seen around.now) name.now (found_in (seen around.now).scopes name.now)) faults.old faults.new result }
    ensures err { OnErr result (faults.new ≡ faults.old) }
{
    match around.scopes.find(name)? {
        Found::Column {
            outward,
            at: place,
            kind,
        } => Ok(column_at(at, around, outward, place, kind, faults)),
        Found::Missing => {
            note_missing(at, &name.column, faults, alloc)?;
            Ok(None)
        }
        Found::Ambiguous => {
            note_ambiguous(at, name.column.as_str(), faults, alloc)?;
            Ok(None)
        }
    }
}
