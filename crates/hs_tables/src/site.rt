// What the constraints of a definition see.
ghost use Rattle.std.specs.Prelude.{◌≡◌, [], ◌∷◌, map, IfOk};
ghost use Rattle.hs_scope.specs.Names.{column_of};

use hs_base::NoMemory;
use hs_outlines::Outline;
use hs_plan::Column;
use hs_schema::Catalog;
use hs_scope::{FromTable, Scope};
use std::alloc::Global;

/// What the constraints of a definition see.
#[derive(Clone, Copy)]
pub struct Site<'a> {
    pub catalog: &'a Catalog,
    /// Their table, with all its columns and keys.
    pub own: Outline<'a>,
    /// The same columns, as a CHECK sees them.
    pub scope: &'a Scope,
}

/// A FROM of one table alone. An `Err` is want of memory.
pub fn scope_of(name: &str, columns: &[Column], alloc: Global) -> Result<Scope, NoMemory>
    ensures { IfOk result (λ scope. scope ≡ record { name = name.now; columns = map column_of columns.now } ∷ []) }
{
    let mut scope = Scope::new(alloc);
    scope.push(alloc, FromTable::of_table(alloc, name, columns)?)?;
    Ok(scope)
}
