// A table that is bound comes behind those before it.
ghost use Rattle.std.specs.Prelude.{◌≡◌, ◌++◌, ◌∷◌, [], IfOk, OnOk};
ghost use Rattle.hs_meaning.specs.From.{doubled};
ghost use Rattle.hs_typed.specs.Faults.{noted};

use hs_ast::Identifier;
use hs_base::NoMemory;
use hs_clauses::{BoundTable, note_doubled};
use hs_plan::Source;
use hs_scope::Scope;
use hs_typed::Faults;
use std::alloc::Global;

/// Puts a table behind those of its own element of FROM, and gives where its rows come from. A table of its name before it, among
/// the elements before or in its own one, is noted. An `Err` is want of memory.
pub(crate) fn enter(
    bound: BoundTable,
    name: &Identifier,
    before: &Scope,
    own: &mut Scope,
    faults: &mut Faults,
    alloc: Global,
) -> Result<Option<Source>, NoMemory>
    ensures source { IfOk result (λ source. source ≡ bound.source) }
    ensures own { OnOk result (own.new ≡ own.old ++ bound.table ∷ []) }
    ensures noted { OnOk result (faults.new ≡ noted faults.old (doubled before.now own.old name.now)) }
{
    note_doubled(name, before, own, faults, alloc)?;
    own.push(alloc, bound.table)?;
    Ok(bound.source)
}
