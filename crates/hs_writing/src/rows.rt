// The rows of the table that a statement changes.
ghost use Rattle.std.specs.Prelude.{◌≡◌, [], ◌∷◌, IfOk, OnOk};
ghost use Rattle.hs_meaning.specs.From.{shown_name};
ghost use Rattle.hs_typed.specs.Faults.{noted};
ghost use Rattle.hs_writing.specs.Statements.{misnamed};
ghost use Rattle.hs_writing.specs.Targets as spec;

use hs_ast::Identifier;
use hs_base::NoMemory;
use hs_elements::Columns;
use hs_outlines::{note_repeated, note_unknown};
use hs_schema::Table;
use hs_scope::{FromTable, Scope};
use hs_typed::Faults;
use std::alloc::Global;

fn shown_name<'a>(name: &'a Identifier, alias: &'a Option<Identifier>) -> &'a Identifier
    ensures { result.now ≡ shown_name name.now alias.now }
{
    match alias {
        Some(alias) => alias,
        None => name,
    }
}

/// What an expression over the rows of a table sees. An `Err` is want of memory.
pub fn rows_of(
    t: &Table,
    name: &Identifier,
    alias: &Option<Identifier>,
    alloc: Global,
) -> Result<Scope, NoMemory>
    ensures { IfOk result (λ scope. scope ≡ spec.table_as t.now name.now alias.now ∷ []) }
{
    let shown = shown_name(name, alias);
    let table = FromTable::of_table(alloc, shown.name.as_str(), t.columns.as_slice())?;
    let mut scope = Scope::new(alloc);
    scope.push(alloc, table)?;
    Ok(scope)
}

/// Notes each name of a list that is no column of a table, and each that repeats an earlier one. `names` are the table's
/// columns by their names. An `Err` is want of memory.
pub fn note_misnamed(
    t: &Table,
    names: &Columns,
    list: &[Identifier],
    faults: &mut Faults,
    alloc: Global,
) -> Result<(), NoMemory>
    requires { names.now ≡ spec.names_of t.now }
    ensures { OnOk result (faults.new ≡ noted faults.old (misnamed t.now list.now)) }
{
    note_unknown(names, list, faults, alloc)?;
    note_repeated(list, faults, alloc)
}
