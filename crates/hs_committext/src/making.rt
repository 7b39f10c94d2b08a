// Definitions by what their lines say.
ghost use Rattle.std.specs.Prelude.{◌≡◌};
ghost use Rattle.hs_alterationtext.specs.declared.alteration.Alteration.TheVariants as a;
ghost use Rattle.hs_committext.specs.Definitions as spec;

use hs_alterationtext::Alteration;
use hs_plan::Definition;
use hs_shorttext::NewIndex;
use hs_tabletext::{AddedColumn, NewTable};
use hs_values::Name;

/// The definition that makes this table.
pub(crate) fn creating(made: NewTable) -> Definition
    ensures { result ≡ spec.creating made }
{
    let NewTable {
        storage,
        name,
        columns,
        constraints,
    } = made;
    Definition::CreateTable {
        storage,
        name,
        columns,
        constraints,
    }
}

/// The definition that makes this index.
pub(crate) fn indexing(made: NewIndex) -> Definition
    ensures { result ≡ spec.indexing made }
{
    let NewIndex {
        name,
        table,
        columns,
    } = made;
    Definition::CreateIndex {
        table,
        name,
        columns,
    }
}

/// The definition that adds this column to the table of this name.
fn adding(table: Name, added: AddedColumn) -> Definition
    ensures { result ≡ spec.altering table (a.AddColumn added) }
{
    let AddedColumn {
        column,
        constraints,
    } = added;
    Definition::AddColumn {
        table,
        column,
        constraints,
    }
}

/// The definition that does this to the table of this name.
pub(crate) fn altering(table: Name, alteration: Alteration) -> Definition
    ensures { result ≡ spec.altering table alteration }
{
    match alteration {
        Alteration::AddColumn(added) => adding(table, added),
        Alteration::AddConstraint(constraint) => Definition::AddConstraint { table, constraint },
        Alteration::DropConstraint(name) => Definition::DropConstraint { table, name },
    }
}
